// Calls of the library, as a desk makes them.
ghost use Rattle.std.specs.Prelude.{◌≡◌, OnOk};
ghost use Rattle.std.specs.BTreeMap.{get_by_text};
ghost use Rattle.std.specs.List.{slice_get};
ghost use Rattle.std.specs.Option.{option_map};
ghost use Rattle.office.specs.Images.{image_kept};
ghost use Rattle.station.specs.Heard.{heard};
ghost use Rattle.schedule_desk.specs.Held.{Shows};
ghost use Rattle.schedule_desk.specs.Made.{Made, made, published, opened, looked, put_there, tuned, submitted, decided, settled, waived};

use crate::answer::Answer;
use crate::desk::Desk;
use crate::failure::Failure;
use crate::holdings::{Holding, Station};
use kinds::stamp::Stamp;
use model::image::Image;
use office::images::Published;
use office::store::places;
use schedule_calls::command::Call;
use schedule_calls::reason::{Fault, Reason};
use station::job::Job;

// The image of this number.
pub fn image_at<S: Stamp, R: Copy>(
    images: &[Published<S, R>],
    number: usize,
) -> Result<Image<'_, S, R>, Reason>
    ensures { Shows (λ i. heard i) (option_map image_kept (slice_get images.now number)) result }
{
    images
        .get(number)
        .map(|published| published.image())
        .ok_or(Reason::NoImage)
}

// The calls of the registrar.
impl<S: Stamp, R: Copy> Desk<S, R> {
    // Publishes the next image.
    fn publish(&mut self) -> Result<Answer<S, R>, Failure>
        ensures { Made (published S.Stamp.kind self.old) result }
    {
        let mut published = Published::opening(self.heap, &self.store.opening)?;
        let number = self.registrar.publish(
            self.store.lend(),
            &mut published.head,
            &mut published.rows,
            &mut published.outcomes,
        )?;
        self.images.push(published)?;
        Ok(Answer::Image(number))
    }

    // Decides the oldest submission.
    fn decide(&mut self) -> Result<Answer<S, R>, Failure>
        ensures { Made (decided S.Stamp.kind self.old) result }
    {
        Ok(Answer::Decided(self.registrar.decide(self.store.lend())?))
    }

    // Submits a job; its name stands for the ticket then.
    fn submit(&mut self, name: &str) -> Result<Answer<S, R>, Failure>
        ensures { Made (submitted S.Stamp.kind self.old name.now) result }
    {
        let (name, Station { job, sheet }) = self.holdings.take_job(name)?;
        match self.registrar.submit(self.store.lend(), job, &sheet) {
            Ok(ticket) => {
                let number = ticket.number();
                self.holdings.keep(name, Holding::Submitted(ticket))?;
                Ok(Answer::Ticket(number))
            }
            Err((refusal, job)) => {
                self.holdings
                    .keep(name, Holding::AtWork(Station { job, sheet }))?;
                Err(refusal.into())
            }
        }
    }

    // Settles a ticket, which frees its name.
    fn settle(&mut self, name: &str, image: usize) -> Result<Answer<S, R>, Failure>
        ensures { Made (settled S.Stamp.kind self.old name.now image) result }
    {
        let (name, ticket) = self.holdings.take_ticket(name)?;
        let image = match image_at(&self.images, image) {
            Ok(image) => image,
            Err(reason) => {
                self.holdings.keep(name, Holding::Submitted(ticket))?;
                return Err(reason.into());
            }
        };
        match ticket.settle(image) {
            Ok(verdict) => Ok(Answer::Settled(verdict)),
            Err((refusal, ticket)) => {
                self.holdings.keep(name, Holding::Submitted(ticket))?;
                Err(refusal.into())
            }
        }
    }

    // Waives a ticket, which frees its name.
    fn waive(&mut self, name: &str) -> Result<Answer<S, R>, Failure>
        ensures { Made (waived S.Stamp.kind self.old name.now) result }
    {
        let (_, ticket) = self.holdings.take_ticket(name)?;
        ticket.waive();
        Ok(Answer::Done)
    }
}

// The calls of a station.
impl<S: Stamp, R: Copy> Desk<S, R> {
    // Opens a job, unless its name stands.
    fn open(&mut self, name: &str, image: usize) -> Result<Answer<S, R>, Failure>
        ensures { Made (opened S.Stamp.kind self.old name.now image) result }
    {
        let name = self.holdings.free(name)?;
        let job = Job::open(image_at(&self.images, image)?)?;
        let standing = job.standing;
        let sheet = places(self.heap, self.blank, 16)?;
        self.holdings
            .keep(name, Holding::AtWork(Station { job, sheet }))?;
        Ok(Answer::Stands(standing))
    }

    // A look of a job, at the image at which it stands unless another is named.
    fn look(
        &mut self,
        name: &str,
        number: usize,
        at: Option<usize>,
    ) -> Result<Answer<S, R>, Failure>
        ensures { Made (looked S.Stamp.kind self.old name.now number at) result }
    {
        let station = self.holdings.job_mut(name)?;
        let image = image_at(&self.images, station.image(at))?;
        let value = station.job.look(&mut station.sheet, image, number)?;
        Ok(Answer::Value(value))
    }

    // A put of a job, at the image at which it stands unless another is named.
    fn put(
        &mut self,
        name: &str,
        number: usize,
        value: R,
        at: Option<usize>,
    ) -> Result<Answer<S, R>, Failure>
        ensures { Made (put_there S.Stamp.kind self.old name.now number value at) result }
    {
        let station = self.holdings.job_mut(name)?;
        let image = image_at(&self.images, station.image(at))?;
        station.job.put(&mut station.sheet, image, number, value)?;
        Ok(Answer::Done)
    }

    // A job tunes to an image.
    fn tune(&mut self, name: &str, image: usize) -> Result<Answer<S, R>, Failure>
        ensures { Made (tuned S.Stamp.kind self.old name.now image) result }
    {
        let station = self.holdings.job_mut(name)?;
        let image = image_at(&self.images, image)?;
        let standing = station.job.tune(&mut station.sheet, image)?;
        Ok(Answer::Stands(standing))
    }

    // Lets a job go that was not submitted, which frees its name.
    pub fn let_go(&mut self, name: &str) -> Result<(), Fault>
        ensures { OnOk result (get_by_text self.new.holdings.named name.now ≡ None) }
    {
        let _ = self.holdings.take_job(name)?;
        Ok(())
    }
}

impl<S: Stamp, R: Copy> Desk<S, R> {
    // Makes a call.
    pub fn make(&mut self, call: &Call<'_, R>) -> Result<Answer<S, R>, Failure>
        ensures { Made (made S.Stamp.kind self.old call.now) result }
    {
        match call {
            Call::Publish => self.publish(),
            Call::Open { name, image } => self.open(name, *image),
            Call::Look { name, record, at } => self.look(name, record.value(), *at),
            Call::Put {
                name,
                record,
                value,
                at,
            } => self.put(name, record.value(), *value, *at),
            Call::Tune { name, image } => self.tune(name, *image),
            Call::Submit { name } => self.submit(name),
            Call::Decide => self.decide(),
            Call::Settle { name, image } => self.settle(name, *image),
            Call::Waive { name } => self.waive(name),
        }
    }
}
