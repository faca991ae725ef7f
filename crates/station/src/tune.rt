// Tuning a job to the next image.
ghost use Rattle.std.specs.Prelude.{◌≡◌, ◌+◌, Ok, ◌==◌};
ghost use Rattle.station.specs.Station.{tune_job};
ghost use Rattle.station.specs.Heard.{heard, station as at_station, answered, admitted_next};
ghost use Rattle.station.specs.Places.{bounds_at, tune_at};

use crate::bounds::{lower_by, upper_by};
use crate::job::{Job, Standing};
use crate::sheet::{close, struck};
use kinds::stamp::Stamp;
use model::entry::{Entry, beyond};
use model::image::{Image, ImageRow};
use model::refusal::Refusal;
use model::tables::front;

// Whether an image number is the next after another.
fn follows(number: u32, before: u32) -> bool
    ensures { result ≡ (number == before + 1) }
{
    before.checked_add(1) == Some(number)
}

impl<S: Stamp> Job<S> {
    // Whether the job may go on to an image: the next one, with every record of the sheet; or why not.
    fn admit_next<R: Copy>(
        &self,
        sheet: &[Entry<S, R>],
        image: Image<'_, S, R>,
    ) -> Result<(), Refusal>
        ensures { result ≡ admitted_next S.Stamp.kind (at_station self.now sheet.now) (heard image.entry) }
    {
        self.ready(sheet, image)?;
        if !follows(image.number, self.image) {
            return Err(Refusal::NotNextImage);
        }
        if beyond(front(sheet, self.count), image.records) {
            return Err(Refusal::NoSuchRecord);
        }
        Ok(())
    }

    // The bounds after an image; none where a put record has a first write, or where no stamp lies
    // between them.
    fn narrowed<R: Copy>(
        &self,
        entries: &[Entry<S, R>],
        rows: &[ImageRow<S, R>],
    ) -> Option<(S, Option<S>)>
        ensures { result ≡ bounds_at S.Stamp.kind self.now entries.now rows.now }
    {
        if struck(entries, rows) {
            return None;
        }
        let lower = lower_by(entries, rows, self.lower);
        let upper = upper_by(entries, rows, self.upper);
        lower.pick(upper).map(|_| (lower, upper))
    }

    // Moves the job to an image and closes its entries by the rows, or shuts it.
    fn tune_at<R: Copy>(&mut self, sheet: &mut [Entry<S, R>], image: Image<'_, S, R>) -> Standing
        ensures { answered (Ok result) self.new sheet.new ≡ tune_at S.Stamp.kind (at_station self.old sheet.old) (heard image.entry) }
    {
        let Some((lower, upper)) = self.narrowed(front(sheet, self.count), image.rows) else {
            self.standing = Standing::Shut;
            return Standing::Shut;
        };
        close(sheet, self.count, image.rows);
        self.image = image.number;
        self.lower = lower;
        self.upper = upper;
        Standing::Live
    }

    // Takes a job on to the next image. Its bounds narrow by the first writes of the records it has
    // seen and the read stamps of those it has put. A put record that has a first write shuts the job,
    // and so do bounds with no stamp between them.
    pub fn tune<R: Copy>(
        &mut self,
        sheet: &mut [Entry<S, R>],
        image: Image<'_, S, R>,
    ) -> Result<Standing, Refusal>
        ensures { answered result self.new sheet.new ≡ tune_job S.Stamp.kind (at_station self.old sheet.old) (heard image.entry) }
    {
        self.admit_next(sheet, image)?;
        Ok(self.tune_at(sheet, image))
    }
}
