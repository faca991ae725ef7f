// The calls of a release run, each of which is counted.
use crate::failure::Failure;
use crate::field::{Field, Station};
use crate::tally::Tally;
use crate::values::Drawn;
use kinds::stamp::Stamp;
use model::image::Image;
use model::refusal::Refusal;
use office::images::Published;
use registrar::registrar::Registrar;
use registrar::ticket::Ticket;
use station::job::{Job, Standing};
use std::alloc::AllocFailed;

// What a job does at an image.
#[derive(Clone, Copy)]
pub(crate) enum Act<R> {
    Look { record: usize },
    Put { record: usize, value: R },
    Tune,
}

// Keeps a ticket; one that finds no place is waived.
fn keep(tickets: &mut Vec<Ticket>, ticket: Ticket) -> Result<(), Failure> {
    match tickets.push(ticket) {
        Ok(()) => Ok(()),
        Err(AllocFailed { value }) => {
            value.waive();
            Err(Failure::Memory)
        }
    }
}

impl Tally {
    // Counts the call of a job, and a job that it shut.
    fn stood(&mut self, said: Result<Standing, Refusal>) {
        self.call(said.err());
        if said == Ok(Standing::Shut) {
            self.shut();
        }
    }
}

impl<S: Stamp, R: Copy> Station<S, R> {
    // How the job stands after a call with so many places of the sheet, unless the station has none.
    fn act(
        &mut self,
        places: usize,
        image: Image<'_, S, R>,
        act: Act<R>,
    ) -> Option<Result<Standing, Refusal>> {
        let job = self.job.as_mut()?;
        let end = places.min(self.sheet.len());
        let sheet = &mut self.sheet[..end];
        Some(match act {
            Act::Look { record } => job.look(sheet, image, record).map(|_| Standing::Live),
            Act::Put { record, value } => {
                let said = job.put(sheet, image, record, value);
                said.map(|_| Standing::Live)
            }
            Act::Tune => job.tune(sheet, image),
        })
    }
}

// The calls of a station.
impl<S: Stamp, R: Drawn> Field<S, R> {
    // Opens a job at an image.
    pub(crate) fn open(&mut self, at: usize, image: usize) {
        let Some(published) = self.images.get(image) else {
            return;
        };
        let Some(station) = self.stations.get_mut(at) else {
            return;
        };
        match Job::open(published.image()) {
            Ok(job) => {
                station.job = Some(job);
                self.tally.call(None);
            }
            Err(refusal) => self.tally.call(Some(refusal)),
        }
    }

    // A look, a put or a tune at an image; now and then the sheet is handed in a place short.
    pub(crate) fn act(&mut self, at: usize, image: usize, act: Act<R>) {
        let places = if self.chance.one_in(300) { 15 } else { 16 };
        let Some(published) = self.images.get(image) else {
            return;
        };
        let Some(station) = self.stations.get_mut(at) else {
            return;
        };
        if let Some(said) = station.act(places, published.image(), act) {
            self.tally.stood(said);
        }
    }

    // Submits the job of a station, and keeps the ticket.
    pub(crate) fn submit(&mut self, at: usize, tickets: &mut Vec<Ticket>) -> Result<(), Failure> {
        let Some(station) = self.stations.get_mut(at) else {
            return Ok(());
        };
        let Some(job) = station.job.take() else {
            return Ok(());
        };
        match self
            .registrar
            .submit(self.store.lend(), job, &station.sheet)
        {
            Ok(ticket) => {
                self.tally.call(None);
                keep(tickets, ticket)
            }
            Err((refusal, job)) => {
                station.job = Some(job);
                self.tally.call(Some(refusal));
                Ok(())
            }
        }
    }

    // Lets the job of a station go.
    pub(crate) fn let_go(&mut self, at: usize) {
        if let Some(station) = self.stations.get_mut(at) {
            station.job = None;
        }
    }

    // Settles a ticket by an image; a refusal hands it back.
    fn settle(&mut self, ticket: Ticket, image: usize) -> Option<Ticket> {
        let Some(published) = self.images.get(image) else {
            return Some(ticket);
        };
        match ticket.settle(published.image()) {
            Ok(_) => {
                self.tally.call(None);
                None
            }
            Err((refusal, ticket)) => {
                self.tally.call(Some(refusal));
                Some(ticket)
            }
        }
    }

    // Waives a ticket.
    fn waive(&mut self, ticket: Ticket) {
        ticket.waive();
        self.tally.call(None);
    }

    // Settles one of the tickets by some image. Now and then one that is refused is waived.
    pub(crate) fn settle_one(&mut self, tickets: &mut Vec<Ticket>) -> Result<(), Failure> {
        let place = self.chance.below(tickets.len());
        let image = if self.chance.one_in(4) {
            self.any_image()
        } else {
            self.newest()
        };
        if place >= tickets.len() {
            return Ok(());
        }
        let ticket = tickets.swap_remove(place);
        match self.settle(ticket, image) {
            None => Ok(()),
            Some(ticket) if self.chance.one_in(8) => {
                self.waive(ticket);
                Ok(())
            }
            Some(ticket) => keep(tickets, ticket),
        }
    }

    // Settles the tickets that are left by the newest image, or waives them.
    pub(crate) fn spend(&mut self, mut tickets: Vec<Ticket>) {
        let newest = self.newest();
        while let Some(ticket) = tickets.pop() {
            match self.settle(ticket, newest) {
                None => {}
                Some(ticket) => self.waive(ticket),
            }
        }
        tickets.destroy_empty();
    }
}

// The calls of the registrar.
impl<S: Stamp, R: Drawn> Field<S, R> {
    // Decides the oldest submission.
    pub(crate) fn decide(&mut self) {
        match self.registrar.decide(self.store.lend()) {
            Ok(outcome) => {
                self.tally.call(None);
                self.tally.verdict(outcome.verdict);
            }
            Err(refusal) => self.tally.call(Some(refusal)),
        }
    }

    // Publishes the next image.
    pub(crate) fn publish(&mut self) -> Result<(), Failure> {
        let next = self.newest().saturating_add(1);
        if self.images.len() <= next {
            let published = Published::opening(self.heap, &self.opening)?;
            self.images.push(published)?;
        }
        if let Some(image) = self.images.get_mut(next) {
            let said = self.registrar.publish(
                self.store.lend(),
                &mut image.head,
                &mut image.rows,
                &mut image.outcomes,
            );
            self.tally.call(said.err());
        }
        Ok(())
    }

    // Asks a register with these tables whose cycle number is at its end for an image, which is refused.
    pub(crate) fn publish_at_the_end(&mut self) {
        let mut last = Registrar {
            cycle: u32::MAX,
            ..self.registrar
        };
        if let Some(image) = self.images.first_mut() {
            let said = last.publish(
                self.store.lend(),
                &mut image.head,
                &mut image.rows,
                &mut image.outcomes,
            );
            self.tally.call(said.err());
        }
    }
}
