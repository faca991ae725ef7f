// A schedule by chance, from founding to handing over.
ghost use Rattle.std.specs.Prelude.{OnOk, take};
ghost use Rattle.release.specs.Journals.{CountedLast};

use crate::calls::Act;
use crate::failure::Failure;
use crate::field::Field;
use crate::values::Drawn;
use kinds::stamp::Stamp;
use registrar::ticket::Ticket;
use station::job::Standing;

// How many turns a schedule has for each station.
const TURNS: usize = 40;

// One station in so many only looks, never tunes, and submits seldom.
const READERS: usize = 4;

impl<S: Stamp, R: Drawn> Field<S, R> {
    // Looks at one record after the other, one more than a sheet has places for.
    fn look_through(&mut self, at: usize, image: usize) {
        for record in 0..self.registrar.records.min(17) {
            self.act(at, image, Act::Look { record });
        }
    }

    // A job's turn, the job standing at an image. Now and then another image is taken for it.
    fn go_on(&mut self, at: usize, image: usize, tickets: &mut Vec<Ticket>) -> Result<(), Failure> {
        let image = if self.chance.one_in(80) {
            self.any_image()
        } else {
            image
        };
        let reads = at % READERS == 0;
        match self.chance.below(100) {
            26..52 if !reads => {
                let record = self.any_record();
                let value = R::drawn(&mut self.chance);
                self.act(at, image, Act::Put { record, value });
            }
            52..66 if !reads => {
                let next = self.newest().min(image.saturating_add(1));
                self.act(at, next, Act::Tune);
            }
            76..96 if !reads || self.chance.one_in(4) => self.submit(at, tickets)?,
            0..96 => {
                let record = self.any_record();
                self.act(at, image, Act::Look { record });
            }
            96 => self.look_through(at, image),
            _ => self.let_go(at),
        }
        Ok(())
    }

    // A station's turn: a ticket is settled, a job is opened, mostly at the newest image, or its job goes on. A job
    // that is shut is mostly let go.
    fn turn(&mut self, at: usize, tickets: &mut Vec<Ticket>) -> Result<(), Failure> {
        if self.chance.one_in(16) {
            return self.settle_one(tickets);
        }
        let Some(station) = self.stations.get(at) else {
            return Ok(());
        };
        let Some(job) = &station.job else {
            let image = if self.chance.one_in(4) {
                self.any_image()
            } else {
                self.newest()
            };
            self.open(at, image);
            return Ok(());
        };
        let image = job.image as usize;
        let shut = job.standing == Standing::Shut;
        if shut && !self.chance.one_in(4) {
            self.let_go(at);
            return Ok(());
        }
        self.go_on(at, image, tickets)
    }

    // The turns of a schedule. How often the registrar has one, and how often it publishes in place of deciding, is
    // drawn for each schedule. In the end the registrar decides what waits, and publishes.
    fn turns(&mut self, tickets: &mut Vec<Ticket>) -> Result<(), Failure> {
        let office = 4 + self.chance.below(8);
        let slowest = 1 + self.chance.below(40);
        let images = 2 + self.chance.below(slowest);
        let stations = self.stations.len();
        self.publish()?;
        for _ in 0..stations.saturating_mul(TURNS) {
            if !self.chance.one_in(office) {
                let at = self.chance.below(stations);
                self.turn(at, tickets)?;
            } else if self.chance.one_in(images) {
                self.publish()?;
            } else {
                self.decide();
            }
        }
        for _ in 0..self.registrar.waiting {
            self.decide();
        }
        self.publish()
    }

    // The next schedule: a register is founded, the stations and the registrar take their turns, every ticket is
    // settled or waived, and the archive is checked against the register.
    pub fn schedule(&mut self) -> Result<(), Failure>
        ensures { OnOk result (CountedLast S.Stamp.kind.order (take self.new.registrar.jobs self.new.store.heads.items) self.new.tally) }
    {
        self.found()?;
        let mut tickets = Vec::new(self.heap);
        let ran = self.turns(&mut tickets);
        self.spend(tickets);
        ran?;
        self.publish_at_the_end();
        self.check()
    }
}
