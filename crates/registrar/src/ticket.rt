// Tickets.
ghost use Rattle.std.specs.Prelude.{◌≡◌};
ghost use Rattle.registrar.specs.Registry.{verdict_in, settle as settled_by};
ghost use Rattle.registrar.specs.Calls.{image_heard, or_ticket};

use kinds::stamp::Stamp;
use model::image::{Image, fits};
use model::refusal::Refusal;
use model::tables::front;
use model::verdict::{Outcome, Verdict};

// What a station holds for a submitted job. It is settled or waived, and cannot be forgotten.
pub struct Ticket {
    number: u32,
}

// The verdict on a ticket, if it is among the outcomes.
fn verdict_in<S: Copy>(outcomes: &[Outcome<S>], ticket: u32) -> Option<Verdict<S>>
    ensures { result ≡ verdict_in ticket outcomes.now }
{
    outcomes
        .iter()
        .find(|outcome| outcome.ticket == ticket)
        .map(|outcome| outcome.verdict)
}

impl Ticket {
    // The ticket of a number.
    pub(crate) fn new(number: u32) -> Ticket
        ensures { result.number ≡ number }
    {
        Ticket { number }
    }

    // The ticket's number.
    pub fn number(&self) -> u32
        ensures { result ≡ self.now.number }
    {
        self.number
    }

    // The verdict on the ticket in an image, which spends it; a refusal hands the ticket back.
    pub fn settle<S: Stamp, R: Copy>(
        self,
        image: Image<'_, S, R>,
    ) -> Result<Verdict<S>, (Refusal, Ticket)>
        ensures { result ≡ or_ticket self (settled_by self.number (image_heard image.entry)) }
    {
        if !fits(image.records, image.rows.len(), image.outcomes.len()) {
            return Err((Refusal::WrongTables, self));
        }
        let Some(verdict) = verdict_in(front(image.outcomes, image.count), self.number) else {
            return Err((Refusal::NotInImage, self));
        };
        self.waive();
        Ok(verdict)
    }

    // The ticket is spent unread.
    pub fn waive(self) {
        let Ticket { number: _ } = self;
    }
}
