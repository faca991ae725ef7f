// What stands on a bench, as far as a test sets it or asks for it.
use crate::bench::{Bench, entry_for};
use crate::content::Content;
use kinds::stamp::Stamp;
use model::entry::Entry;
use model::tables::{at, store};
use registrar::queue::Submission;
use station::job::Standing;

#[derive(Clone, Copy)]
pub enum State {
    // The job: its image, whether it may go on, no upper bound or the least stamp as one, how many entries count,
    // and what stands at a place of the sheet.
    JobImage(u32),
    Standing(Standing),
    Room,
    NoRoom,
    Entries(usize),
    Sheet(usize, Listed),
    // The image: its number, and how many outcomes count.
    Image(u32),
    ImageOutcomes(usize),
    // The registrar's numbers.
    Cycle(u32),
    Tickets(u32),
    Oldest(usize),
    Waiting(usize),
    Outcomes(usize),
    Jobs(usize),
    // At a place of the queue: a submission without bounds, by its ticket and how many entries count; and one of
    // the entries that are queued.
    Submission(usize, u32, usize),
    Queued(usize, Listed),
}

// An entry for a record, which saw the old value: neither seen nor put, the same but with the new value as
// written, or put with it.
#[derive(Clone, Copy)]
pub enum Listed {
    Untouched(usize),
    Written(usize),
    Put(usize),
}

// A submission without bounds.
pub fn submission<S: Stamp>(ticket: u32, count: usize) -> Submission<S> {
    Submission {
        ticket,
        lower: S::least(),
        upper: None,
        count,
    }
}

impl<S: Stamp, R: Copy> Bench<S, R> {
    fn entry(&self, listed: Listed) -> Entry<S, R> {
        let (number, wrote, put) = match listed {
            Listed::Untouched(number) => (number, self.values.old, false),
            Listed::Written(number) => (number, self.values.new, false),
            Listed::Put(number) => (number, self.values.new, true),
        };
        Entry {
            wrote,
            put,
            ..entry_for(self.values.old, number)
        }
    }

    pub fn set(&mut self, state: State) {
        match state {
            State::JobImage(number) => self.job.image = number,
            State::Standing(standing) => self.job.standing = standing,
            State::Room => self.job.upper = None,
            State::NoRoom => self.job.upper = Some(S::least()),
            State::Entries(count) => self.job.count = count,
            State::Sheet(place, listed) => {
                let entry = self.entry(listed);
                store(&mut self.sheet, place, entry);
            }
            State::Image(number) => self.published.head.number = number,
            State::ImageOutcomes(count) => self.published.head.count = count,
            State::Cycle(number) => self.registrar.cycle = number,
            State::Tickets(number) => self.registrar.tickets = number,
            State::Oldest(place) => self.registrar.oldest = place,
            State::Waiting(count) => self.registrar.waiting = count,
            State::Outcomes(count) => self.registrar.outcomes = count,
            State::Jobs(count) => self.registrar.jobs = count,
            State::Submission(place, ticket, count) => {
                store(&mut self.store.queue, place, submission(ticket, count));
            }
            State::Queued(place, listed) => {
                let entry = self.entry(listed);
                store(&mut self.store.queued, place, entry);
            }
        }
    }
}

impl<S: Stamp + Content, R: Content> Bench<S, R> {
    pub fn holds(&self, state: State) -> bool {
        match state {
            State::JobImage(number) => self.job.image == number,
            State::Standing(standing) => self.job.standing == standing,
            State::Room => self.job.upper.is(None),
            State::NoRoom => self.job.upper.is(Some(S::least())),
            State::Entries(count) => self.job.count == count,
            State::Sheet(place, listed) => at(&self.sheet, place).is(Some(self.entry(listed))),
            State::Image(number) => self.published.head.number == number,
            State::ImageOutcomes(count) => self.published.head.count == count,
            State::Cycle(number) => self.registrar.cycle == number,
            State::Tickets(number) => self.registrar.tickets == number,
            State::Oldest(place) => self.registrar.oldest == place,
            State::Waiting(count) => self.registrar.waiting == count,
            State::Outcomes(count) => self.registrar.outcomes == count,
            State::Jobs(count) => self.registrar.jobs == count,
            State::Submission(place, ticket, count) => {
                at(&self.store.queue, place).is(Some(submission(ticket, count)))
            }
            State::Queued(place, listed) => {
                at(&self.store.queued, place).is(Some(self.entry(listed)))
            }
        }
    }
}
