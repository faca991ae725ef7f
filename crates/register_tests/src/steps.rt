// What a test does, as data: one runner takes each step on a bench, so a test is a list of steps.
use crate::bench::{Bench, Call};
use crate::content::{Content, same_table};
use crate::kinds_used::{CARDS, ITEMS, Values};
use crate::states::State;
use kinds::stamp::Stamp;
use kinds::volume::VolumePage;
use kinds::whole::Whole;
use model::refusal::Refusal;
use model::tables::at;
use std::alloc::{AllocError, Global};
use std::test::Fail;

#[derive(Clone, Copy)]
pub enum Step {
    Set(State),
    Holds(State),
    // A table gets a place less, or one more that has the content of its last one.
    Shorten(Table),
    Lengthen(Table),

    // What a call is answered; a refused one alters nothing.
    Gives(Call, Result<(), Refusal>),
    Answered(Call),
    Refused(Call, Refusal),
    // A look and a put of a record are refused alike.
    BothRefused(usize, Refusal),
    // A call is answered so many times.
    Times(usize, Call),

    // A call is answered, and alters no row of the registrar.
    KeepsRows(Call),
    // A call is answered, and tells this.
    Tells(Told),
    // The first head of the journal is of a job of this ticket, with so many entries.
    Entered(u32, usize),
}

// What a call tells: a look at a record its old value, or the new one; submit and decide the number of a ticket,
// and publish that of an image.
#[derive(Clone, Copy)]
pub enum Told {
    LooksOld(usize),
    LooksNew(usize),
    Submits(u32),
    Decides(u32),
    Publishes(u32),
}

// The tables that a call may be handed.
#[derive(Clone, Copy)]
pub enum Table {
    Rows,
    Firsts,
    Opening,
    Queue,
    Queued,
    Outcomes,
    Heads,
    Lines,
    ImageRows,
    ImageOutcomes,
    Sheet,
}

// A table without its last place, or with that one and another like it.
fn resize<T: Copy>(table: &mut Vec<T>, longer: bool) -> Result<(), AllocError> {
    let Some(last) = table.pop() else {
        return Ok(());
    };
    if longer {
        table.push(last)?;
        table.push(last)?;
    }
    Ok(())
}

impl<S: Copy, R: Copy> Bench<S, R> {
    fn resize(&mut self, table: Table, longer: bool) -> Result<(), AllocError> {
        match table {
            Table::Rows => resize(&mut self.store.rows, longer),
            Table::Firsts => resize(&mut self.store.firsts, longer),
            Table::Opening => resize(&mut self.store.opening, longer),
            Table::Queue => resize(&mut self.store.queue, longer),
            Table::Queued => resize(&mut self.store.queued, longer),
            Table::Outcomes => resize(&mut self.store.outcomes, longer),
            Table::Heads => resize(&mut self.store.heads, longer),
            Table::Lines => resize(&mut self.store.lines, longer),
            Table::ImageRows => resize(&mut self.published.rows, longer),
            Table::ImageOutcomes => resize(&mut self.published.outcomes, longer),
            Table::Sheet => resize(&mut self.sheet, longer),
        }
    }
}

impl<S: Stamp + Content, R: Content> Bench<S, R> {
    // The step that is taken fails where a fact does not hold.
    fn asserts(&self, fact: bool, otherwise: &str) -> Result<(), Fail> {
        if fact {
            Ok(())
        } else {
            Err(Fail::new(format_args!("step {}: {otherwise}", self.step)))
        }
    }

    fn shows(&mut self, number: usize, wanted: R) -> Result<(), Fail> {
        let shown = self.look(number)?.is(wanted);
        self.asserts(shown, "the look shows another value")
    }

    fn submits(&mut self, number: u32) -> Result<(), Fail> {
        let ticket = self.submit()?;
        let given = ticket.number();
        ticket.waive();
        self.asserts(given == number, "the ticket has another number")
    }

    fn decides(&mut self, ticket: u32) -> Result<(), Fail> {
        let decided = self.decide()?.ticket;
        self.asserts(decided == ticket, "another submission is decided")
    }

    fn publishes(&mut self, number: u32) -> Result<(), Fail> {
        let published = self.publish()?;
        self.asserts(published == number, "the image has another number")
    }

    fn keeps_rows(&mut self, call: Call) -> Result<(), Fail> {
        let rows = self.store.rows.clone()?;
        self.gives(call, Ok(()))?;
        self.asserts(same_table(&self.store.rows, &rows), "a row is altered")
    }

    fn entered(&self, ticket: u32, count: usize) -> bool {
        match at(&self.store.heads, 0) {
            Some(head) => head.ticket == ticket && usize::from(head.count) == count,
            None => false,
        }
    }

    fn repeats(&mut self, times: usize, call: Call) -> Result<(), Fail> {
        for _ in 0..times {
            self.gives(call, Ok(()))?;
        }
        Ok(())
    }

    fn both_refused(&mut self, number: usize, refusal: Refusal) -> Result<(), Fail> {
        self.gives(Call::Look(number), Err(refusal))?;
        self.gives(Call::Put(number), Err(refusal))
    }

    fn tells(&mut self, told: Told) -> Result<(), Fail> {
        match told {
            Told::LooksOld(number) => self.shows(number, self.values.old),
            Told::LooksNew(number) => self.shows(number, self.values.new),
            Told::Submits(number) => self.submits(number),
            Told::Decides(ticket) => self.decides(ticket),
            Told::Publishes(number) => self.publishes(number),
        }
    }

    fn take(&mut self, step: Step) -> Result<(), Fail> {
        match step {
            Step::Set(state) => {
                self.set(state);
                Ok(())
            }
            Step::Holds(state) => self.asserts(self.holds(state), "another state"),
            Step::Shorten(table) => Ok(self.resize(table, false)?),
            Step::Lengthen(table) => Ok(self.resize(table, true)?),
            Step::Gives(call, wanted) => self.gives(call, wanted),
            Step::Answered(call) => self.gives(call, Ok(())),
            Step::Refused(call, refusal) => self.gives(call, Err(refusal)),
            Step::BothRefused(number, refusal) => self.both_refused(number, refusal),
            Step::Times(times, call) => self.repeats(times, call),
            Step::KeepsRows(call) => self.keeps_rows(call),
            Step::Tells(told) => self.tells(told),
            Step::Entered(ticket, count) => {
                self.asserts(self.entered(ticket, count), "the head is another")
            }
        }
    }

    // The steps in turn.
    pub fn play(&mut self, steps: &[Step]) -> Result<(), Fail> {
        for (number, step) in steps.iter().enumerate() {
            self.step = number;
            self.take(*step)?;
        }
        Ok(())
    }
}

// What a test begins with: tables for a register of so many records, with a journal of so many places; or a
// register of two records that is founded on them, with an image and a job at it.
#[derive(Clone, Copy)]
pub enum Start {
    Tables(usize, usize),
    Founded(usize),
}

fn play_of<S: Stamp + Content, R: Content>(
    heap: Global,
    values: Values<R>,
    start: Start,
    steps: &[Step],
) -> Result<(), Fail> {
    let mut bench: Bench<S, R> = match start {
        Start::Tables(records, journal) => Bench::new(heap, values, records, journal)?,
        Start::Founded(journal) => Bench::founded(heap, values, journal)?,
    };
    bench.play(steps)
}

// The steps in turn, once for each stamp kind and record kind.
pub fn play(heap: Global, start: Start, steps: &[Step]) -> Result<(), Fail> {
    play_of::<Whole, _>(heap, CARDS, start, steps)?;
    play_of::<VolumePage, _>(heap, ITEMS, start, steps)
}
