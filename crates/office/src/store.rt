// The tables of a registrar, as its office owns them.
ghost use Rattle.std.specs.Prelude.{◌≡◌, ◌*◌, IfOk, replicate};
ghost use Rattle.registrar.specs.Calls.{registry_in, no_numbers};
ghost use Rattle.law.specs.HandOver.{registry_in_books};
ghost use Rattle.office.specs.Store.{registry_kept, no_tables, blank_entry, unfounded_row, free_outcome, free_submission, free_head, lines_for};

use kinds::stamp::Stamp;
use law::handover::Books;
use model::entry::Entry;
use model::row::Row;
use model::verdict::{Outcome, Verdict};
use registrar::bundle::Tables;
use registrar::journal::Head;
use registrar::queue::Submission;
use registrar::registrar::Registrar;
use std::alloc::{AllocError, Global};

// The eight tables of a registrar, beside one another as its calls are handed them.
#[derive(Drop)]
pub struct Store<S: Copy, R: Copy> {
    pub rows: Vec<Row<S, R>>,
    pub firsts: Vec<Option<S>>,
    pub opening: Vec<R>,
    pub queue: Vec<Submission<S>>,
    pub queued: Vec<Entry<S, R>>,
    pub outcomes: Vec<Outcome<S>>,
    pub heads: Vec<Head<S>>,
    pub lines: Vec<Entry<S, R>>,
}

// A table of this many places with the same content. `vec!` clones, and of the clones of a value that is
// only known to be `Copy` no contract says that they equal it.
pub fn places<T: Copy>(heap: Global, content: T, count: usize) -> Result<Vec<T>, AllocError>
    ensures { IfOk result (λ table. table.items ≡ replicate count content) }
{
    let mut table = Vec::new(heap);
    table.resize(count, content)?;
    Ok(table)
}

// An entry that stands in the free places of sheets, queue and journal.
pub fn blank<S: Stamp, R: Copy>(value: R) -> Entry<S, R>
    ensures { result ≡ blank_entry S.Stamp.kind.order value }
{
    Entry {
        number: 0,
        noted: S::least(),
        saw: value,
        wrote: value,
        seen: false,
        put: false,
        opened: false,
    }
}

// A free place of a table of outcomes.
pub fn no_outcome<S>() -> Outcome<S>
    ensures { result ≡ free_outcome }
{
    Outcome {
        ticket: 0,
        verdict: Verdict::NoPlace,
    }
}

// A row of this value, not founded yet.
fn unfounded<S: Stamp, R: Copy>(value: R) -> Row<S, R>
    ensures { result ≡ unfounded_row S.Stamp.kind.order value }
{
    let least = S::least();
    Row {
        value,
        read: least,
        count: 1,
        one: least,
        two: least,
        three: least,
        four: least,
    }
}

// A free place of the queue.
fn no_submission<S: Stamp>() -> Submission<S>
    ensures { result ≡ free_submission S.Stamp.kind.order }
{
    Submission {
        ticket: 0,
        lower: S::least(),
        upper: None,
        count: 0,
    }
}

// A free place of the journal.
fn no_job<S: Stamp>() -> Head<S>
    ensures { result ≡ free_head S.Stamp.kind.order }
{
    Head {
        stamp: S::least(),
        ticket: 0,
        place: 0,
        count: 0,
    }
}

impl<S: Stamp, R: Copy> Store<S, R> {
    // Tables for a register of so many records, with a journal of so many places. A value fills the places
    // in which a value stands before the founding.
    pub fn new(
        heap: Global,
        value: R,
        records: usize,
        journal: usize,
    ) -> Result<Store<S, R>, AllocError>
        ensures rows { IfOk result (λ s. s.rows.items ≡ replicate records (unfounded_row S.Stamp.kind.order value)) }
        ensures firsts { IfOk result (λ s. s.firsts.items ≡ replicate records None) }
        ensures opening { IfOk result (λ s. s.opening.items ≡ replicate records value) }
        ensures queue { IfOk result (λ s. s.queue.items ≡ replicate 16 (free_submission S.Stamp.kind.order)) }
        ensures queued { IfOk result (λ s. s.queued.items ≡ replicate 256 (blank_entry S.Stamp.kind.order value)) }
        ensures outcomes { IfOk result (λ s. s.outcomes.items ≡ replicate 32 free_outcome) }
        ensures heads { IfOk result (λ s. s.heads.items ≡ replicate journal (free_head S.Stamp.kind.order)) }
        ensures lines { IfOk result (λ s. s.lines.items ≡ replicate (lines_for journal) (blank_entry S.Stamp.kind.order value)) }
    {
        Ok(Store {
            rows: places(heap, unfounded(value), records)?,
            firsts: places(heap, None, records)?,
            opening: places(heap, value, records)?,
            queue: places(heap, no_submission(), 16)?,
            queued: places(heap, blank(value), 256)?,
            outcomes: places(heap, no_outcome(), 32)?,
            heads: places(heap, no_job(), journal)?,
            lines: places(heap, blank(value), journal.saturating_mul(16))?,
        })
    }

    // The tables of no register: a founding without a value is handed these.
    pub fn empty(heap: Global) -> Store<S, R>
        ensures { registry_kept no_numbers result ≡ no_tables }
    {
        Store {
            rows: Vec::new(heap),
            firsts: Vec::new(heap),
            opening: Vec::new(heap),
            queue: Vec::new(heap),
            queued: Vec::new(heap),
            outcomes: Vec::new(heap),
            heads: Vec::new(heap),
            lines: Vec::new(heap),
        }
    }

    // The tables, lent to a call. What the call leaves in them no clause can say: a clause on a loan names
    // one `&mut` or two, and these are eight.
    pub fn lend(&mut self) -> Tables<'_, S, R>
        ensures { registry_in no_numbers result ≡ registry_kept no_numbers self.old }
    {
        Tables {
            rows: &mut self.rows,
            firsts: &mut self.firsts,
            opening: &mut self.opening,
            queue: &mut self.queue,
            queued: &mut self.queued,
            outcomes: &mut self.outcomes,
            heads: &mut self.heads,
            lines: &mut self.lines,
        }
    }

    // The tables as the books of their registrar, only to be read.
    pub fn books<'a>(&'a self, registrar: &'a Registrar) -> Books<'a, S, R>
        ensures { registry_in_books result ≡ registry_kept registrar.now self.now }
    {
        Books {
            registrar,
            rows: &self.rows,
            firsts: &self.firsts,
            opening: &self.opening,
            queue: &self.queue,
            queued: &self.queued,
            outcomes: &self.outcomes,
            heads: &self.heads,
            lines: &self.lines,
        }
    }
}
