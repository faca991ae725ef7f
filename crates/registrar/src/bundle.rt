// The tables of a registrar.
ghost use Rattle.std.specs.Prelude.{◌≡◌, true};
ghost use Rattle.registrar.specs.Registry.{tables_sized};
ghost use Rattle.registrar.specs.Calls.{registry_in, no_numbers, Lengths};

use crate::journal::Head;
use crate::queue::Submission;
use model::entry::Entry;
use model::row::Row;
use model::tables::lawful;
use model::verdict::Outcome;

// The tables that a call is handed: rows, first writes and opening values, one for each record; the
// queue with 16 entries for each submission; the outcomes; the journal's heads with 16 lines for each.
// The entries lie beside queue and heads, since no call allocates and the caller brings every table.
#[derive(Drop)]
pub struct Tables<'a, S, R> {
    pub rows: &'a mut [Row<S, R>],
    pub firsts: &'a mut [Option<S>],
    pub opening: &'a mut [R],
    pub queue: &'a mut [Submission<S>],
    pub queued: &'a mut [Entry<S, R>],
    pub outcomes: &'a mut [Outcome<S>],
    pub heads: &'a mut [Head<S>],
    pub lines: &'a mut [Entry<S, R>],
}

impl<S, R> Tables<'_, S, R> {
    // Whether every table has its length, for a register of this many records.
    pub(crate) fn fit(&self, records: usize) -> bool
        ensures told { result ≡ tables_sized records (registry_in no_numbers self.now) }
        ensures lengths { result ≡ true → Lengths records (registry_in no_numbers self.now) }
    {
        lawful(records)
            && self.rows.len() == records
            && self.firsts.len() == records
            && self.opening.len() == records
            && self.queue.len() == 16
            && self.queued.len() == 256
            && self.outcomes.len() == 32
            && (1..=4096).contains(&self.heads.len())
            && self.lines.len() == 16 * self.heads.len()
    }
}
