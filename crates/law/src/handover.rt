// Handing over a finished run.
ghost use Rattle.std.specs.Prelude.{◌≡◌};
ghost use Rattle.law.specs.HandOver.{registry_in_books, AccountedFor};

use kinds::stamp::Stamp;
use model::entry::Entry;
use model::row::Row;
use model::verdict::Outcome;
use registrar::journal::Head;
use registrar::queue::Submission;
use registrar::registrar::Registrar;

// The books of a finished run: the registrar with its eight tables, only to be read. A call's bundle of the
// same tables asks for leave to write, which is more than a reader of them has.
#[derive_where(Clone, Copy)]
pub struct Books<'a, S, R> {
    pub registrar: &'a Registrar,
    pub rows: &'a [Row<S, R>],
    pub firsts: &'a [Option<S>],
    pub opening: &'a [R],
    pub queue: &'a [Submission<S>],
    pub queued: &'a [Entry<S, R>],
    pub outcomes: &'a [Outcome<S>],
    pub heads: &'a [Head<S>],
    pub lines: &'a [Entry<S, R>],
}

impl<S: Stamp, R> Books<'_, S, R> {
    // The number of jobs in the journal that is handed over. Whichever calls led from a founding to these
    // books, the law of runs holds of them: every look is borne out in every serial order, the play ends at
    // these rows, and the journal is the accepted jobs in final order.
    pub fn hand_over(self) -> usize
        ensures jobs { result ≡ self.entry.registrar.now.jobs }
        ensures law { AccountedFor S.Stamp.kind (registry_in_books self.entry) }
    {
        self.registrar.jobs
    }
}
