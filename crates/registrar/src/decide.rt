// Deciding on the oldest submission.
ghost use Rattle.std.specs.Prelude.{◌≡◌, Some, None};
ghost use Rattle.registrar.specs.Registry.{decide as decided_by};
ghost use Rattle.registrar.specs.Calls.{registry_left, registry_in, settled_as, by_stamp};

use crate::bundle::Tables;
use crate::journal::{head_of, record};
use crate::places::{block, lay};
use crate::registrar::Registrar;
use crate::rows::{enter_all, mark_all};
use crate::verdicts::verdict;
use kinds::stamp::Stamp;
use model::entry::beyond;
use model::refusal::Refusal;
use model::tables::{front, store};
use model::verdict::{Outcome, Verdict};

// The stamp of an accepted job. It stands apart since what a pattern in decide knows is lost where its branches
// join.
fn stamp_of<S: Copy>(verdict: Verdict<S>) -> Option<S>
    ensures { result ≡ by_stamp verdict None (λ s. Some s) }
{
    match verdict {
        Verdict::Accepted { stamp } => Some(stamp),
        Verdict::Overtaken | Verdict::Gone | Verdict::NoPlace => None,
    }
}

impl Registrar {
    // The verdict on the oldest submission, which leaves the queue; if it is accepted, it is carried out.
    pub fn decide<S: Stamp, R: Copy>(
        &mut self,
        tables: Tables<'_, S, R>,
    ) -> Result<Outcome<S>, Refusal>
        ensures { settled_as result (registry_left self.new tables.exit) ≡ decided_by S.Stamp.kind (registry_in self.old tables.entry) }
    {
        if !tables.fit(self.records) {
            return Err(Refusal::WrongTables);
        }
        if self.waiting == 0 {
            return Err(Refusal::NoneWaiting);
        }
        let Tables {
            rows,
            firsts,
            queue,
            queued,
            outcomes,
            heads,
            lines,
            ..
        } = tables;
        let place = self.oldest % 16;
        let submission = queue[place];
        let entries = front(block(queued, place), submission.count);
        if beyond(entries, self.records) {
            return Err(Refusal::NoSuchRecord);
        }
        if self.jobs >= heads.len() {
            return Err(Refusal::JournalFull);
        }
        if self.outcomes >= 32 {
            return Err(Refusal::OutcomesFull);
        }
        let ticket = submission.ticket;
        let verdict = verdict(rows, submission, entries);
        let outcome = Outcome { ticket, verdict };
        store(outcomes, self.outcomes, outcome);
        self.oldest = (place + 1) % 16;
        self.waiting = self.waiting.min(16) - 1;
        self.outcomes += 1;
        if let Some(stamp) = stamp_of(verdict) {
            enter_all(rows, entries, stamp);
            mark_all(firsts, entries, stamp);
            let head = head_of(stamp, ticket, self.jobs, entries.len());
            record(heads, self.jobs, head);
            lay(lines, 16 * self.jobs, entries);
            self.jobs += 1;
        }
        Ok(outcome)
    }
}
