// What a release run counts.
ghost use Rattle.std.specs.Prelude.{◌≡◌};
ghost use Rattle.release.specs.Counts.{one_more as next_after, more as sum_of, with_call, with_verdict, with_shut, with_archive};

use model::refusal::Refusal;
use model::verdict::Verdict;
use std::fmt;

// The counts. Calls are refused by thirteen numbers, the first of which is 1.
#[derive(Clone, Copy, Default)]
pub struct Tally {
    pub calls: u64,
    pub answered: u64,
    pub refused: [u64; 13],
    pub decided: u64,
    pub accepted: u64,
    pub overtaken: u64,
    pub gone: u64,
    pub no_place: u64,
    pub shut: u64,
    pub archives: u64,
    pub equal: u64,
    pub early: u64,
}

// The next number; the last stays.
pub(crate) fn one_more(count: u64) -> u64
    ensures { result ≡ next_after count }
{
    count.saturating_add(1)
}

impl Tally {
    // Counts a call by why it was refused, if it was.
    pub fn call(&mut self, refused: Option<Refusal>)
        ensures { self.new ≡ with_call self.old refused }
    {
        self.calls = one_more(self.calls);
        match refused {
            None => self.answered = one_more(self.answered),
            Some(refusal) => {
                let place = usize::from(u8::from(refusal)) - 1;
                self.refused[place] = one_more(self.refused[place]);
            }
        }
    }

    // Counts a verdict.
    pub fn verdict<S: Copy>(&mut self, verdict: Verdict<S>)
        ensures { self.new ≡ with_verdict self.old verdict }
    {
        self.decided = one_more(self.decided);
        match verdict {
            Verdict::Accepted { .. } => self.accepted = one_more(self.accepted),
            Verdict::Overtaken => self.overtaken = one_more(self.overtaken),
            Verdict::Gone => self.gone = one_more(self.gone),
            Verdict::NoPlace => self.no_place = one_more(self.no_place),
        }
    }

    // Counts a job that was shut.
    pub fn shut(&mut self)
        ensures { self.new ≡ with_shut self.old }
    {
        self.shut = one_more(self.shut);
    }

    // Counts an archive that plays to the register, with the pairs of equal stamps and the early jobs of its journal.
    pub fn archive(&mut self, equal: u64, early: u64)
        ensures { self.new ≡ with_archive self.old equal early }
    {
        self.archives = one_more(self.archives);
        self.equal = self.equal.saturating_add(equal);
        self.early = self.early.saturating_add(early);
    }
}

// Why calls are refused, in the order of the numbers.
const REASONS: [&str; 13] = [
    "wrong tables",
    "the job is shut",
    "not the job's image",
    "not the next image",
    "no such record",
    "the sheet is full",
    "no stamp between the bounds",
    "the queue is full",
    "none waits",
    "the journal is full",
    "the outcomes are full",
    "not in the image",
    "the count is at its end",
];

// One count to a line.
impl fmt::Display for Tally {
    fn fmt<W: fmt::Write>(&self, f: &mut fmt::Formatter<W>) -> fmt::Result {
        writeln!(f, "calls: {}", self.calls)?;
        writeln!(f, "answered: {}", self.answered)?;
        for (place, (reason, count)) in REASONS.iter().zip(&self.refused).enumerate() {
            let number = place + 1;
            writeln!(f, "refused {number}, {reason}: {count}")?;
        }
        writeln!(f, "decided: {}", self.decided)?;
        writeln!(f, "accepted: {}", self.accepted)?;
        writeln!(f, "overtaken: {}", self.overtaken)?;
        writeln!(f, "gone: {}", self.gone)?;
        writeln!(f, "no place: {}", self.no_place)?;
        writeln!(f, "shut by a tune: {}", self.shut)?;
        writeln!(
            f,
            "accepted with the stamp of the job before: {}",
            self.equal
        )?;
        writeln!(f, "accepted late, standing early: {}", self.early)?;
        writeln!(f, "archives that play to the register: {}", self.archives)
    }
}
