// The printout, and what it counts.
ghost use Rattle.std.specs.Prelude.{◌≡◌, ◌++◌, [], is_err, string_bytes, codes, OnOk, Some};
ghost use Rattle.schedule_calls.specs.Calls.{call_text};
ghost use Rattle.schedule_desk.specs.Answers.{answer_line, last_line, tallied};

use crate::answer::{Answer, Said};
use model::refusal::Refusal;
use notation::text::Notation;
use schedule_calls::command::Call;
use schedule_calls::reason::{Fault, Reason};
use std::alloc::Global;
use std::fmt;
use std::fmt::Write;

// How many calls a run made, and how many of them were refused.
#[derive(Clone, Copy)]
pub struct Tally {
    pub calls: usize,
    pub refused: usize,
}

impl Tally {
    // Counts a call by what is said of it.
    fn count<T>(&mut self, said: &Result<T, Refusal>)
        ensures { self.new ≡ tallied (is_err said.now) self.old }
    {
        self.calls = self.calls.saturating_add(1);
        if said.is_err() {
            self.refused = self.refused.saturating_add(1);
        }
    }
}

// What a run has printed so far, and its tally.
#[derive(Drop)]
pub struct Log {
    pub text: String,
    pub tally: Tally,
}

impl Log {
    // A printout of nothing, in which no call is counted.
    pub fn new(heap: Global) -> Log
        ensures text { string_bytes result.text ≡ [] }
        ensures tally { result.tally ≡ record { calls = 0; refused = 0 } }
    {
        Log {
            text: String::new(heap),
            tally: Tally {
                calls: 0,
                refused: 0,
            },
        }
    }

    // The words of a call, and what is said of it.
    fn said<C: fmt::Display, S: Notation, R: Notation>(
        &mut self,
        call: &C,
        said: Result<Answer<S, R>, Refusal>,
    ) -> Result<(), Fault>
        ensures text { (words : _) → C.Display.output call.now ≡ Some words → OnOk result (string_bytes self.new.text ≡ string_bytes self.old.text ++ answer_line S.Notation.notes R.Notation.notes words said) }
        ensures tally { OnOk result (self.new.tally ≡ tallied (is_err said) self.old.tally) }
    {
        self.tally.count(&said);
        let said = Said(said);
        writeln!(self.text, "{call}: {said}")?;
        Ok(())
    }

    // The founding and its answer.
    pub fn founded<S: Notation, R: Notation>(
        &mut self,
        said: Result<Answer<S, R>, Refusal>,
    ) -> Result<(), Fault>
        ensures text { OnOk result (string_bytes self.new.text ≡ string_bytes self.old.text ++ answer_line S.Notation.notes R.Notation.notes (codes "found") said) }
        ensures tally { OnOk result (self.new.tally ≡ tallied (is_err said) self.old.tally) }
    {
        self.said(&"found", said)
    }

    // A call and its answer.
    pub fn answered<S: Notation, R: Notation>(
        &mut self,
        call: &Call<'_, R>,
        said: Result<Answer<S, R>, Refusal>,
    ) -> Result<(), Fault>
        ensures text { OnOk result (string_bytes self.new.text ≡ string_bytes self.old.text ++ answer_line S.Notation.notes R.Notation.notes (call_text call.now) said) }
        ensures tally { OnOk result (self.new.tally ≡ tallied (is_err said) self.old.tally) }
    {
        self.said(call, said)
    }

    // The line that says why a line is no call. It counts none.
    pub fn no_call(&mut self, line: usize, reason: &Reason) -> Result<(), Fault>
        ensures { self.new.tally ≡ self.old.tally }
    {
        writeln!(self.text, "line {line}: {reason}")?;
        Ok(())
    }

    // The last line: the calls, and the jobs in the journal.
    pub fn ended(&mut self, jobs: usize) -> Result<(), Fault>
        ensures { OnOk result (string_bytes self.new.text ≡ string_bytes self.old.text ++ last_line self.old.tally jobs) }
    {
        let Tally { calls, refused } = self.tally;
        writeln!(
            self.text,
            "run: {calls} calls, {refused} refused, {jobs} jobs in the journal"
        )?;
        Ok(())
    }
}
