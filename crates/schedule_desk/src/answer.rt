// What a call answers, as it is printed behind the colon.
ghost use Rattle.std.specs.Prelude.{Some};
ghost use Rattle.schedule_desk.specs.Answers.{verdict_text, outcome_text, standing_word, answer_text, said_text};

use model::refusal::Refusal;
use model::verdict::{Outcome, Verdict};
use notation::text::{Notation, Shown};
use station::job::Standing;
use std::fmt;

// The answer of a call that was not refused.
#[derive(Clone, Copy)]
pub enum Answer<S, R> {
    Records(usize),
    Image(u32),
    Stands(Standing),
    Value(R),
    Done,
    Ticket(u32),
    Decided(Outcome<S>),
    Settled(Verdict<S>),
}

// A verdict in words.
#[derive(Clone, Copy)]
pub struct ShownVerdict<S>(pub Verdict<S>);

impl<S: Notation> fmt::Display for ShownVerdict<S> {
    ghost output = { λ x. Some (verdict_text S.Notation.notes x.0) };

    fn fmt<W: fmt::Write>(&self, f: &mut fmt::Formatter<W>) -> fmt::Result {
        match self.0 {
            Verdict::Accepted { stamp } => {
                let stamp = Shown(stamp);
                write!(f, "accepted {stamp}")
            }
            Verdict::Overtaken => write!(f, "overtaken"),
            Verdict::Gone => write!(f, "gone"),
            Verdict::NoPlace => write!(f, "no place"),
        }
    }
}

// An outcome in words.
#[derive(Clone, Copy)]
pub struct ShownOutcome<S>(pub Outcome<S>);

impl<S: Notation> fmt::Display for ShownOutcome<S> {
    ghost output = { λ x. Some (outcome_text S.Notation.notes x.0) };

    fn fmt<W: fmt::Write>(&self, f: &mut fmt::Formatter<W>) -> fmt::Result {
        let ticket = self.0.ticket;
        let verdict = ShownVerdict(self.0.verdict);
        write!(f, "ticket {ticket} {verdict}")
    }
}

// A standing in words.
#[derive(Clone, Copy)]
pub struct ShownStanding(pub Standing);

impl fmt::Display for ShownStanding {
    ghost output = { λ x. Some (standing_word x.0) };

    fn fmt<W: fmt::Write>(&self, f: &mut fmt::Formatter<W>) -> fmt::Result {
        match self.0 {
            Standing::Live => write!(f, "live"),
            Standing::Shut => write!(f, "shut"),
        }
    }
}

impl<S: Notation, R: Notation> fmt::Display for Answer<S, R> {
    ghost output = { λ x. Some (answer_text S.Notation.notes R.Notation.notes x) };

    fn fmt<W: fmt::Write>(&self, f: &mut fmt::Formatter<W>) -> fmt::Result {
        match self {
            Answer::Records(records) => write!(f, "{records} records"),
            Answer::Image(number) => write!(f, "image {number}"),
            Answer::Stands(standing) => {
                let standing = ShownStanding(*standing);
                write!(f, "{standing}")
            }
            Answer::Value(value) => value.show(f),
            Answer::Done => write!(f, "done"),
            Answer::Ticket(number) => write!(f, "ticket {number}"),
            Answer::Decided(outcome) => {
                let outcome = ShownOutcome(*outcome);
                write!(f, "{outcome}")
            }
            Answer::Settled(verdict) => {
                let verdict = ShownVerdict(*verdict);
                write!(f, "{verdict}")
            }
        }
    }
}

// What is said of a call: its answer, or the number of its refusal.
#[derive(Clone, Copy)]
pub struct Said<S, R>(pub Result<Answer<S, R>, Refusal>);

impl<S: Notation, R: Notation> fmt::Display for Said<S, R> {
    ghost output = { λ x. Some (said_text S.Notation.notes R.Notation.notes x.0) };

    fn fmt<W: fmt::Write>(&self, f: &mut fmt::Formatter<W>) -> fmt::Result {
        match self.0 {
            Ok(answer) => write!(f, "{answer}"),
            Err(refusal) => write!(f, "{refusal}"),
        }
    }
}
