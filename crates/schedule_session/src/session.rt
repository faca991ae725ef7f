// A session: the printout so far, and the register of the schedule, by stamp kind and record kind.
use crate::archived::show_archived;
use kinds::card::Card;
use kinds::item::Item;
use kinds::stamp::Stamp;
use kinds::value::Record;
use kinds::volume::VolumePage;
use kinds::whole::Whole;
use model::refusal::Refusal;
use notation::text::Notation;
use schedule_calls::command::Command;
use schedule_calls::numbers::capped;
use schedule_calls::parse::{parse, parse_value};
use schedule_calls::reason::{Fault, Form, Reason};
use schedule_desk::answer::Answer;
use schedule_desk::desk::Desk;
use schedule_desk::failure::Failure;
use schedule_desk::log::Log;
use schedule_text::answer::answer;
use schedule_text::line::is_passed_over;
use schedule_text::parse::parse as parse_on_kinds;
use schedule_text::words::read_words;
use std::alloc::Global;
use std::fmt::Write;
use std::mem;

// The largest number of places that is handed on, so that its cast loses nothing.
const MOST_PLACES: u64 = 4097;

// A register with stamps of one kind, by its record kind.
enum Register<S: Copy> {
    Cards(Desk<S, Card>),
    Items(Desk<S, Item>),
}

// Where a session is: before its founding, after one that was refused, or at a register by its stamp kind.
enum State {
    Before,
    Refused,
    Whole(Register<Whole>),
    Page(Register<VolumePage>),
}

pub struct Session {
    heap: Global,
    log: Log,
    state: State,
}

// One line to a desk.
fn obey<S: Stamp + Notation, R: Record + Notation>(
    desk: &mut Desk<S, R>,
    log: &mut Log,
    words: &[&[u8]],
) -> Result<(), Fault> {
    let command = parse(words)?;
    match &command {
        Command::Make(call) => {
            // The closure of a `map_err` could not leave this function with `?`.
            let said = match desk.make(call) {
                Ok(answer) => Ok(answer),
                Err(failure) => Err(failure.refusal()?),
            };
            log.answered(call, said)
        }
        Command::LetGo { name } => {
            desk.let_go(name)?;
            writeln!(log.text, "drop {name}: done")?;
            Ok(())
        }
        Command::Show(view) => desk.show(log, view),
        Command::Keep(archived) => show_archived(log, desk, archived),
    }
}

impl<S: Stamp + Notation> Register<S> {
    // One line to a register.
    fn obey(&mut self, log: &mut Log, words: &[&[u8]]) -> Result<(), Fault> {
        match self {
            Register::Cards(desk) => obey(desk, log, words),
            Register::Items(desk) => obey(desk, log, words),
        }
    }

    // Ends the run of a register. Answers the number of jobs in its journal.
    fn close(self) -> usize {
        match self {
            Register::Cards(desk) => desk.close(),
            Register::Items(desk) => desk.close(),
        }
    }
}

impl State {
    // Ends the run. Answers the number of jobs in the journal, and none where no register was asked for.
    fn close(self) -> Option<usize> {
        match self {
            State::Before => None,
            State::Refused => Some(0),
            State::Whole(register) => Some(register.close()),
            State::Page(register) => Some(register.close()),
        }
    }
}

// Founding.
impl Session {
    // The opening values.
    fn values<R: Notation>(&self, words: &[&[u8]]) -> Result<Vec<R>, Fault> {
        words
            .iter()
            .map(|word| Ok(parse_value(word)?))
            .try_collect(self.heap)
    }

    // A desk with these opening values, and the line of its founding. A desk holds tickets, which cannot be
    // forgotten, so it is closed where the line finds no memory.
    fn desk<S: Stamp + Notation, R: Notation>(
        &mut self,
        journal: usize,
        values: &[&[u8]],
    ) -> Result<Desk<S, R>, Failure> {
        let values: Vec<R> = self.values(values)?;
        match Desk::new(self.heap, &values, journal) {
            Ok(desk) => {
                let answer: Answer<S, R> = Answer::Records(values.len());
                match self.log.founded(Ok(answer)) {
                    Ok(()) => Ok(desk),
                    Err(fault) => {
                        let _ = desk.close();
                        Err(fault.into())
                    }
                }
            }
            Err(failure) => {
                let refusal = failure.refusal()?;
                let said: Result<Answer<S, R>, Refusal> = Err(refusal);
                self.log.founded(said)?;
                Err(refusal.into())
            }
        }
    }

    // A register by its record kind.
    fn register<S: Stamp + Notation>(
        &mut self,
        records: &[u8],
        journal: usize,
        values: &[&[u8]],
    ) -> Result<Register<S>, Failure> {
        match records {
            b"card" => Ok(Register::Cards(self.desk(journal, values)?)),
            b"item" => Ok(Register::Items(self.desk(journal, values)?)),
            _ => Err(Reason::RecordKind.into()),
        }
    }

    // `found STAMPKIND RECORDKIND PLACES VALUE ...`, after its first word.
    fn founded(&mut self, words: &[&[u8]]) -> Result<State, Failure> {
        let [stamps, records, places, values @ ..] = words else {
            return Err(Reason::Words(Form::Found).into());
        };
        let journal = capped(places, MOST_PLACES)? as usize;
        match *stamps {
            b"whole" => Ok(State::Whole(self.register(records, journal, values)?)),
            b"page" => Ok(State::Page(self.register(records, journal, values)?)),
            _ => Err(Reason::StampKind.into()),
        }
    }

    // Founds the register, which is done once.
    fn found(&mut self, words: &[&[u8]]) -> Result<(), Fault> {
        if !matches!(self.state, State::Before) {
            return Err(Reason::FoundTwice.into());
        }
        let state = match self.founded(words) {
            Ok(state) => state,
            Err(failure) => {
                let _ = failure.refusal()?;
                State::Refused
            }
        };
        let _ = mem::replace(&mut self.state, state).close();
        Ok(())
    }
}

impl Session {
    // A session before its founding.
    pub fn new(heap: Global) -> Session {
        Session {
            heap,
            log: Log::new(heap),
            state: State::Before,
        }
    }

    // A command on kinds, which needs no register.
    fn answer_on_kinds(&mut self, words: &[&[u8]]) -> Result<(), Fault> {
        let command = parse_on_kinds(words)?;
        let said = answer(self.heap, command)?;
        self.log.text.push_str(&said)?;
        Ok(())
    }

    // A command on the register.
    fn obey(&mut self, words: &[&[u8]]) -> Result<(), Fault> {
        match &mut self.state {
            State::Before => Err(Reason::NotFounded.into()),
            State::Refused => Err(Reason::FoundRefused.into()),
            State::Whole(register) => register.obey(&mut self.log, words),
            State::Page(register) => register.obey(&mut self.log, words),
        }
    }

    // Carries out a line, unless it is passed over. Its words go to a list that serves every line.
    pub fn carry_out<'a>(
        &mut self,
        words: &mut Vec<&'a [u8]>,
        line: &'a [u8],
    ) -> Result<(), Fault> {
        read_words(words, line)?;
        if is_passed_over(words) {
            return Ok(());
        }
        match words.as_slice() {
            [b"pick" | b"form" | b"read", ..] => self.answer_on_kinds(words),
            [b"found", rest @ ..] => self.found(rest),
            _ => self.obey(words),
        }
    }

    // Ends the session. Answers the printout, and the number of jobs in the journal, which is none where
    // no register was asked for.
    pub fn close(self) -> (Log, Option<usize>) {
        let Session {
            heap: _,
            log,
            state,
        } = self;
        (log, state.close())
    }
}
