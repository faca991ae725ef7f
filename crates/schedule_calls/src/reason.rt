// Why a line is no call.
ghost use Rattle.std.specs.Prelude.{◌≡◌, Some};
ghost use Rattle.schedule_calls.specs.Forms.{form_text};
ghost use Rattle.schedule_calls.specs.declared.reason.Reason.TheVariants.{OnKinds};
ghost use Rattle.schedule_calls.specs.declared.reason.Fault.TheVariants.{NoCall, Memory};

use schedule_text::reason::Reason as KindsReason;
use std::alloc::{AllocError, AllocFailed};
use std::fmt;
use thiserror::Error;

// What was expected where the line has something else.
#[derive(Debug, Drop, Error)]
pub enum Reason {
    #[error(transparent)]
    OnKinds(KindsReason),
    #[error("expected a command; an empty input prints them all")]
    Command,
    #[error("expected {0}")]
    Words(Form),
    #[error("expected the stamp kind whole or page")]
    StampKind,
    #[error("expected the record kind card or item")]
    RecordKind,
    #[error("expected a number")]
    Number,
    #[error("expected a name of letters and digits")]
    Name,
    #[error("expected a value of the register's record kind")]
    Value,
    #[error("expected found first")]
    NotFounded,
    #[error("found was refused, so there is no register")]
    FoundRefused,
    #[error("found stands once")]
    FoundTwice,
    #[error("no job of this name: {0}")]
    NoJob(String),
    #[error("no ticket of this name: {0}")]
    NoTicket(String),
    #[error("a job or ticket of this name stands: {0}")]
    Standing(String),
    #[error("no image of this number was published")]
    NoImage,
    #[error("no record of this number")]
    NoRecord,
}

// The forms that the words of a command have.
#[derive(Clone, Copy, Debug)]
pub enum Form {
    Found,
    Publish,
    Open,
    Look,
    Put,
    Tune,
    Submit,
    Decide,
    Settle,
    Waive,
    LetGo,
    Row,
    Job,
    Journal,
    Image,
    Archive,
    Inspect,
    Play,
}

impl fmt::Display for Form {
    ghost output = { λ x. Some (form_text x) };

    fn fmt<W: fmt::Write>(&self, f: &mut fmt::Formatter<W>) -> fmt::Result {
        f.write_str(match self {
            Form::Found => "found STAMPKIND RECORDKIND PLACES VALUE ...",
            Form::Publish => "publish",
            Form::Open => "open NAME IMAGE",
            Form::Look => "look NAME RECORD or look NAME RECORD at IMAGE",
            Form::Put => "put NAME RECORD VALUE or put NAME RECORD VALUE at IMAGE",
            Form::Tune => "tune NAME IMAGE",
            Form::Submit => "submit NAME",
            Form::Decide => "decide",
            Form::Settle => "settle NAME IMAGE",
            Form::Waive => "waive NAME",
            Form::LetGo => "drop NAME",
            Form::Row => "row RECORD",
            Form::Job => "job NAME",
            Form::Journal => "journal",
            Form::Image => "image IMAGE",
            Form::Archive => "archive",
            Form::Inspect => "inspect",
            Form::Play => "play M",
        })
    }
}

// Why a run ends before its last line: a line that is no call, or no memory is left.
#[derive(Drop)]
pub enum Fault {
    NoCall(Reason),
    Memory,
}

// A derived `From` has no contract, so these are written out.
impl From<Reason> for Fault {
    ghost from_gives = { λ reason fault. fault ≡ NoCall reason };

    fn from(reason: Reason) -> Fault {
        Fault::NoCall(reason)
    }
}

impl From<KindsReason> for Fault {
    ghost from_gives = { λ reason fault. fault ≡ NoCall (OnKinds reason) };

    fn from(reason: KindsReason) -> Fault {
        Fault::NoCall(Reason::OnKinds(reason))
    }
}

impl From<AllocError> for Fault {
    ghost from_gives = { λ _ fault. fault ≡ Memory };

    fn from(_e: AllocError) -> Fault {
        Fault::Memory
    }
}

impl<T: Drop> From<AllocFailed<T>> for Fault {
    ghost from_gives = { λ _ fault. fault ≡ Memory };

    fn from(_e: AllocFailed<T>) -> Fault {
        Fault::Memory
    }
}
