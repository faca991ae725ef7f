// The commands on a register.
ghost use Rattle.std.specs.Prelude.{Some};
ghost use Rattle.schedule_calls.specs.Calls.{call_text, archived_text};

use crate::numbers::Number;
use std::fmt;

// A call of the library, whose words are the line's. Images are named by number; a look or a put without one is given the image at
// which its job stands.
#[derive(Clone, Copy)]
pub enum Call<'a, R> {
    Publish,
    Open {
        name: &'a str,
        image: usize,
    },
    Look {
        name: &'a str,
        record: Number<'a>,
        at: Option<usize>,
    },
    Put {
        name: &'a str,
        record: Number<'a>,
        value: R,
        at: Option<usize>,
    },
    Tune {
        name: &'a str,
        image: usize,
    },
    Submit {
        name: &'a str,
    },
    Decide,
    Settle {
        name: &'a str,
        image: usize,
    },
    Waive {
        name: &'a str,
    },
}

// What a command shows of the state.
#[derive(Clone, Copy)]
pub enum View<'a> {
    Row { record: usize },
    Job { name: &'a str },
    Journal,
    Image { number: usize },
}

// What a command shows of the archive of the present journal: its bytes, what inspect says of them, or the values
// after the first jobs, so many of them.
#[derive(Clone, Copy)]
pub enum Archived<'a> {
    Bytes,
    Inspected,
    Played { jobs: Number<'a> },
}

// One command: a call, a job that is let go, or a state or an archive to be shown.
#[derive(Clone, Copy)]
pub enum Command<'a, R> {
    Make(Call<'a, R>),
    LetGo { name: &'a str },
    Show(View<'a>),
    Keep(Archived<'a>),
}

// A call as its answer names it.
impl<R> fmt::Display for Call<'_, R> {
    ghost output = { λ x. Some (call_text x) };

    fn fmt<W: fmt::Write>(&self, f: &mut fmt::Formatter<W>) -> fmt::Result {
        match self {
            Call::Publish => write!(f, "publish"),
            Call::Open { name, image: _ } => write!(f, "open {name}"),
            Call::Look {
                name,
                record,
                at: _,
            } => write!(f, "look {name} {record}"),
            Call::Put {
                name,
                record,
                value: _,
                at: _,
            } => write!(f, "put {name} {record}"),
            Call::Tune { name, image: _ } => write!(f, "tune {name}"),
            Call::Submit { name } => write!(f, "submit {name}"),
            Call::Decide => write!(f, "decide"),
            Call::Settle { name, image: _ } => write!(f, "settle {name}"),
            Call::Waive { name } => write!(f, "waive {name}"),
        }
    }
}

// A command on the archive as its answer names it.
impl fmt::Display for Archived<'_> {
    ghost output = { λ x. Some (archived_text x) };

    fn fmt<W: fmt::Write>(&self, f: &mut fmt::Formatter<W>) -> fmt::Result {
        match self {
            Archived::Bytes => write!(f, "archive"),
            Archived::Inspected => write!(f, "inspect"),
            Archived::Played { jobs } => write!(f, "play {jobs}"),
        }
    }
}
