// What an inspection finds, and how it is told.
ghost use Rattle.std.specs.Prelude.{◌≡◌, Some};
ghost use Rattle.inspection.specs.Findings.{finding_text, found};

use crate::by_kinds::inspect_by_kinds;
use archive::fault::Fault;
use std::fmt;

// The most bytes that are inspected.
pub const LIMIT: usize = 65536;

// A sound archive with its number of jobs, the first fault of another, or more bytes than are inspected.
#[derive(Clone, Copy, Debug, PartialEq, Eq)]
pub enum Finding {
    Sound { jobs: usize },
    Faulty { fault: Fault },
    TooLong,
}

// `sound` and the number of jobs; `fault`, its number and its place; or `too long`.
impl fmt::Display for Finding {
    ghost output = { λ x. Some (finding_text x) };

    fn fmt<W: fmt::Write>(&self, f: &mut fmt::Formatter<W>) -> fmt::Result {
        match *self {
            Finding::Sound { jobs } => write!(f, "sound {jobs}"),
            Finding::Faulty { fault } => {
                let number = u8::from(fault);
                match fault.place() {
                    Some(place) => write!(f, "fault {number} {place}"),
                    None => write!(f, "fault {number}"),
                }
            }
            Finding::TooLong => f.write_str("too long"),
        }
    }
}

// What is found in some bytes.
pub fn find(bytes: &[u8]) -> Finding
    ensures { result ≡ found bytes.now }
{
    if bytes.len() > LIMIT {
        return Finding::TooLong;
    }
    match inspect_by_kinds(bytes) {
        Ok(jobs) => Finding::Sound { jobs },
        Err(fault) => Finding::Faulty { fault },
    }
}
