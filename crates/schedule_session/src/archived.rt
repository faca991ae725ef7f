// The archive of the present journal, as a session prints it.
ghost use Rattle.std.specs.Prelude.{◌≡◌, Some};
ghost use Rattle.schedule_session.specs.Archived.{inspection_text};

use archive::fault::Fault as Wrong;
use archive::inspect::inspect;
use archive::play::play;
use kinds::stamp::Stamp;
use kinds::value::Record;
use notation::hex::Hex;
use notation::text::{Notation, Shown};
use office::store::places;
use schedule_calls::command::Archived;
use schedule_calls::reason::Fault;
use schedule_desk::desk::Desk;
use schedule_desk::log::Log;
use std::alloc::AllocError;
use std::fmt;
use std::fmt::Write;
use writer::unwritten::Unwritten;
use writer::write::{size, write};

// The bytes that stand on one line.
const LINE: usize = 32;

// The bytes of an archive in hexadecimal digits.
#[derive(Clone, Copy)]
struct ShownBytes<'a>(&'a [u8]);

impl fmt::Display for ShownBytes<'_> {
    fn fmt<W: fmt::Write>(&self, f: &mut fmt::Formatter<W>) -> fmt::Result {
        for line in self.0.chunks(LINE) {
            let line = Hex(line);
            writeln!(f, "  {line}")?;
        }
        Ok(())
    }
}

// What inspect answers: the number of jobs, or a fault with its number and its place.
#[derive(Clone, Copy)]
struct ShownInspection(Result<usize, Wrong>);

impl fmt::Display for ShownInspection {
    ghost output = { λ x. Some (inspection_text x.0) };

    fn fmt<W: fmt::Write>(&self, f: &mut fmt::Formatter<W>) -> fmt::Result {
        match self.0 {
            Ok(jobs) => write!(f, "sound {jobs}"),
            Err(fault) => {
                let number = u8::from(fault);
                match fault.place() {
                    Some(place) => write!(f, "fault {number} {place}"),
                    None => write!(f, "fault {number}"),
                }
            }
        }
    }
}

// Values by their records.
#[derive(Clone, Copy)]
struct ShownValues<'a, R>(&'a [R]);

impl<R: Notation> fmt::Display for ShownValues<'_, R> {
    fn fmt<W: fmt::Write>(&self, f: &mut fmt::Formatter<W>) -> fmt::Result {
        for (record, value) in self.0.iter().enumerate() {
            let value = Shown(*value);
            writeln!(f, "  {record}: {value}")?;
        }
        Ok(())
    }
}

// What is said of the archive of a desk's journal.
#[derive(Drop)]
enum Answered<R: Copy> {
    Bytes(Vec<u8>),
    Inspection(Result<usize, Wrong>),
    Values(Vec<R>),
}

impl<R: Notation> fmt::Display for Answered<R> {
    fn fmt<W: fmt::Write>(&self, f: &mut fmt::Formatter<W>) -> fmt::Result {
        match self {
            Answered::Bytes(bytes) => {
                let count = bytes.len();
                let lines = ShownBytes(bytes);
                write!(f, "{count} bytes\n{lines}")
            }
            Answered::Inspection(inspection) => {
                let inspection = ShownInspection(*inspection);
                writeln!(f, "{inspection}")
            }
            Answered::Values(values) => {
                let count = values.len();
                let lines = ShownValues(values);
                write!(f, "{count} values\n{lines}")
            }
        }
    }
}

// Why nothing is said: the writer refuses, or play does, or no memory is left.
#[derive(Drop)]
enum Unsaid {
    Unwritten(Unwritten),
    Unplayed(Wrong),
    Memory,
}

impl From<Unwritten> for Unsaid {
    fn from(unwritten: Unwritten) -> Unsaid {
        Unsaid::Unwritten(unwritten)
    }
}

impl From<Wrong> for Unsaid {
    fn from(wrong: Wrong) -> Unsaid {
        Unsaid::Unplayed(wrong)
    }
}

impl From<AllocError> for Unsaid {
    fn from(_e: AllocError) -> Unsaid {
        Unsaid::Memory
    }
}

// The archive of a desk's journal.
fn archive_of<S: Stamp, R: Record>(desk: &Desk<S, R>) -> Result<Vec<u8>, Unsaid> {
    let books = desk.store.books(&desk.registrar);
    let mut archive = places(desk.heap, 0, size(books)?)?;
    write(books, &mut archive)?;
    Ok(archive)
}

// The values after the first jobs, so many of them.
fn values_after<S: Stamp, R: Record>(
    desk: &Desk<S, R>,
    archive: &[u8],
    jobs: usize,
) -> Result<Vec<R>, Unsaid> {
    let mut values = places(desk.heap, desk.blank.wrote, desk.store.opening.len())?;
    play::<S, R>(archive, jobs, &mut values)?;
    Ok(values)
}

// What is said of the archive at a command.
fn answer<S: Stamp, R: Record>(
    desk: &Desk<S, R>,
    command: &Archived<'_>,
) -> Result<Answered<R>, Unsaid> {
    let archive = archive_of(desk)?;
    Ok(match command {
        Archived::Bytes => Answered::Bytes(archive),
        Archived::Inspected => Answered::Inspection(inspect::<S, R>(&archive)),
        Archived::Played { jobs } => Answered::Values(values_after(desk, &archive, jobs.value())?),
    })
}

// Prints what is said of the archive of a desk's journal. None of these commands counts as a call.
pub(crate) fn show_archived<S: Stamp, R: Record + Notation>(
    log: &mut Log,
    desk: &Desk<S, R>,
    command: &Archived<'_>,
) -> Result<(), Fault>
    ensures { log.new.tally ≡ log.old.tally }
{
    match answer(desk, command) {
        Ok(answered) => write!(log.text, "{command}: {answered}")?,
        Err(Unsaid::Unwritten(refused)) => writeln!(log.text, "{command}: {refused}")?,
        Err(Unsaid::Unplayed(fault)) => {
            let number = u8::from(fault);
            writeln!(log.text, "{command}: refused {number}")?;
        }
        Err(Unsaid::Memory) => return Err(Fault::Memory),
    }
    Ok(())
}
