// Inspects an archive.
ghost use Rattle.std.specs.Prelude.{◌≡◌, ◌+◌, ◌*◌, ◌≤◌, length, IfOk, Ok};
ghost use Rattle.archive.specs.Values.{read_values};
ghost use Rattle.archive.specs.Journal.{archive_bytes, stated_opening, stated_journal};
ghost use Rattle.archive.specs.Rule.{headed, read_archive, inspected};

use crate::blocks::blocks;
use crate::directory::directory;
use crate::fault::Fault;
use crate::heading::read_heading;
use crate::replay::replay;
use crate::values::values;
use crate::whole::Archive;
use kinds::stamp::Stamp;
use kinds::value::Record;

// Checks all but the play: heading, directory, opening values and blocks.
pub fn checked<S: Stamp, R: Record>(bytes: &[u8]) -> Result<Archive<'_>, Fault>
    ensures answer { headed result ≡ read_archive S.Stamp.kind.order R.Record.kind bytes.now }
    ensures bytes { IfOk result (λ a. a.bytes.now ≡ bytes.now) }
    ensures opening { IfOk result (λ a. read_values R.Record.kind.form bytes.now (20 + 8 * a.stated.jobs) 12 a.stated.records ≡ Ok tt) }
{
    let stated = read_heading::<S, R>(bytes)?;
    let archive = directory(bytes, stated)?;
    values::<R>(bytes, archive.start(), 12, stated.records)?;
    let _ = blocks::<S, R>(&archive)?;
    Ok(archive)
}

// The first fault, or the number of jobs. What else inspect promises follows from this.
fn examine<S: Stamp, R: Record>(bytes: &[u8]) -> Result<usize, Fault>
    ensures { result ≡ inspected S.Stamp.kind.order R.Record.kind bytes.now }
{
    let archive = checked::<S, R>(bytes)?;
    replay::<S>(&archive)?;
    Ok(archive.stated.jobs)
}

// The number of jobs of an archive, or its first fault: heading, directory, opening values, blocks, and
// then the play, in which every look must show what stands at its record.
// An archive that is accepted is, byte for byte, what is written for the opening values and the jobs that it states.
pub fn inspect<S: Stamp, R: Record>(bytes: &[u8]) -> Result<usize, Fault>
    ensures answer { result ≡ inspected S.Stamp.kind.order R.Record.kind bytes.now }
    ensures one_form { IfOk result (λ j. (bytes.now ≡ archive_bytes S.Stamp.kind.order R.Record.kind (stated_opening S.Stamp.kind.order R.Record.kind bytes.now) (stated_journal S.Stamp.kind.order R.Record.kind bytes.now)) × (length (stated_journal S.Stamp.kind.order R.Record.kind bytes.now) ≡ j)) }
{
    examine::<S, R>(bytes)
}
