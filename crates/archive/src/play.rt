// Plays an archive into a space of values.
ghost use Rattle.std.specs.Prelude.{◌≡◌, ◌+◌, ◌*◌, ◌<◌, ◌≤◌, length, OnOk};
ghost use Rattle.archive.specs.Values.{read_values, stated_values};
ghost use Rattle.archive.specs.Rule.{read_archive};
ghost use Rattle.archive.specs.Played.{value_entered, values_after, block_played, blocks_played, play_answer, play_leaves};

use crate::directory::number_at;
use crate::fault::Fault;
use crate::inspect::checked;
use crate::names::record_at;
use crate::rows::{form, rows};
use crate::values::value;
use crate::whole::Archive;
use kinds::stamp::Stamp;
use kinds::value::Record;
use model::tables::store;

// Reads the opening values into a space for them, each by its place, which a fault names.
fn load<R: Record>(bytes: &[u8], at: usize, space: &mut [R]) -> Result<(), Fault>
    requires { at + 12 * length space.old ≤ length bytes.now }
    ensures answer { result ≡ read_values R.Record.kind.form bytes.now at 12 (length space.old) }
    ensures filled { OnOk result (space.new ≡ stated_values R.Record.kind.form bytes.now at 12 (length space.old)) }
{
    for (i, place) in space.iter_mut().enumerate() {
        *place = value(bytes, at + 12 * i)?;
    }
    Ok(())
}

// Enters the value of a put at its record.
fn enter_put<R: Record>(put: &[u8; 14], space: &mut [R])
    ensures { space.new ≡ value_entered R.Record.kind.form space.old put.now }
{
    if let Ok(v) = value(put, 2) {
        store(space, usize::from(record_at(put, 0)), v);
    }
}

// Enters so many puts, from a place on.
#[inline(always)]
fn enter_puts<R: Record>(bytes: &[u8], first: usize, space: &mut [R], count: usize)
    requires { first + 14 * count ≤ length bytes.now }
    ensures { space.new ≡ values_after R.Record.kind.form bytes.now first space.old count }
{
    for put in rows::<14>(bytes, first, count) {
        enter_put(put, space);
    }
}

// Enters the puts of the block at a place, if it is whole.
fn enter_block<R: Record>(bytes: &[u8], at: usize, space: &mut [R])
    requires { at < 100000000000000 }
    ensures { space.new ≡ block_played R.Record.kind.form bytes.now at space.old }
{
    if at + 16 > bytes.len() {
        return;
    }
    let [looks, puts] = form::<2>(bytes, at + 12);
    let looks = usize::from(looks);
    let puts = usize::from(puts);
    if at + (16 + 22 * looks + 14 * puts) <= bytes.len() {
        enter_puts(bytes, at + 16 + 22 * looks, space, puts);
    }
}

// Enters the puts of the first blocks of an archive, so many of them.
fn enter_blocks<R: Record>(archive: &Archive<'_>, space: &mut [R], jobs: usize)
    requires { jobs ≤ archive.now.stated.jobs }
    ensures { space.new ≡ blocks_played R.Record.kind.form archive.now.bytes.now 20 (20 + 8 * archive.now.stated.jobs + 12 * archive.now.stated.records) space.old jobs }
{
    let mut from = archive.first();
    for pair in rows::<8>(archive.bytes, 20, jobs) {
        enter_block(archive.bytes, from, space);
        from += number_at(pair, 4);
    }
}

// Reads an archive and leaves in a space the values that stand after its first jobs, so many of them. The
// archive is checked as inspect does it, but for the play; the space has as many values as the archive has
// records. At a fault the space stays as it was.
pub fn play<S: Stamp, R: Record>(bytes: &[u8], jobs: usize, space: &mut [R]) -> Result<(), Fault>
    ensures answer { result ≡ play_answer (read_archive S.Stamp.kind.order R.Record.kind bytes.now) (length space.old) jobs }
    ensures leaves { space.new ≡ play_leaves R.Record.kind.form bytes.now (read_archive S.Stamp.kind.order R.Record.kind bytes.now) space.old jobs }
{
    let archive = checked::<S, R>(bytes)?;
    if space.len() != archive.stated.records || jobs > archive.stated.jobs {
        return Err(Fault::SpaceWrong);
    }
    load(bytes, archive.start(), space)?;
    enter_blocks(&archive, space, jobs);
    Ok(())
}
