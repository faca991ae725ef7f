// The play of an archive over a table of what stands at each record.
ghost use Rattle.std.specs.Prelude.{◌≡◌, ◌+◌, ◌*◌, ◌<◌, ◌≤◌, ◌++◌, length};
ghost use Rattle.archive.specs.Blocks.{Whole};
ghost use Rattle.archive.specs.Laying.{laid_over};
ghost use Rattle.archive.specs.Play.{opening_table, look_borne, read_look, read_looks, entered, puts_after, by_answer, play_jobs};
ghost use Rattle.archive.specs.Rule.{read_play};

use crate::blocks::{Opened, front};
use crate::directory::number_at;
use crate::fault::Fault;
use crate::names::record_at;
use crate::rows::{form, rows};
use crate::whole::Archive;
use kinds::stamp::Stamp;

// Lays bytes over those of a table, from a place on.
fn lay(table: &mut [u8], at: usize, bytes: &[u8])
    requires { at + length bytes.now ≤ length table.old }
    ensures { table.new ≡ laid_over at bytes.now table.old }
{
    table[at..at + bytes.len()].copy_from_slice(bytes);
}

// Lays the row of a record: a stamp and a value.
fn lay_row(table: &mut [u8], x: usize, stamp: &[u8], value: &[u8])
    requires { 20 * x + length stamp.now + length value.now ≤ length table.old }
    ensures { table.new ≡ laid_over (20 * x) (stamp.now ++ value.now) table.old }
{
    lay(table, 20 * x, stamp);
    lay(table, 20 * x + stamp.len(), value);
}

// Fills the table: at each record the least stamp and the opening value.
fn open_table(archive: &Archive<'_>, least: &[u8], table: &mut [u8])
    requires { (length least.now ≡ 8) × (length table.old ≡ 20 * archive.now.stated.records) }
    ensures { table.new ≡ opening_table least.now archive.now.bytes.now (20 + 8 * archive.now.stated.jobs) archive.now.stated.records }
{
    for (i, value) in archive.opening().iter().enumerate() {
        lay_row(table, i, least, value);
    }
}

// Whether the look at a place shows what stands at its record.
fn is_borne(bytes: &[u8], here: usize, table: &[u8], x: usize) -> bool
    requires { (here + 22 ≤ length bytes.now) × (x < 65536) }
    ensures { result ≡ look_borne bytes.now here table.now x }
{
    20 * x + 20 <= table.len() && table[20 * x..20 * x + 20] == bytes[here + 2..here + 22]
}

// The look at a place: a fault unless it is borne out.
fn look(bytes: &[u8], here: usize, table: &[u8]) -> Result<(), Fault>
    requires { here + 22 ≤ length bytes.now }
    ensures { result ≡ read_look bytes.now here table.now }
{
    let x = usize::from(record_at(bytes, here));
    if is_borne(bytes, here, table, x) {
        Ok(())
    } else {
        Err(Fault::NotBorneOut { place: here })
    }
}

// The looks of a block, from a place on.
fn looks(bytes: &[u8], first: usize, table: &[u8], count: usize) -> Result<(), Fault>
    requires { first + 22 * count ≤ length bytes.now }
    ensures { result ≡ read_looks bytes.now first table.now count }
{
    for here in (first..first + 22 * count).step_by(22) {
        look(bytes, here, table)?;
    }
    Ok(())
}

// Enters a put under a stamp.
fn enter(put: &[u8; 14], stamp: &[u8; 8], table: &mut [u8])
    ensures { table.new ≡ entered stamp.now table.old put.now }
{
    let x = usize::from(record_at(put, 0));
    if 20 * x + 20 <= table.len() {
        lay_row(table, x, stamp, &put[2..]);
    }
}

// The puts of a block, from a place on, under the stamp of the block.
fn puts(bytes: &[u8], block: usize, first: usize, table: &mut [u8], count: usize)
    requires { (block + 8 ≤ length bytes.now) × (first + 14 * count ≤ length bytes.now) }
    ensures { table.new ≡ puts_after bytes.now block first table.old count }
{
    let stamp = form::<8>(bytes, block);
    for put in rows::<14>(bytes, first, count) {
        enter(put, &stamp, table);
    }
}

// Plays a block: its looks, then its puts.
fn play_job<S: Stamp>(
    bytes: &[u8],
    from: usize,
    h: Opened<S>,
    table: &mut [u8],
) -> Result<(), Fault>
    requires { Whole bytes.now from h }
    ensures answer { result ≡ read_looks bytes.now (from + 16) table.old h.looks }
    ensures leaves { table.new ≡ by_answer result (puts_after bytes.now from (from + 16 + 22 * h.looks) table.old h.puts) table.old }
{
    looks(bytes, from + 16, table, h.looks)?;
    puts(bytes, from, from + 16 + 22 * h.looks, table, h.puts);
    Ok(())
}

// Plays the blocks of an archive in turn.
fn play_jobs<S: Stamp>(archive: &Archive<'_>, table: &mut [u8]) -> Result<(), Fault>
    ensures { result ≡ play_jobs S.Stamp.kind.order archive.now.bytes.now 20 (20 + 8 * archive.now.stated.jobs + 12 * archive.now.stated.records) S.Stamp.kind.order.least table.old archive.now.stated.jobs }
{
    let mut low = S::least();
    let mut from = archive.first();
    for pair in archive.pairs() {
        let len = number_at(pair, 4);
        let h = front(archive.bytes, from, len, low)?;
        play_job(archive.bytes, from, h, table)?;
        low = h.stamp;
        from += len;
    }
    Ok(())
}

// Plays an archive over a table of its own: one list of bytes, as the definitions have it. Rows of 20 would
// have to be joined in every contract here.
pub(crate) fn replay<S: Stamp>(archive: &Archive<'_>) -> Result<(), Fault>
    ensures { result ≡ read_play S.Stamp.kind.order archive.now.bytes.now archive.now.stated.records archive.now.stated.jobs }
{
    let mut memory = [0u8; 20480];
    let table = &mut memory[..20 * archive.stated.records];
    let least = S::least().to_bytes();
    open_table(archive, &least, table);
    play_jobs::<S>(archive, table)
}
