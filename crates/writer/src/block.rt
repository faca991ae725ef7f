// Lays the block of a job.
ghost use Rattle.std.specs.Prelude.{◌≡◌, ◌≤◌, true, length, if◌then◌else◌};
ghost use Rattle.writer.specs.Pens.{HasRoom, Lays};
ghost use Rattle.archive.specs.Journal.{look_bytes, put_bytes};
ghost use Rattle.archive.specs.Lengths.{block_length};
ghost use Rattle.writer.specs.Blocks.{look_count, put_count, front_bytes, block_in, look_of, look_in, put_in_entry};

use crate::laying::{Part, Pen, lay_each};
use crate::numbers::two;
use archive::lengths::length_of;
use kinds::stamp::Stamp;
use kinds::value::Record;
use model::entry::Entry;

// Lays a look: record, noted stamp and value.
fn lay_seen<S: Stamp, R: Record>(pen: &mut Pen<'_>, number: usize, noted: S, saw: R)
    requires { HasRoom pen.old 22 }
    ensures { Lays pen.old (look_bytes S.Stamp.kind.order R.Record.kind.form (look_of number noted saw)) pen.new }
{
    pen.lay(&two(number));
    pen.lay(&noted.to_bytes());
    pen.lay(&saw.to_bytes());
}

// The noted look of an entry, if it is seen.
struct Looks;

impl<S: Stamp, R: Record> Part<Entry<S, R>> for Looks {
    ghost written = { look_in S.Stamp.kind.order R.Record.kind.form };

    fn lay_one(pen: &mut Pen<'_>, item: Entry<S, R>) {
        if item.seen {
            lay_seen(pen, item.number, item.noted, item.saw);
        }
    }
}

// The put of an entry, if it is put.
struct Puts;

impl<S: Stamp, R: Record> Part<Entry<S, R>> for Puts {
    ghost written = { put_in_entry S.Stamp.kind.order R.Record.kind.form };

    fn lay_one(pen: &mut Pen<'_>, item: Entry<S, R>) {
        if item.put {
            pen.lay(&two(item.number));
            pen.lay(&item.wrote.to_bytes());
        }
    }
}

// How many looks and how many puts some entries have.
fn counts<S: Stamp, R: Record>(entries: &[Entry<S, R>]) -> (usize, usize)
    ensures looks { result.0 ≡ look_count entries.now }
    ensures puts { result.1 ≡ put_count entries.now }
    ensures few { (result.0 ≤ length entries.now) × (result.1 ≤ length entries.now) }
{
    let looks = entries.iter().filter(|e| e.seen).count();
    let puts = entries.iter().filter(|e| e.put).count();
    (looks, puts)
}

// How many bytes the block of a job has: at most 592.
pub(crate) fn block_len<S: Stamp, R: Record>(entries: &[Entry<S, R>]) -> usize
    requires { length entries.now ≤ 16 }
    ensures long { result ≡ block_length (look_count entries.now) (put_count entries.now) }
    ensures most { result ≤ 592 }
{
    let (looks, puts) = counts(entries);
    length_of(looks, puts).unwrap()
}

// Lays the first 16 bytes of a block: stamp, ticket, number of looks, number of puts, two zero bytes.
fn lay_front<S: Stamp>(pen: &mut Pen<'_>, stamp: S, ticket: u32, looks: u8, puts: u8)
    requires { HasRoom pen.old 16 }
    ensures { Lays pen.old (front_bytes S.Stamp.kind.order stamp ticket looks puts) pen.new }
{
    pen.lay(&stamp.to_bytes());
    pen.lay(&ticket.to_be_bytes());
    pen.lay(&[looks, puts, 0, 0]);
}

// Lays the block of a job, whose counts fit a byte each.
pub(crate) fn lay_block<S: Stamp, R: Record>(
    pen: &mut Pen<'_>,
    stamp: S,
    ticket: u32,
    entries: &[Entry<S, R>],
)
    requires { (length entries.now ≤ 16) × HasRoom pen.old (length (block_in S.Stamp.kind.order R.Record.kind.form stamp ticket entries.now)) }
    ensures { Lays pen.old (block_in S.Stamp.kind.order R.Record.kind.form stamp ticket entries.now) pen.new }
{
    let (looks, puts) = counts(entries);
    lay_front(pen, stamp, ticket, looks as u8, puts as u8);
    lay_each::<Looks, _>(pen, entries);
    lay_each::<Puts, _>(pen, entries);
}
