// Lays the jobs of a registrar's journal: their pairs and their blocks.
ghost use Rattle.std.specs.Prelude.{◌≡◌, ◌+◌, ◌*◌, ◌≤◌, ◌++◌, length};
ghost use Rattle.kinds.specs.Bytes.{be4};
ghost use Rattle.archive.specs.Directory.{pairs_bytes};
ghost use Rattle.writer.specs.Pens.{HasRoom, Lays};
ghost use Rattle.writer.specs.Jobs.{entries_of, block_of, blocks_of, lengths_of};

use crate::block::{block_len, lay_block};
use crate::laying::Pen;
use crate::numbers::four;
use kinds::stamp::Stamp;
use kinds::value::Record;
use model::entry::Entry;
use model::tables::front;
use registrar::journal::Head;

// The entries of a job of the journal: at most 16, and none where its place lies beyond the table.
fn entries<S: Stamp, R: Record>(lines: &[Entry<S, R>], head: Head<S>) -> &[Entry<S, R>]
    ensures entries { result.now ≡ entries_of lines.now head }
    ensures few { length result.now ≤ 16 }
{
    let start = (16 * usize::from(head.place)).min(lines.len());
    front(front(&lines[start..], 16), usize::from(head.count))
}

// How many bytes the block of a job of the journal has: at most 592.
fn job_len<S: Stamp, R: Record>(lines: &[Entry<S, R>], head: Head<S>) -> usize
    ensures long { result ≡ length (block_of S.Stamp.kind.order R.Record.kind.form lines.now head) }
    ensures most { result ≤ 592 }
{
    block_len(entries(lines, head))
}

// How many bytes the blocks of jobs of the journal have.
pub(crate) fn blocks_len<S: Stamp, R: Record>(lines: &[Entry<S, R>], heads: &[Head<S>]) -> usize
    requires { length heads.now ≤ 4096 }
    ensures long { result ≡ length (blocks_of S.Stamp.kind.order R.Record.kind.form lines.now heads.now) }
    ensures most { result ≤ 592 * length heads.now }
{
    let mut total = 0;
    for head in heads {
        total += job_len(lines, *head);
    }
    total
}

// Lays a pair: where a part starts, and how long it is.
pub(crate) fn lay_pair(pen: &mut Pen<'_>, from: usize, len: usize)
    requires { HasRoom pen.old 8 }
    ensures { Lays pen.old (be4 from ++ be4 len) pen.new }
{
    pen.lay(&four(from));
    pen.lay(&four(len));
}

// Lays the pairs of jobs of the journal, the first of whose blocks starts at a place.
pub(crate) fn lay_pairs<S: Stamp, R: Record>(
    pen: &mut Pen<'_>,
    first: usize,
    lines: &[Entry<S, R>],
    heads: &[Head<S>],
)
    requires { (first ≤ 65536) × ((length heads.now ≤ 4096) × HasRoom pen.old (8 * length heads.now)) }
    ensures { Lays pen.old (pairs_bytes first (lengths_of S.Stamp.kind.order R.Record.kind.form lines.now heads.now)) pen.new }
{
    let mut from = first;
    for head in heads {
        let len = job_len(lines, *head);
        lay_pair(pen, from, len);
        from += len;
    }
}

// Lays the block of a job of the journal.
fn lay_job<S: Stamp, R: Record>(pen: &mut Pen<'_>, lines: &[Entry<S, R>], head: Head<S>)
    requires { HasRoom pen.old (length (block_of S.Stamp.kind.order R.Record.kind.form lines.now head)) }
    ensures { Lays pen.old (block_of S.Stamp.kind.order R.Record.kind.form lines.now head) pen.new }
{
    lay_block(pen, head.stamp, head.ticket, entries(lines, head));
}

// Lays the blocks of jobs of the journal.
pub(crate) fn lay_blocks<S: Stamp, R: Record>(
    pen: &mut Pen<'_>,
    lines: &[Entry<S, R>],
    heads: &[Head<S>],
)
    requires { HasRoom pen.old (length (blocks_of S.Stamp.kind.order R.Record.kind.form lines.now heads.now)) }
    ensures { Lays pen.old (blocks_of S.Stamp.kind.order R.Record.kind.form lines.now heads.now) pen.new }
{
    for head in heads {
        lay_job(pen, lines, *head);
    }
}
