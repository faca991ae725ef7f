// Lays a whole archive: heading, directory, opening values and blocks.
ghost use Rattle.std.specs.Prelude.{◌≡◌, ◌+◌, ◌*◌, ◌≤◌, ◌∷◌, length};
ghost use Rattle.model.specs.Tables.{laid};
ghost use Rattle.archive.specs.Heading.{heading_bytes};
ghost use Rattle.archive.specs.Directory.{pairs_bytes};
ghost use Rattle.archive.specs.Values.{values_bytes};
ghost use Rattle.writer.specs.Pens.{HasRoom, Lays};
ghost use Rattle.writer.specs.Jobs.{lengths_of, whole_of};

use crate::journal::{lay_blocks, lay_pair, lay_pairs};
use crate::laying::{Part, Pen, lay_each};
use crate::numbers::{four, two};
use archive::heading::MARK;
use kinds::stamp::Stamp;
use kinds::value::Record;
use model::entry::Entry;
use registrar::journal::Head;

// Lays the heading: the mark, the two kinds, the number of records and that of jobs.
fn lay_heading<S: Stamp, R: Record>(pen: &mut Pen<'_>, records: usize, jobs: usize)
    requires { HasRoom pen.old 12 }
    ensures { Lays pen.old (heading_bytes S.Stamp.kind.order.number R.Record.kind.number records jobs) pen.new }
{
    pen.lay(&MARK);
    pen.lay(&[S::number(), R::number()]);
    pen.lay(&two(records));
    pen.lay(&four(jobs));
}

// Lays the directory: the pair of the opening values, so many of them, and those of the jobs.
fn lay_directory<S: Stamp, R: Record>(
    pen: &mut Pen<'_>,
    records: usize,
    lines: &[Entry<S, R>],
    heads: &[Head<S>],
)
    requires { (records ≤ 1024) × ((length heads.now ≤ 4096) × HasRoom pen.old (8 + 8 * length heads.now)) }
    ensures { Lays pen.old (pairs_bytes (20 + 8 * length heads.now) (12 * records ∷ lengths_of S.Stamp.kind.order R.Record.kind.form lines.now heads.now)) pen.new }
{
    let start = 20 + 8 * heads.len();
    let len = 12 * records;
    lay_pair(pen, start, len);
    lay_pairs(pen, start + len, lines, heads);
}

// The written form of a value.
struct Values;

impl<R: Record> Part<R> for Values {
    ghost written = { R.Record.kind.form.written };

    fn lay_one(pen: &mut Pen<'_>, item: R) {
        pen.lay(&item.to_bytes());
    }
}

// Lays the parts of the archive of opening values and jobs of the journal, one behind the other.
fn lay_parts<S: Stamp, R: Record>(
    pen: &mut Pen<'_>,
    opening: &[R],
    lines: &[Entry<S, R>],
    heads: &[Head<S>],
)
    requires { (length opening.now ≤ 1024) × ((length heads.now ≤ 4096) × HasRoom pen.old (length (whole_of S.Stamp.kind.order R.Record.kind opening.now lines.now heads.now))) }
    ensures { Lays pen.old (whole_of S.Stamp.kind.order R.Record.kind opening.now lines.now heads.now) pen.new }
{
    lay_heading::<S, R>(pen, opening.len(), heads.len());
    lay_directory(pen, opening.len(), lines, heads);
    lay_each::<Values, _>(pen, opening);
    lay_blocks(pen, lines, heads);
}

// Lays the archive at the front of a space.
pub(crate) fn lay_archive<S: Stamp, R: Record>(
    space: &mut [u8],
    opening: &[R],
    lines: &[Entry<S, R>],
    heads: &[Head<S>],
)
    requires { (length opening.now ≤ 1024) × ((length heads.now ≤ 4096) × (length (whole_of S.Stamp.kind.order R.Record.kind opening.now lines.now heads.now) ≤ length space.old)) }
    ensures { space.new ≡ laid (whole_of S.Stamp.kind.order R.Record.kind opening.now lines.now heads.now) space.old }
{
    let mut pen = Pen::new(space, 0);
    lay_parts(&mut pen, opening, lines, heads);
}
