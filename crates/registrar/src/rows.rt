// Rows of the register, and what an accepted job does to them.
ghost use Rattle.std.specs.Prelude.{◌≡◌};
ghost use Rattle.std.specs.List.{slice_get};
ghost use Rattle.model.specs.Rows.{write_of, with_look, with_put};
ghost use Rattle.registrar.specs.Deciding.{row_after, row_written, rows_after, first_written, firsts_after};

use kinds::bounds::later;
use kinds::stamp::Stamp;
use model::entry::Entry;
use model::row::Row;
use model::tables::{at, store};

// The write stamp of a row: the last of its versions.
pub(crate) fn latest<S: Copy, R>(row: &Row<S, R>) -> S
    ensures { result ≡ write_of row.now }
{
    match row.count {
        0 | 1 => row.one,
        2 => row.two,
        3 => row.three,
        _ => row.four,
    }
}

// A row after a look: its read stamp becomes the later of itself and the job's.
fn looked<S: Stamp, R: Copy>(row: Row<S, R>, stamp: S) -> Row<S, R>
    ensures { result ≡ with_look S.Stamp.kind.order stamp row }
{
    Row {
        read: later(row.read, stamp),
        ..row
    }
}

// A row after a put: the new value, and the job's stamp behind the versions; the oldest leaves a full list.
fn written<S: Copy, R: Copy>(row: Row<S, R>, value: R, stamp: S) -> Row<S, R>
    ensures { result ≡ with_put value stamp row }
{
    match row.count {
        0 | 1 => Row {
            value,
            count: 2,
            two: stamp,
            ..row
        },
        2 => Row {
            value,
            count: 3,
            three: stamp,
            ..row
        },
        3 => Row {
            value,
            count: 4,
            four: stamp,
            ..row
        },
        _ => Row {
            value,
            count: 4,
            one: row.two,
            two: row.three,
            three: row.four,
            four: stamp,
            ..row
        },
    }
}

// A row after an entry of the accepted job.
fn changed<S: Stamp, R: Copy>(row: Row<S, R>, entry: Entry<S, R>, stamp: S) -> Row<S, R>
    ensures { result ≡ row_after S.Stamp.kind.order stamp entry row }
{
    let row = if entry.seen { looked(row, stamp) } else { row };
    if entry.put {
        written(row, entry.wrote, stamp)
    } else {
        row
    }
}

// The rows after an entry of the accepted job. The row is read and stored, since `get_mut` at a place
// does not say what the table ends as.
fn enter<S: Stamp, R: Copy>(rows: &mut [Row<S, R>], entry: Entry<S, R>, stamp: S)
    ensures { rows.new ≡ row_written S.Stamp.kind.order stamp entry rows.old (slice_get rows.old entry.number) }
{
    if let Some(row) = at(rows, entry.number) {
        store(rows, entry.number, changed(row, entry, stamp));
    }
}

// The rows after all entries of the accepted job.
pub(crate) fn enter_all<S: Stamp, R: Copy>(
    rows: &mut [Row<S, R>],
    entries: &[Entry<S, R>],
    stamp: S,
)
    ensures { rows.new ≡ rows_after S.Stamp.kind.order stamp entries.now rows.old }
{
    for entry in entries {
        enter(rows, *entry, stamp);
    }
}

// The first writes after an entry of the accepted job: a put record that has none takes the job's
// stamp. It is read and stored, as a row is.
fn mark<S: Copy, R: Copy>(firsts: &mut [Option<S>], entry: Entry<S, R>, stamp: S)
    ensures { firsts.new ≡ first_written stamp entry firsts.old (slice_get firsts.old entry.number) }
{
    if let Some(first) = at(firsts, entry.number) {
        if entry.put {
            store(firsts, entry.number, first.or(Some(stamp)));
        }
    }
}

// The first writes after all entries of the accepted job: a loop as that of the rows, over another table,
// since a function for both would ask of its callers what their step does.
pub(crate) fn mark_all<S: Copy, R: Copy>(
    firsts: &mut [Option<S>],
    entries: &[Entry<S, R>],
    stamp: S,
)
    ensures { firsts.new ≡ firsts_after stamp entries.now firsts.old }
{
    for entry in entries {
        mark(firsts, *entry, stamp);
    }
}
