// The verdict on a submission, from the rows as they stand.
ghost use Rattle.std.specs.Prelude.{◌≡◌, Some, None, if◌then◌else◌, ok_or};
ghost use Rattle.std.specs.List.{slice_get};
ghost use Rattle.kinds.specs.Bounds.{same as same_as};
ghost use Rattle.registrar.specs.Deciding.{noted_elsewhere, overtaken as overtaken_by, following as following_in, bounded_by, upper_bound, last_use as use_in, lower_bound, verdict_on};
ghost use Rattle.registrar.specs.Calls.{waiting_with};

use crate::queue::Submission;
use crate::rows::latest;
use kinds::bounds::{earlier, later, same};
use kinds::stamp::Stamp;
use model::entry::Entry;
use model::row::Row;
use model::tables::at;
use model::verdict::Verdict;

// Whether the row's write stamp is another than the one noted.
fn moved_on<S: Stamp, R: Copy>(noted: S, row: Option<Row<S, R>>) -> bool
    ensures { result ≡ noted_elsewhere S.Stamp.kind.order noted row }
{
    row.is_some_and(|row| !same(noted, latest(&row)))
}

// Whether a record that the job puts has been written since its station noted it.
fn overtaken<S: Stamp, R: Copy>(rows: &[Row<S, R>], entries: &[Entry<S, R>]) -> bool
    ensures { result ≡ overtaken_by S.Stamp.kind.order rows.now entries.now }
{
    entries
        .iter()
        .filter(|entry| entry.put)
        .any(|entry| moved_on(entry.noted, at(rows, entry.number)))
}

// The next version, where the noted stamp is this one; none where it is another.
fn follows<S: Stamp>(noted: S, next: S, version: S) -> Option<S>
    ensures { result ≡ (if same_as S.Stamp.kind.order noted version then Some next else None) }
{
    same(noted, version).then_some(next)
}

// Why there is no bound: no version of the row has the noted stamp any more.
#[derive(Clone, Copy)]
struct Gone;

// The version of a row that follows the noted stamp, if any.
fn following<S: Stamp, R: Copy>(noted: S, row: Option<Row<S, R>>) -> Result<Option<S>, Gone>
    ensures { result ≡ ok_or (following_in S.Stamp.kind.order noted row) (record {}) }
{
    let row = row.ok_or(Gone)?;
    let last = latest(&row);
    if same(noted, last) {
        return Ok(None);
    }
    let next = match row.count {
        0 | 1 => None,
        2 => follows(noted, last, row.one),
        3 => follows(noted, last, row.two).or(follows(noted, row.two, row.one)),
        _ => follows(noted, last, row.three)
            .or(follows(noted, row.three, row.two))
            .or(follows(noted, row.two, row.one)),
    };
    next.map(Some).ok_or(Gone)
}

// The upper bound after one entry: for an open one the earlier of itself and the version that follows.
fn narrow<S: Stamp, R: Copy>(
    rows: &[Row<S, R>],
    entry: Entry<S, R>,
    upper: Option<S>,
) -> Result<Option<S>, Gone>
    ensures { result ≡ ok_or (bounded_by S.Stamp.kind.order entry.opened (following_in S.Stamp.kind.order entry.noted (slice_get rows.now entry.number)) upper) (record {}) }
{
    if !entry.opened {
        return Ok(upper);
    }
    let next = following(entry.noted, at(rows, entry.number))?;
    Ok(next.map_or(upper, |next| Some(earlier(upper, next))))
}

// The upper bound after all entries, unless what one of them noted is gone.
fn upper_after<S: Stamp, R: Copy>(
    rows: &[Row<S, R>],
    entries: &[Entry<S, R>],
    upper: Option<S>,
) -> Result<Option<S>, Gone>
    ensures { result ≡ ok_or (upper_bound S.Stamp.kind.order rows.now entries.now upper) (record {}) }
{
    let mut bound = upper;
    for entry in entries {
        bound = narrow(rows, *entry, bound)?;
    }
    Ok(bound)
}

// The later of a record's read and write stamps, if there is such a record.
fn last_use<S: Stamp, R: Copy>(rows: &[Row<S, R>], number: usize) -> Option<S>
    ensures { result ≡ use_in S.Stamp.kind.order (slice_get rows.now number) }
{
    at(rows, number).map(|row| later(row.read, latest(&row)))
}

// The lower bound, lifted by the last use of each put entry's record. A station folds read stamps alike: a
// function for both would ask of its callers what the function that it is given answers.
fn lower_after<S: Stamp, R: Copy>(rows: &[Row<S, R>], entries: &[Entry<S, R>], lower: S) -> S
    ensures { result ≡ lower_bound S.Stamp.kind.order rows.now entries.now lower }
{
    entries
        .iter()
        .filter(|entry| entry.put)
        .filter_map(|entry| last_use(rows, entry.number))
        .fold(lower, |lower, used| later(lower, used))
}

// Overtaken, then gone, then no place; else accepted with a stamp between the bounds. Rows and entries are
// handed on as two slices: a struct of both would put its name into each clause.
pub(crate) fn verdict<S: Stamp, R: Copy>(
    rows: &[Row<S, R>],
    submission: Submission<S>,
    entries: &[Entry<S, R>],
) -> Verdict<S>
    ensures { result ≡ verdict_on S.Stamp.kind rows.now (waiting_with submission entries.now) }
{
    if overtaken(rows, entries) {
        return Verdict::Overtaken;
    }
    let Ok(upper) = upper_after(rows, entries, submission.upper) else {
        return Verdict::Gone;
    };
    match lower_after(rows, entries, submission.lower).pick(upper) {
        None => Verdict::NoPlace,
        Some(stamp) => Verdict::Accepted { stamp },
    }
}
