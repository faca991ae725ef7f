// How the bounds of a job narrow. The entries are the job's and the rows an image's, which meet only here and
// at the sheet, so they come side by side.
ghost use Rattle.std.specs.Prelude.{◌≡◌};
ghost use Rattle.station.specs.Station.{upper_by as upper_of, lower_by as lower_of};
ghost use Rattle.station.specs.Heard.{firsts, reads};

use kinds::bounds::{earlier, later};
use kinds::stamp::Stamp;
use model::entry::Entry;
use model::image::ImageRow;
use model::tables::at;

// The first write of a record since the image before, if it has one.
pub fn first_write<S: Copy, R: Copy>(rows: &[ImageRow<S, R>], number: usize) -> Option<S>
    ensures { result ≡ firsts rows.now number }
{
    at(rows, number).and_then(|row| row.first)
}

// The upper bound, narrowed by the first write of each open entry's record.
pub fn upper_by<S: Stamp, R: Copy>(
    entries: &[Entry<S, R>],
    rows: &[ImageRow<S, R>],
    upper: Option<S>,
) -> Option<S>
    ensures { result ≡ upper_of S.Stamp.kind.order (firsts rows.now) entries.now upper }
{
    entries
        .iter()
        .filter(|entry| entry.opened)
        .filter_map(|entry| first_write(rows, entry.number))
        .fold(upper, |upper, first| Some(earlier(upper, first)))
}

// The lower bound, lifted by the read stamp of each put entry's record.
pub fn lower_by<S: Stamp, R: Copy>(entries: &[Entry<S, R>], rows: &[ImageRow<S, R>], lower: S) -> S
    ensures { result ≡ lower_of S.Stamp.kind.order (reads rows.now) entries.now lower }
{
    entries
        .iter()
        .filter(|entry| entry.put)
        .filter_map(|entry| at(rows, entry.number))
        .fold(lower, |lower, row| later(lower, row.read))
}
