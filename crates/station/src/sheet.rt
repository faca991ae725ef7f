// The tables that are handed to a call: their sizes, and the entries of a sheet.
ghost use Rattle.std.specs.Prelude.{◌≡◌, ◌&&◌, map, take};
ghost use Rattle.model.specs.Sheets.{own_value};
ghost use Rattle.model.specs.Tables.{laid, sized as sized_to};
ghost use Rattle.station.specs.Station.{image_sized, struck as some_struck, closed_by};
ghost use Rattle.station.specs.Heard.{heard, firsts, found_at};

use crate::bounds::first_write;
use model::entry::Entry;
use model::image::{Image, ImageRow, fits};

// The places of a sheet.
pub const PLACES: usize = 16;

// Whether an image has a lawful number of records, a row for each, and 32 places for outcomes.
pub fn sized<S: Copy, R: Copy>(image: Image<'_, S, R>) -> bool
    ensures { result ≡ image_sized (heard image.entry) }
{
    fits(image.records, image.rows.len(), image.outcomes.len())
}

// Whether the tables of a call, an image's and a sheet, have their sizes.
pub fn fit<S: Copy, R: Copy>(image: Image<'_, S, R>, sheet: &[Entry<S, R>]) -> bool
    ensures { result ≡ (image_sized (heard image.entry) && sized_to sheet.now 16) }
{
    sized(image) && sheet.len() == PLACES
}

// The first entry for a record, with its place.
pub fn find<S: Copy, R: Copy>(
    entries: &[Entry<S, R>],
    number: usize,
) -> Option<(usize, Entry<S, R>)>
    ensures { result ≡ found_at number entries.now }
{
    entries
        .iter()
        .copied()
        .enumerate()
        .find(|(_, entry)| entry.number == number)
}

// What a look at a record on the sheet answers: the job's own value, or the value first seen.
pub fn own<S: Copy, R: Copy>(entry: Entry<S, R>) -> R
    ensures { result ≡ own_value entry }
{
    if entry.put { entry.wrote } else { entry.saw }
}

// Whether some put entry is of a record that has a first write.
pub fn struck<S: Copy, R: Copy>(entries: &[Entry<S, R>], rows: &[ImageRow<S, R>]) -> bool
    ensures { result ≡ some_struck (firsts rows.now) entries.now }
{
    entries
        .iter()
        .filter(|entry| entry.put)
        .any(|entry| first_write(rows, entry.number).is_some())
}

// Closes an entry where it is open and its record has a first write.
pub fn close_one<S: Copy, R: Copy>(entry: &mut Entry<S, R>, rows: &[ImageRow<S, R>])
    ensures { entry.new ≡ closed_by (firsts rows.now) entry.old }
{
    if entry.opened && first_write(rows, entry.number).is_some() {
        entry.opened = false;
    }
}

// Closes entries in place; the places behind those that count keep their content.
pub fn close<S: Copy, R: Copy>(sheet: &mut [Entry<S, R>], count: usize, rows: &[ImageRow<S, R>])
    ensures { sheet.new ≡ laid (map (closed_by (firsts rows.now)) (take count sheet.old)) sheet.old }
{
    let end = count.min(sheet.len());
    for entry in &mut sheet[..end] {
        close_one(entry, rows);
    }
}
