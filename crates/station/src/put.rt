// Putting a value for a record.
ghost use Rattle.std.specs.Prelude.{◌≡◌, take};
ghost use Rattle.model.specs.Sheets.{put_unseen, with_value};
ghost use Rattle.station.specs.Station.{put_job};
ghost use Rattle.station.specs.Heard.{heard, station as at_station, answered, found_at, put_bound};
ghost use Rattle.station.specs.Places.{put_at, put_again_at, put_new_at};

use crate::job::Job;
use crate::sheet::find;
use kinds::bounds::later;
use kinds::stamp::Stamp;
use model::entry::Entry;
use model::image::{Image, ImageRow};
use model::refusal::Refusal;
use model::tables::{front, store};

// The entry of a put of a record not seen: put only, with the row's write stamp.
fn unseen<S: Copy, R: Copy>(number: usize, row: ImageRow<S, R>, value: R) -> Entry<S, R>
    ensures { result ≡ put_unseen number row value }
{
    Entry {
        number,
        noted: row.write,
        saw: value,
        wrote: value,
        seen: false,
        put: true,
        opened: false,
    }
}

// An entry, put with a value.
fn rewritten<S: Copy, R: Copy>(entry: Entry<S, R>, value: R) -> Entry<S, R>
    ensures { result ≡ with_value value entry }
{
    Entry {
        wrote: value,
        put: true,
        ..entry
    }
}

impl<S: Stamp> Job<S> {
    // The lower bound of a put: the latest of the job's own and the row's write and read stamps.
    fn after<R: Copy>(&self, row: ImageRow<S, R>) -> S
        ensures { result ≡ put_bound S.Stamp.kind.order self.now.lower row }
    {
        later(later(self.lower, row.write), row.read)
    }

    // A put of a record that is not on the sheet yet.
    fn put_new<R: Copy>(
        &mut self,
        sheet: &mut [Entry<S, R>],
        number: usize,
        row: ImageRow<S, R>,
        value: R,
    ) -> Result<(), Refusal>
        ensures { answered result self.new sheet.new ≡ put_new_at S.Stamp.kind (at_station self.old sheet.old) number row value }
    {
        self.enter(sheet, self.after(row), unseen(number, row, value))
    }

    // A put of a record whose entry stands at a place.
    fn put_again<R: Copy>(
        &mut self,
        sheet: &mut [Entry<S, R>],
        place: usize,
        entry: Entry<S, R>,
        row: ImageRow<S, R>,
        value: R,
    ) -> Result<(), Refusal>
        ensures { answered result self.new sheet.new ≡ put_again_at S.Stamp.kind (at_station self.old sheet.old) place entry row value }
    {
        if !entry.put {
            self.lower = self.room(self.after(row))?;
        }
        store(sheet, place, rewritten(entry, value));
        Ok(())
    }

    // A put of a record by its row.
    fn put_at<R: Copy>(
        &mut self,
        sheet: &mut [Entry<S, R>],
        number: usize,
        row: ImageRow<S, R>,
        value: R,
    ) -> Result<(), Refusal>
        ensures { answered result self.new sheet.new ≡ put_at S.Stamp.kind (at_station self.old sheet.old) (found_at number (take self.old.count sheet.old)) number row value }
    {
        match find(front(sheet, self.count), number) {
            Some((place, entry)) => self.put_again(sheet, place, entry, row, value),
            None => self.put_new(sheet, number, row, value),
        }
    }

    // Puts a value for a record, which the job's looks answer from then on. At the first put of the
    // record the lower bound becomes the latest of itself and the row's write and read stamps.
    pub fn put<R: Copy>(
        &mut self,
        sheet: &mut [Entry<S, R>],
        image: Image<'_, S, R>,
        number: usize,
        value: R,
    ) -> Result<(), Refusal>
        ensures { answered result self.new sheet.new ≡ put_job S.Stamp.kind (at_station self.old sheet.old) (heard image.entry) number value }
    {
        let row = self.admit(sheet, image, number)?;
        self.put_at(sheet, number, row, value)
    }
}
