// Looking at a record.
ghost use Rattle.std.specs.Prelude.{◌≡◌, take};
ghost use Rattle.model.specs.Sheets.{looked as noted_look};
ghost use Rattle.station.specs.Station.{look_job};
ghost use Rattle.station.specs.Heard.{heard, station as at_station, answered, found_at};
ghost use Rattle.station.specs.Places.{look_at, look_new_at};

use crate::job::Job;
use crate::sheet::{find, own};
use kinds::bounds::later;
use kinds::stamp::Stamp;
use model::entry::Entry;
use model::image::{Image, ImageRow};
use model::refusal::Refusal;
use model::tables::front;

// The entry of a look: seen and open, with the row's write stamp.
fn looked<S: Copy, R: Copy>(number: usize, row: ImageRow<S, R>) -> Entry<S, R>
    ensures { result ≡ noted_look number row }
{
    Entry {
        number,
        noted: row.write,
        saw: row.value,
        wrote: row.value,
        seen: true,
        put: false,
        opened: true,
    }
}

impl<S: Stamp> Job<S> {
    // A look at a record that is not on the sheet yet.
    fn look_new<R: Copy>(
        &mut self,
        sheet: &mut [Entry<S, R>],
        number: usize,
        row: ImageRow<S, R>,
    ) -> Result<R, Refusal>
        ensures { answered result self.new sheet.new ≡ look_new_at S.Stamp.kind (at_station self.old sheet.old) number row }
    {
        self.enter(sheet, later(self.lower, row.write), looked(number, row))?;
        Ok(row.value)
    }

    // A look at a record by its row.
    fn look_at<R: Copy>(
        &mut self,
        sheet: &mut [Entry<S, R>],
        number: usize,
        row: ImageRow<S, R>,
    ) -> Result<R, Refusal>
        ensures { answered result self.new sheet.new ≡ look_at S.Stamp.kind (at_station self.old sheet.old) (found_at number (take self.old.count sheet.old)) number row }
    {
        match find(front(sheet, self.count), number) {
            Some((_, entry)) => Ok(own(entry)),
            None => self.look_new(sheet, number, row),
        }
    }

    // The value of a record: the job's own, or the one first seen. A record that is not on the sheet
    // is noted there, and the lower bound becomes the later of itself and its write stamp.
    pub fn look<R: Copy>(
        &mut self,
        sheet: &mut [Entry<S, R>],
        image: Image<'_, S, R>,
        number: usize,
    ) -> Result<R, Refusal>
        ensures { answered result self.new sheet.new ≡ look_job S.Stamp.kind (at_station self.old sheet.old) (heard image.entry) number }
    {
        let row = self.admit(sheet, image, number)?;
        self.look_at(sheet, number, row)
    }
}
