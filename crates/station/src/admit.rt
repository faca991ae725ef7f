// The checks that calls share.
ghost use Rattle.std.specs.Prelude.{◌≡◌, Ok, nat_le};
ghost use Rattle.station.specs.Station.{is_shut as shut_as};
ghost use Rattle.station.specs.Heard.{heard, station as at_station, answered, readied, admitted, roomed};
ghost use Rattle.station.specs.Places.{entered_at};

use crate::job::{Job, Standing};
use crate::sheet::{PLACES, fit};
use kinds::stamp::Stamp;
use model::entry::Entry;
use model::image::{Image, ImageRow};
use model::refusal::Refusal;
use model::tables::{at, store};

impl<S> Job<S> {
    // Whether the job may not go on.
    pub fn is_shut(&self) -> bool
        ensures { result ≡ shut_as self.now.standing }
    {
        self.standing == Standing::Shut
    }
}

impl<S: Stamp> Job<S> {
    // Whether the tables of a call have their sizes and the job is live; or why not.
    pub(crate) fn ready<R: Copy>(
        &self,
        sheet: &[Entry<S, R>],
        image: Image<'_, S, R>,
    ) -> Result<(), Refusal>
        ensures { result ≡ readied (at_station self.now sheet.now) (heard image.entry) }
    {
        if !fit(image, sheet) {
            return Err(Refusal::WrongTables);
        }
        if self.is_shut() {
            return Err(Refusal::JobShut);
        }
        Ok(())
    }

    // The row that a look or a put is about, or why the call is refused.
    pub(crate) fn admit<R: Copy>(
        &self,
        sheet: &[Entry<S, R>],
        image: Image<'_, S, R>,
        number: usize,
    ) -> Result<ImageRow<S, R>, Refusal>
        ensures { result ≡ admitted (at_station self.now sheet.now) (heard image.entry) number }
    {
        self.ready(sheet, image)?;
        if image.number != self.image {
            return Err(Refusal::OtherImage);
        }
        at(image.rows, number).ok_or(Refusal::NoSuchRecord)
    }

    // Whether every place of the sheet has an entry.
    pub(crate) fn is_full(&self) -> bool
        ensures { result ≡ nat_le 16 self.now.count }
    {
        self.count >= PLACES
    }

    // A new lower bound, if there is a stamp between it and the upper bound.
    pub(crate) fn room(&self, lower: S) -> Result<S, Refusal>
        ensures { result ≡ roomed (S.Stamp.kind.pick lower self.now.upper) lower }
    {
        lower.pick(self.upper).map(|_| lower).ok_or(Refusal::NoRoom)
    }

    // A new entry behind those that count, and a new lower bound.
    pub(crate) fn enter<R: Copy>(
        &mut self,
        sheet: &mut [Entry<S, R>],
        lower: S,
        entry: Entry<S, R>,
    ) -> Result<(), Refusal>
        ensures { answered result self.new sheet.new ≡ entered_at S.Stamp.kind (at_station self.old sheet.old) lower entry (Ok tt) }
    {
        if self.is_full() {
            return Err(Refusal::SheetFull);
        }
        self.lower = self.room(lower)?;
        store(sheet, self.count, entry);
        self.count += 1;
        Ok(())
    }
}
