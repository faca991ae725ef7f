// The archive of a schedule, written, inspected and played.
ghost use Rattle.std.specs.Prelude.{◌≡◌, OnOk, Ok, take};
ghost use Rattle.std.specs.List.{AllZip};
ghost use Rattle.kinds.specs.Values.{SameValue};
ghost use Rattle.archive.specs.Rule.{inspected};
ghost use Rattle.release.specs.Counts.{with_archive};
ghost use Rattle.release.specs.Journals.{equal_pairs as pairs_of, early_jobs as early_of};

use crate::alike::alike;
use crate::failure::Failure;
use crate::field::Field;
use crate::journal::{early_jobs, equal_pairs};
use crate::values::Drawn;
use archive::inspect::inspect;
use archive::play::play;
use kinds::stamp::Stamp;
use kinds::value::Record;
use model::row::Row;
use model::tables::front;
use writer::write::{size, write};

// Holds an archive against a register: it has to be sound with so many jobs, and its play, which fills a space, has to
// end at the rows' values.
pub fn hold_against<S: Stamp, R: Record>(
    archive: &[u8],
    jobs: usize,
    rows: &[Row<S, R>],
    space: &mut [R],
) -> Result<(), Failure>
    ensures sound { OnOk result (inspected S.Stamp.kind.order R.Record.kind archive.now ≡ Ok jobs) }
    ensures alike { OnOk result (AllZip (λ row value. SameValue R.Record.kind row.value value) rows.now space.new) }
{
    let sound = inspect::<S, R>(archive)?;
    if sound != jobs {
        return Err(Failure::OtherCount { sound, jobs });
    }
    play::<S, R>(archive, jobs, space)?;
    if !alike(rows, space) {
        return Err(Failure::NotAlike);
    }
    Ok(())
}

impl<S: Stamp, R: Drawn> Field<S, R> {
    // Hands over the books, writes the archive, holds it against the register, and counts what its journal has.
    pub(crate) fn check(&mut self) -> Result<(), Failure>
        ensures { OnOk result (let journal = take self.new.registrar.jobs self.new.store.heads.items in self.new.tally ≡ with_archive self.old.tally (pairs_of S.Stamp.kind.order journal) (early_of journal)) }
    {
        let books = self.store.books(&self.registrar);
        let jobs = books.hand_over();
        let len = size(books)?;
        if self.space.len() < len {
            self.space.resize(len, 0)?;
        }
        let len = write(books, &mut self.space)?;
        let archive = front(&self.space, len);
        hold_against(archive, jobs, &self.store.rows, &mut self.played)?;
        let heads = front(&self.store.heads, jobs);
        self.tally
            .archive(equal_pairs(heads) as u64, early_jobs(heads));
        Ok(())
    }
}
