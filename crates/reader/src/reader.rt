// A reader of an archive that was checked.
ghost use Rattle.std.specs.Prelude.{◌≡◌, ◌+◌, ◌*◌, ◌≤◌, length, IfOk, OnOk, Ok};
ghost use Rattle.std.specs.Option.{ok_or};
ghost use Rattle.std.specs.List.{slice_get};
ghost use Rattle.archive.specs.declared.fault.Fault.TheVariants.{SpaceWrong};
ghost use Rattle.archive.specs.Values.{read_values, stated_values};
ghost use Rattle.archive.specs.Journal.{archive_bytes};
ghost use Rattle.reader.specs.Stated.{stated, read_stated, fill_answer, filled};
ghost use Rattle.reader.specs.Rebuilt.{PlaysAs, with_puts, rebuild_answer, rebuild_leaves};

use crate::forms::{number_at, value};
use crate::job::Job;
use crate::puts::Puts;
use archive::fault::Fault;
use archive::inspect::checked;
use archive::whole::Archive;
use kinds::stamp::Stamp;
use kinds::value::Record;
use model::tables::store;
use std::marker::{Model, PhantomData};

// An archive whose heading, directory, opening values and blocks are right. A clause sees what it states.
#[derive(Drop)]
pub struct Reader<'a, S: Stamp, R: Record> {
    archive: Archive<'a>,
    stamps: PhantomData<S>,
    values: PhantomData<R>,
}

impl<'a, S: Stamp, R: Record> Model for Reader<'a, S, R> {
    ghost use Rattle.reader.specs.Stated.{Stated};

    ghost Value = { Stated S R };

    ghost use Rattle.std.specs.Prelude.{◌≡◌, Ok};
    ghost use Rattle.archive.specs.Rule.{read_archive};
    ghost use Rattle.reader.specs.Stated.{stated};

    ghost view = { λ a. stated S.Stamp.kind.order R.Record.kind a.archive.bytes.now };

    ghost invariant = { λ a. read_archive S.Stamp.kind.order R.Record.kind a.archive.bytes.now ≡ Ok a.archive.stated };
}

// Fills a space with the values from a place on, each by its place, which a fault names.
fn load<R: Record>(bytes: &[u8], at: usize, space: &mut [R]) -> Result<(), Fault>
    requires { at + 12 * length space.old ≤ length bytes.now }
    ensures answer { result ≡ read_values R.Record.kind.form bytes.now at 12 (length space.old) }
    ensures filled { OnOk result (space.new ≡ stated_values R.Record.kind.form bytes.now at 12 (length space.old)) }
{
    for (i, place) in space.iter_mut().enumerate() {
        *place = value(bytes, at + 12 * i)?;
    }
    Ok(())
}

// Enters puts in turn.
fn enter<S: Stamp, R: Record>(puts: Puts<'_, S, R>, space: &mut [R])
    ensures { space.new ≡ with_puts space.old puts.entry }
{
    for put in puts {
        store(space, put.number, put.value);
    }
}

impl<'a, S: Stamp, R: Record> Reader<'a, S, R> {
    // Checks the bytes as inspect does, but for the play, once for all. What is then read is all that the bytes
    // say, and what play leaves of them.
    pub fn open(bytes: &'a [u8]) -> Result<Reader<'a, S, R>, Fault>
        ensures answer { result ≡ read_stated S.Stamp.kind.order R.Record.kind bytes.now }
        ensures one_form { IfOk result (λ r. bytes.now ≡ archive_bytes S.Stamp.kind.order R.Record.kind r.opening r.journal) }
        ensures plays { IfOk result (PlaysAs S.Stamp.kind.order R.Record.kind bytes.now) }
    {
        let archive = checked::<S, R>(bytes)?;
        Ok(Reader {
            archive,
            stamps: PhantomData,
            values: PhantomData,
        })
    }

    // How many records the register has.
    pub fn records(&self) -> usize
        ensures { result ≡ length self.now.opening }
    {
        self.archive.stated.records
    }

    // How many jobs were accepted.
    pub fn jobs(&self) -> usize
        ensures { result ≡ length self.now.journal }
    {
        self.archive.stated.jobs
    }

    // Fills a space of as many values as there are records with the opening values.
    pub fn opening(&self, space: &mut [R]) -> Result<(), Fault>
        ensures answer { result ≡ fill_answer self.now.opening space.old }
        ensures leaves { space.new ≡ filled self.now.opening space.old }
    {
        if space.len() != self.records() {
            return Err(Fault::SpaceWrong);
        }
        load(self.archive.bytes, self.archive.start(), space)
    }

    // A job, counted from 0 in final order. Its block is found by the offset that the directory has for it.
    pub fn job(&self, k: usize) -> Result<Job<'a, S, R>, Fault>
        ensures { result ≡ ok_or (slice_get self.now.journal k) SpaceWrong }
    {
        let archive = self.archive;
        if k >= archive.stated.jobs {
            return Err(Fault::SpaceWrong);
        }
        let at = number_at(archive.bytes, 20 + 8 * k) as usize;
        Job::read(archive.bytes, at).ok_or(Fault::SpaceWrong)
    }

    // Fills a space of as many values as there are records with those that stand after the first m jobs.
    pub fn rebuild(&self, m: usize, space: &mut [R]) -> Result<(), Fault>
        ensures answer { result ≡ rebuild_answer self.now m space.old }
        ensures leaves { space.new ≡ rebuild_leaves self.now m space.old }
    {
        if m > self.jobs() {
            return Err(Fault::SpaceWrong);
        }
        self.opening(space)?;
        for k in 0..m {
            enter(self.job(k)?.puts(), space);
        }
        Ok(())
    }
}
