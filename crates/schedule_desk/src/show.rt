// States, as a desk prints them.
ghost use Rattle.std.specs.Prelude.{◌≡◌, ℕ, ◌≤◌, length, Err};
ghost use Rattle.schedule_calls.specs.declared.reason.Fault.TheVariants.{NoCall};
ghost use Rattle.schedule_calls.specs.declared.reason.Reason.TheVariants.{NoRecord, NoImage};

use crate::answer::{ShownOutcome, ShownStanding};
use crate::desk::Desk;
use crate::holdings::Station;
use crate::log::Log;
use kinds::stamp::Stamp;
use model::entry::Entry;
use model::image::ImageRow;
use model::row::Row;
use notation::text::{Notation, Shown, ShownOr};
use office::images::Published;
use registrar::journal::Head;
use schedule_calls::command::View;
use schedule_calls::reason::{Fault, Reason};
use std::fmt;
use std::fmt::Write;

// The places for lines that a job of the journal has.
const LINES: usize = 16;

// A row of the register, with its first write.
#[derive(Clone, Copy)]
struct ShownRow<'a, S, R> {
    record: usize,
    row: &'a Row<S, R>,
    first: Option<S>,
}

impl<S: Notation, R: Notation> fmt::Display for ShownRow<'_, S, R> {
    fn fmt<W: fmt::Write>(&self, f: &mut fmt::Formatter<W>) -> fmt::Result {
        let record = self.record;
        let row = self.row;
        let value = Shown(row.value);
        let read = Shown(row.read);
        write!(f, "row {record}: {value} read {read} versions")?;
        let versions = [&row.one, &row.two, &row.three, &row.four];
        for version in versions.iter().take(row.count.max(1)) {
            let version = Shown(**version);
            write!(f, " {version}")?;
        }
        let first = ShownOr {
            value: self.first,
            none: "none",
        };
        writeln!(f, " first {first}")
    }
}

// An entry of a sheet.
#[derive(Clone, Copy)]
struct ShownEntry<'a, S, R> {
    place: usize,
    entry: &'a Entry<S, R>,
}

impl<S: Notation, R: Notation> fmt::Display for ShownEntry<'_, S, R> {
    fn fmt<W: fmt::Write>(&self, f: &mut fmt::Formatter<W>) -> fmt::Result {
        let place = self.place;
        let entry = self.entry;
        let record = entry.number;
        let noted = Shown(entry.noted);
        let saw = Shown(entry.saw);
        let wrote = Shown(entry.wrote);
        write!(
            f,
            "  entry {place}: record {record} noted {noted} seen {saw} put {wrote}"
        )?;
        if entry.seen {
            f.write_str(" seen")?;
        }
        if entry.put {
            f.write_str(" put")?;
        }
        if entry.opened {
            f.write_str(" open")?;
        }
        writeln!(f, "")
    }
}

// A job and its entries.
#[derive(Clone, Copy)]
struct ShownJob<'a, S: Copy, R: Copy> {
    name: &'a str,
    station: &'a Station<S, R>,
}

impl<S: Notation, R: Notation> fmt::Display for ShownJob<'_, S, R> {
    fn fmt<W: fmt::Write>(&self, f: &mut fmt::Formatter<W>) -> fmt::Result {
        let name = self.name;
        let Station { job, sheet } = self.station;
        let image = job.image;
        let standing = ShownStanding(job.standing);
        let lower = Shown(job.lower);
        let upper = ShownOr {
            value: job.upper,
            none: "none",
        };
        writeln!(
            f,
            "job {name}: image {image} {standing} lower {lower} upper {upper}"
        )?;
        for (place, entry) in sheet.iter().take(job.count).enumerate() {
            let entry = ShownEntry { place, entry };
            write!(f, "{entry}")?;
        }
        Ok(())
    }
}

// A job of the journal, with its lines.
#[derive(Clone, Copy)]
struct ShownHead<'a, S, R> {
    head: &'a Head<S>,
    lines: &'a [Entry<S, R>],
}

impl<S: Notation, R: Notation> fmt::Display for ShownHead<'_, S, R> {
    fn fmt<W: fmt::Write>(&self, f: &mut fmt::Formatter<W>) -> fmt::Result {
        let head = self.head;
        let stamp = Shown(head.stamp);
        let ticket = head.ticket;
        let start = LINES * usize::from(head.place);
        let count = usize::from(head.count);
        write!(f, "  {stamp} ticket {ticket} looks")?;
        let lines = self.lines.iter().skip(start).take(count);
        for entry in lines.filter(|entry| entry.seen) {
            let record = entry.number;
            let noted = Shown(entry.noted);
            let saw = Shown(entry.saw);
            write!(f, " {record}@{noted}={saw}")?;
        }
        write!(f, " puts")?;
        let lines = self.lines.iter().skip(start).take(count);
        for entry in lines.filter(|entry| entry.put) {
            let record = entry.number;
            let wrote = Shown(entry.wrote);
            write!(f, " {record}={wrote}")?;
        }
        writeln!(f, "")
    }
}

// A record in an image.
#[derive(Clone, Copy)]
struct ShownImageRow<'a, S, R> {
    record: usize,
    row: &'a ImageRow<S, R>,
}

impl<S: Notation, R: Notation> fmt::Display for ShownImageRow<'_, S, R> {
    fn fmt<W: fmt::Write>(&self, f: &mut fmt::Formatter<W>) -> fmt::Result {
        let record = self.record;
        let row = self.row;
        let value = Shown(row.value);
        let write = Shown(row.write);
        let read = Shown(row.read);
        let first = ShownOr {
            value: row.first,
            none: "none",
        };
        writeln!(
            f,
            "  {record}: {value} write {write} read {read} first {first}"
        )
    }
}

// An image, with its records and its outcomes.
#[derive(Clone, Copy)]
struct ShownImage<'a, S: Copy, R: Copy>(&'a Published<S, R>);

impl<S: Notation, R: Notation> fmt::Display for ShownImage<'_, S, R> {
    fn fmt<W: fmt::Write>(&self, f: &mut fmt::Formatter<W>) -> fmt::Result {
        let Published {
            head,
            rows,
            outcomes,
        } = self.0;
        let number = head.number;
        let records = head.records;
        let count = head.count;
        writeln!(f, "image {number}: {records} records, {count} outcomes")?;
        for (record, row) in rows.iter().enumerate() {
            let row = ShownImageRow { record, row };
            write!(f, "{row}")?;
        }
        for outcome in outcomes.iter().take(count) {
            let outcome = ShownOutcome(*outcome);
            writeln!(f, "  outcome: {outcome}")?;
        }
        Ok(())
    }
}

impl<S: Stamp + Notation, R: Notation> Desk<S, R> {
    // The row of a record.
    fn show_record(&self, log: &mut Log, record: usize) -> Result<(), Fault>
        ensures tally { log.new.tally ≡ log.old.tally }
        ensures missing { length self.now.store.rows.items ≤ «record» → result ≡ Err (NoCall NoRecord) }
    {
        let row = self.store.rows.get(record).ok_or(Reason::NoRecord)?;
        let first = *self.store.firsts.get(record).ok_or(Reason::NoRecord)?;
        let row = ShownRow { record, row, first };
        write!(log.text, "{row}")?;
        Ok(())
    }

    // The job of a name.
    fn show_named(&self, log: &mut Log, name: &str) -> Result<(), Fault>
        ensures { log.new.tally ≡ log.old.tally }
    {
        let station = self.holdings.job(name)?;
        let job = ShownJob { name, station };
        write!(log.text, "{job}")?;
        Ok(())
    }

    // The journal, in final order.
    fn show_journal(&self, log: &mut Log) -> Result<(), Fault>
        ensures { log.new.tally ≡ log.old.tally }
    {
        let jobs = self.registrar.jobs;
        let lines = self.store.lines.as_slice();
        writeln!(log.text, "journal: {jobs} jobs")?;
        for head in self.store.heads.iter().take(jobs) {
            let head = ShownHead { head, lines };
            write!(log.text, "{head}")?;
        }
        Ok(())
    }

    // An image that was published.
    fn show_image(&self, log: &mut Log, number: usize) -> Result<(), Fault>
        ensures tally { log.new.tally ≡ log.old.tally }
        ensures missing { length self.now.images.items ≤ number → result ≡ Err (NoCall NoImage) }
    {
        let published = self.images.get(number).ok_or(Reason::NoImage)?;
        let image = ShownImage(published);
        write!(log.text, "{image}")?;
        Ok(())
    }

    // Prints a state, which no tally counts.
    pub fn show(&self, log: &mut Log, view: &View<'_>) -> Result<(), Fault>
        ensures tally { log.new.tally ≡ log.old.tally }
        ensures record { (r : ℕ) → view.now ≡ View.Row r → length self.now.store.rows.items ≤ r → result ≡ Err (NoCall NoRecord) }
        ensures image { (i : ℕ) → view.now ≡ View.Image i → length self.now.images.items ≤ i → result ≡ Err (NoCall NoImage) }
    {
        match view {
            View::Row { record } => self.show_record(log, *record),
            View::Job { name } => self.show_named(log, name),
            View::Journal => self.show_journal(log),
            View::Image { number } => self.show_image(log, *number),
        }
    }
}
