// A job of an archive.
ghost use Rattle.std.specs.Prelude.{◌≡◌, ◌+◌, slice_index};
ghost use Rattle.std.specs.Option.{option_map};
ghost use Rattle.archive.specs.Blocks.{stamp_at};
ghost use Rattle.archive.specs.Journal.{stated_job};
ghost use Rattle.reader.specs.Readable.{Readable};

use crate::forms::{form, number_at};
use crate::looks::Looks;
use crate::puts::Puts;
use kinds::stamp::Stamp;
use kinds::value::Record;
use std::marker::{Model, PhantomData};

// A job of the journal, lent from the bytes of its block. A clause sees the accepted job.
#[derive(Drop)]
pub struct Job<'a, S: Stamp, R: Record> {
    bytes: &'a [u8],
    at: usize,
    stamp: S,
    ticket: u32,
    looks: usize,
    puts: usize,
    values: PhantomData<R>,
}

impl<'a, S: Stamp, R: Record> Model for Job<'a, S, R> {
    ghost use Rattle.law.specs.Daybook.{AcceptedJob};

    ghost Value = { AcceptedJob S R };

    ghost use Rattle.std.specs.Prelude.{◌+◌, ◌*◌};
    ghost use Rattle.archive.specs.Journal.{stated_looks, stated_puts};
    ghost use Rattle.reader.specs.Readable.{Readable};

    ghost view = { λ a. record { stamp = a.stamp; ticket = a.ticket; looks = stated_looks S.Stamp.kind.order R.Record.kind.form a.bytes.now (a.at + 16) a.looks; puts = stated_puts S.Stamp.kind.order R.Record.kind.form a.bytes.now (a.at + 16 + 22 * a.looks) a.puts } };

    ghost invariant = { λ a. Readable S.Stamp.kind.order R.Record.kind.form a.bytes.now a.at a.looks a.puts };
}

impl<'a, S: Stamp, R: Record> Job<'a, S, R> {
    // The job of the block at a place, if a stamp stands there.
    pub(crate) fn read(bytes: &'a [u8], at: usize) -> Option<Job<'a, S, R>>
        requires { Readable S.Stamp.kind.order R.Record.kind.form bytes.now at (slice_index bytes.now (at + 12)) (slice_index bytes.now (at + 13)) }
        ensures { result ≡ option_map (stated_job S.Stamp.kind.order R.Record.kind.form bytes.now at) (stamp_at S.Stamp.kind.order bytes.now at) }
    {
        let stamp = S::from_bytes(form(bytes, at))?;
        Some(Job {
            bytes,
            at,
            stamp,
            ticket: number_at(bytes, at + 8),
            looks: usize::from(bytes[at + 12]),
            puts: usize::from(bytes[at + 13]),
            values: PhantomData,
        })
    }

    // Its stamp: its place in the final order.
    pub fn stamp(&self) -> S
        ensures { result ≡ self.now.stamp }
    {
        self.stamp
    }

    // The ticket under which it was submitted.
    pub fn ticket(&self) -> u32
        ensures { result ≡ self.now.ticket }
    {
        self.ticket
    }

    // Its noted looks, in the order in which they were made.
    pub fn looks(&self) -> Looks<'a, S, R>
        ensures { result ≡ self.now.looks }
    {
        Looks::new(self.bytes, self.at + 16, self.looks)
    }

    // Its puts, in the order in which they were made.
    pub fn puts(&self) -> Puts<'a, S, R>
        ensures { result ≡ self.now.puts }
    {
        Puts::new(self.bytes, self.at + 16 + 22 * self.looks, self.puts)
    }
}
