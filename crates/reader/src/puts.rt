// The puts of a job.
ghost use Rattle.std.specs.Prelude.{◌≡◌, ◌+◌, ◌≤◌, length};
ghost use Rattle.std.specs.List.{slice_get};
ghost use Rattle.std.specs.Option.{option_map};
ghost use Rattle.std.specs.Iterator.{YieldsFirstBy, item_count};
ghost use Rattle.archive.specs.Journal.{stated_puts};
ghost use Rattle.reader.specs.Readable.{ReadablePuts};
ghost use Rattle.reader.specs.Shown.{entered_put, put_at, put_shown};

use crate::forms::{form, record_at};
use kinds::stamp::Stamp;
use kinds::value::Record;
use std::marker::{Model, PhantomData};

// A put: the record, and the value that it got.
#[derive(Clone, Copy, Debug, Drop, PartialEq, Eq)]
pub struct Put<R> {
    pub number: usize,
    pub value: R,
}

impl<R: Record> Put<R> {
    // The put at a place, if a value stands there.
    fn read(bytes: &[u8], at: usize) -> Option<Put<R>>
        requires { at + 14 ≤ length bytes.now }
        ensures { result ≡ put_at R.Record.kind.form bytes.now at }
    {
        let value = R::from_bytes(form(bytes, at + 2))?;
        Some(Put {
            number: record_at(bytes, at),
            value,
        })
    }
}

// Goes over the puts of a job, in the order in which they were made. A clause sees those that are still to come.
#[derive(Drop)]
pub struct Puts<'a, S: Stamp, R: Record> {
    bytes: &'a [u8],
    at: usize,
    left: usize,
    stamps: PhantomData<S>,
    values: PhantomData<R>,
}

impl<'a, S: Stamp, R: Record> Model for Puts<'a, S, R> {
    ghost use Rattle.std.specs.Prelude.{List};
    ghost use Rattle.law.specs.Daybook.{Put as EnteredPut};

    ghost Value = { List (EnteredPut R) };

    ghost use Rattle.archive.specs.Journal.{stated_puts};
    ghost use Rattle.reader.specs.Readable.{ReadablePuts};

    ghost view = { λ a. stated_puts S.Stamp.kind.order R.Record.kind.form a.bytes.now a.at a.left };

    ghost invariant = { λ a. ReadablePuts R.Record.kind.form a.bytes.now a.at a.left };
}

impl<'a, S: Stamp, R: Record> Puts<'a, S, R> {
    // So many puts from a place on.
    pub(crate) fn new(bytes: &'a [u8], at: usize, left: usize) -> Puts<'a, S, R>
        requires { ReadablePuts R.Record.kind.form bytes.now at left }
        ensures { result ≡ stated_puts S.Stamp.kind.order R.Record.kind.form bytes.now at left }
    {
        Puts {
            bytes,
            at,
            left,
            stamps: PhantomData,
            values: PhantomData,
        }
    }

    // How many puts are still to come.
    pub fn len(&self) -> usize
        ensures { result ≡ length self.now }
    {
        self.left
    }

    // The put at a place of those that are still to come, counted from 0, if there are so many.
    pub fn get(&self, i: usize) -> Option<Put<R>>
        ensures { result ≡ option_map put_shown (slice_get self.now i) }
    {
        if i >= self.left {
            return None;
        }
        Put::read(self.bytes, self.at + 14 * i)
    }
}

impl<'a, S: Stamp, R: Record> Iterator for Puts<'a, S, R> {
    type Item = Put<R>;

    ghost next_gives = { YieldsFirstBy entered_put (λ rest. rest) };

    ghost remaining = { item_count (λ rest. rest) };

    fn next(&mut self) -> Option<Put<R>> {
        if self.left == 0 {
            return None;
        }
        let put = Put::read(self.bytes, self.at);
        self.at += 14;
        self.left -= 1;
        put
    }
}
