// The noted looks of a job.
ghost use Rattle.std.specs.Prelude.{◌≡◌, ◌+◌, ◌≤◌, length};
ghost use Rattle.std.specs.List.{slice_get};
ghost use Rattle.std.specs.Option.{option_map};
ghost use Rattle.std.specs.Iterator.{YieldsFirstBy, item_count};
ghost use Rattle.archive.specs.Journal.{stated_looks};
ghost use Rattle.reader.specs.Readable.{ReadableLooks};
ghost use Rattle.reader.specs.Shown.{look_at, look_shown, noted_look};

use crate::forms::{form, record_at};
use kinds::stamp::Stamp;
use kinds::value::Record;
use std::marker::{Model, PhantomData};

// A noted look: the record, and the write stamp and the value that it showed.
#[derive(Clone, Copy, Debug, Drop, PartialEq, Eq)]
pub struct Look<S, R> {
    pub number: usize,
    pub stamp: S,
    pub value: R,
}

impl<S: Stamp, R: Record> Look<S, R> {
    // The look at a place, if a stamp and a value stand there.
    fn read(bytes: &[u8], at: usize) -> Option<Look<S, R>>
        requires { at + 22 ≤ length bytes.now }
        ensures { result ≡ look_at S.Stamp.kind.order R.Record.kind.form bytes.now at }
    {
        let stamp = S::from_bytes(form(bytes, at + 2))?;
        let value = R::from_bytes(form(bytes, at + 10))?;
        Some(Look {
            number: record_at(bytes, at),
            stamp,
            value,
        })
    }
}

// Goes over the looks of a job, in the order in which they were made. A clause sees those that are still to come.
#[derive(Drop)]
pub struct Looks<'a, S: Stamp, R: Record> {
    bytes: &'a [u8],
    at: usize,
    left: usize,
    stamps: PhantomData<S>,
    values: PhantomData<R>,
}

impl<'a, S: Stamp, R: Record> Model for Looks<'a, S, R> {
    ghost use Rattle.std.specs.Prelude.{List};
    ghost use Rattle.law.specs.Daybook.{Look as NotedLook};

    ghost Value = { List (NotedLook S R) };

    ghost use Rattle.archive.specs.Journal.{stated_looks};
    ghost use Rattle.reader.specs.Readable.{ReadableLooks};

    ghost view = { λ a. stated_looks S.Stamp.kind.order R.Record.kind.form a.bytes.now a.at a.left };

    ghost invariant = { λ a. ReadableLooks S.Stamp.kind.order R.Record.kind.form a.bytes.now a.at a.left };
}

impl<'a, S: Stamp, R: Record> Looks<'a, S, R> {
    // So many looks from a place on.
    pub(crate) fn new(bytes: &'a [u8], at: usize, left: usize) -> Looks<'a, S, R>
        requires { ReadableLooks S.Stamp.kind.order R.Record.kind.form bytes.now at left }
        ensures { result ≡ stated_looks S.Stamp.kind.order R.Record.kind.form bytes.now at left }
    {
        Looks {
            bytes,
            at,
            left,
            stamps: PhantomData,
            values: PhantomData,
        }
    }

    // How many looks are still to come.
    pub fn len(&self) -> usize
        ensures { result ≡ length self.now }
    {
        self.left
    }

    // The look at a place of those that are still to come, counted from 0, if there are so many.
    pub fn get(&self, i: usize) -> Option<Look<S, R>>
        ensures { result ≡ option_map look_shown (slice_get self.now i) }
    {
        if i >= self.left {
            return None;
        }
        Look::read(self.bytes, self.at + 22 * i)
    }
}

impl<'a, S: Stamp, R: Record> Iterator for Looks<'a, S, R> {
    type Item = Look<S, R>;

    ghost next_gives = { YieldsFirstBy noted_look (λ rest. rest) };

    ghost remaining = { item_count (λ rest. rest) };

    fn next(&mut self) -> Option<Look<S, R>> {
        if self.left == 0 {
            return None;
        }
        let look = Look::read(self.bytes, self.at);
        self.at += 22;
        self.left -= 1;
        look
    }
}
