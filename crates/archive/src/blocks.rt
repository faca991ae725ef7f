// The blocks of jobs.
ghost use Rattle.std.specs.Prelude.{◌≡◌, ◌+◌, ◌*◌, ◌<◌, ◌≤◌, length, IfOk, is_some};
ghost use Rattle.std.specs.List.{list_all};
ghost use Rattle.archive.specs.Blocks.{Whole, stamp_at, read_front, names_of, read_block, read_blocks};

use crate::directory::number_at;
use crate::fault::Fault;
use crate::lengths::is_length;
use crate::names::{gather, names_fit};
use crate::rows::{form, rows};
use crate::values::values;
use crate::whole::Archive;
use kinds::bounds::before;
use kinds::stamp::Stamp;
use kinds::value::Record;

// What the first 16 bytes of a block state: the stamp, how many looks and how many puts.
#[derive(Clone, Copy)]
pub struct Opened<S> {
    pub stamp: S,
    pub looks: usize,
    pub puts: usize,
}

// The stamp at a place, if its bytes are one.
fn stamp<S: Stamp>(bytes: &[u8], at: usize) -> Option<S>
    requires { at + 8 ≤ length bytes.now }
    ensures { result ≡ stamp_at S.Stamp.kind.order bytes.now at }
{
    S::from_bytes(form(bytes, at))
}

// The first 16 bytes of the block at a place, of a length, behind a block of a stamp.
pub(crate) fn front<S: Stamp>(
    bytes: &[u8],
    at: usize,
    len: usize,
    low: S,
) -> Result<Opened<S>, Fault>
    requires { at + len ≤ length bytes.now }
    ensures answer { result ≡ read_front S.Stamp.kind.order bytes.now at len low }
    ensures within { IfOk result (Whole bytes.now at) }
{
    let wrong = Fault::BlockWrong { place: at };
    if len < 16 {
        return Err(wrong);
    }
    let s = stamp::<S>(bytes, at).ok_or(wrong)?;
    if !before(S::least(), s) || before(s, low) || number_at(bytes, at + 8) < 1 {
        return Err(wrong);
    }
    let [looks, puts, 0, 0] = form::<4>(bytes, at + 12) else {
        return Err(wrong);
    };
    let looks = usize::from(looks);
    let puts = usize::from(puts);
    if !is_length(looks, puts, len) {
        return Err(wrong);
    }
    Ok(Opened {
        stamp: s,
        looks,
        puts,
    })
}

// Whether every look's stamp is one.
fn are_noted<S: Stamp>(looks: &[[u8; 22]]) -> bool
    ensures { result ≡ list_all (λ look. is_some (stamp_at S.Stamp.kind.order look 2)) looks.now }
{
    looks.iter().all(|look| stamp::<S>(look, 2).is_some())
}

// Whether the record numbers of a block, and the stamps of its looks, are right. It is inlined as are the rows below it:
// a block with few of them costs a quarter more otherwise.
#[inline(always)]
fn names<S: Stamp>(bytes: &[u8], n: usize, at: usize, h: Opened<S>) -> bool
    requires { Whole bytes.now at h }
    ensures { result ≡ names_of S.Stamp.kind.order bytes.now n at h.looks h.puts }
{
    let looks = rows::<22>(bytes, at + 16, h.looks);
    let puts = rows::<14>(bytes, at + 16 + 22 * h.looks, h.puts);
    names_fit(n, &gather(looks)[..h.looks], &gather(puts)[..h.puts]) && are_noted::<S>(looks)
}

// The whole block: all but the values, then the values.
fn block<S: Stamp, R: Record>(
    bytes: &[u8],
    n: usize,
    at: usize,
    len: usize,
    low: S,
) -> Result<Opened<S>, Fault>
    requires { at + len ≤ length bytes.now }
    ensures { result ≡ read_block S.Stamp.kind.order R.Record.kind.form bytes.now n at len low }
{
    let h = front(bytes, at, len, low)?;
    if !names(bytes, n, at, h) {
        return Err(Fault::BlockWrong { place: at });
    }
    values::<R>(bytes, at + 26, 22, h.looks)?;
    values::<R>(bytes, at + 18 + 22 * h.looks, 14, h.puts)?;
    Ok(h)
}

// The blocks of an archive; the answer is where the last ends. The replay and the play walk over them too: what
// each does at a block asks for other things, which one walk for all would have to ask of its callers.
pub(crate) fn blocks<S: Stamp, R: Record>(archive: &Archive<'_>) -> Result<usize, Fault>
    ensures { result ≡ read_blocks S.Stamp.kind.order R.Record.kind.form archive.now.bytes.now archive.now.stated.records 20 (20 + 8 * archive.now.stated.jobs + 12 * archive.now.stated.records) S.Stamp.kind.order.least archive.now.stated.jobs }
{
    let mut low = S::least();
    let mut from = archive.first();
    for pair in archive.pairs() {
        let len = number_at(pair, 4);
        let h = block::<S, R>(archive.bytes, archive.stated.records, from, len, low)?;
        low = h.stamp;
        from += len;
    }
    Ok(from)
}
