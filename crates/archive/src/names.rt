// Record numbers in a block.
ghost use Rattle.std.specs.Prelude.{◌≡◌, ◌+◌, ◌≤◌, length, map, take};
ghost use Rattle.archive.specs.Names.{all_below, apart, beyond, names_right};
ghost use Rattle.kinds.specs.Bytes.{number2, part};

use crate::rows::form;

// The record number in the 2 bytes at a place.
pub(crate) fn record_at(bytes: &[u8], at: usize) -> u16
    requires { at + 2 ≤ length bytes.now }
    ensures { result ≡ number2 (part bytes.now at 2) }
{
    u16::from_be_bytes(form(bytes, at))
}

// Whether each is below a bound.
fn are_below(names: &[u16], n: usize) -> bool
    ensures { result ≡ all_below n names.now }
{
    names.iter().all(|x| usize::from(*x) < n)
}

// Whether none stands twice.
fn are_apart(names: &[u16]) -> bool
    ensures { result ≡ apart names.now }
{
    match names {
        [] => true,
        [first, rest @ ..] => !rest.contains(first) && are_apart(rest),
    }
}

// How many of the second are not among the first.
fn count_beyond(names: &[u16], more: &[u16]) -> usize
    ensures value { result ≡ beyond names.now more.now }
    ensures bound { result ≤ length more.now }
{
    more.iter().filter(|x| !names.contains(*x)).count()
}

// Whether the numbers of looks and puts may stand in a block of a register of n records.
pub(crate) fn names_fit(n: usize, looks: &[u16], puts: &[u16]) -> bool
    requires { (length looks.now ≤ 16) × (length puts.now ≤ 16) }
    ensures { result ≡ names_right n looks.now puts.now }
{
    are_below(looks, n)
        && are_below(puts, n)
        && are_apart(looks)
        && are_apart(puts)
        && looks.len() + count_beyond(looks, puts) <= 16
}

// The record numbers of some rows: the first 2 bytes of each. This crate has no heap, so they lie in an array
// with room for the most that a block has.
#[inline(always)]
pub(crate) fn gather<const N: usize>(rows: &[[u8; N]]) -> [u16; 16]
    requires { (2 ≤ N) × (length rows.now ≤ 16) }
    ensures { take (length rows.now) result ≡ map number2 rows.now }
{
    let mut names = [0; 16];
    for (i, row) in rows.iter().enumerate() {
        names[i] = record_at(row, 0);
    }
    names
}
