// The journal of accepted jobs.
ghost use Rattle.std.specs.Prelude.{◌≡◌, ◌<◌, ◌≤◌, length, take};
ghost use Rattle.std.specs.List.{insert};
ghost use Rattle.model.specs.Tables.{laid};
ghost use Rattle.registrar.specs.Calls.{head_of as head_as};
ghost use Rattle.registrar.specs.Registry.{entered, ahead, reached as reached_by, stepped as stepped_by};

use kinds::bounds::before;
use kinds::stamp::Stamp;
use model::tables::at;

// An accepted job in the journal: its stamp, its ticket, and which of the places for lines has its
// entries, and how many: the caller brings the table of lines. Heads are small, since an entry late in time and early in
// order moves all that are behind it.
#[derive(Clone, Copy)]
pub struct Head<S> {
    pub stamp: S,
    pub ticket: u32,
    pub place: u16,
    pub count: u8,
}

// The head of a job whose entries are laid at a place.
pub(crate) fn head_of<S: Copy>(stamp: S, ticket: u32, place: usize, count: usize) -> Head<S>
    requires place { place < 65536 }
    requires count { count < 256 }
    ensures { result ≡ head_as stamp ticket place count }
{
    Head {
        stamp,
        ticket,
        place: place as u16,
        count: count as u8,
    }
}

// The steps of the search for a place: from half the longest journal down to 1.
const STEPS: [usize; 12] = [2048, 1024, 512, 256, 128, 64, 32, 16, 8, 4, 2, 1];

// Whether there are so many heads, and the last of them is not after a stamp.
fn reached<S: Stamp>(heads: &[Head<S>], stamp: S, count: usize) -> bool
    ensures { result ≡ reached_by S.Stamp.kind.order stamp heads.now count }
{
    count
        .checked_sub(1)
        .and_then(|last| at(heads, last))
        .is_some_and(|head| !before(stamp, head.stamp))
}

// A place, and one step further where the end of the step is reached.
fn stepped<S: Stamp>(heads: &[Head<S>], stamp: S, place: usize, step: usize) -> usize
    ensures { result ≡ stepped_by S.Stamp.kind.order stamp heads.now place step }
{
    match place.checked_add(step) {
        Some(end) if reached(heads, stamp, end) => end,
        _ => place,
    }
}

// How many heads stand ahead of a stamp: in a journal in final order, all that are not after it.
fn place_of<S: Stamp>(heads: &[Head<S>], stamp: S) -> usize
    ensures place { result ≡ ahead S.Stamp.kind.order stamp heads.now }
    ensures within { result ≤ length heads.now }
{
    STEPS
        .iter()
        .fold(0, |place, step| stepped(heads, stamp, place, *step))
}

// A content among the first n at a place; those from the place on move up by one.
fn insert_at<T: Copy>(table: &mut [T], n: usize, place: usize, content: T)
    requires within { place ≤ n }
    requires room { n < length table.old }
    ensures { table.new ≡ laid (insert (take n table.old) place content) table.old }
{
    table[n] = content;
    table[place..n + 1].rotate_right(1);
}

// A head entered among the first n: in final order, behind every head whose stamp is not after.
pub(crate) fn record<S: Stamp>(heads: &mut [Head<S>], n: usize, head: Head<S>)
    requires { n < length heads.old }
    ensures { heads.new ≡ laid (entered S.Stamp.kind.order head (take n heads.old)) heads.old }
{
    let place = place_of(&heads[..n], head.stamp);
    insert_at(heads, n, place, head);
}
