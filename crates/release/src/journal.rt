// What is counted in a journal.
ghost use Rattle.std.specs.Prelude.{◌≡◌};
ghost use Rattle.release.specs.Journals.{equal_pairs as pairs_of, early, early_jobs as early_of};

use crate::tally::one_more;
use kinds::bounds::same;
use kinds::stamp::Stamp;
use registrar::journal::Head;

// How many jobs have the stamp of the job before them.
pub fn equal_pairs<S: Stamp>(heads: &[Head<S>]) -> usize
    ensures { result ≡ pairs_of S.Stamp.kind.order heads.now }
{
    let followers = heads.iter().skip(1);
    heads
        .iter()
        .zip(followers)
        .filter(|(head, next)| same(head.stamp, next.stamp))
        .count()
}

// Whether a job was accepted later than some job behind it: a job's place among the lines is its place in the order of
// acceptance.
fn is_early<S: Copy>(head: &Head<S>, behind: &[Head<S>]) -> bool
    ensures { result ≡ early head.now behind.now }
{
    behind.iter().any(|other| other.place < head.place)
}

// How many jobs stand before a job that was accepted earlier.
pub fn early_jobs<S: Copy>(heads: &[Head<S>]) -> u64
    ensures { result ≡ early_of heads.now }
{
    match heads {
        [] => 0,
        [head, behind @ ..] if is_early(head, behind) => one_more(early_jobs(behind)),
        [_, behind @ ..] => early_jobs(behind),
    }
}
