// An archive whose directory is right.
ghost use Rattle.std.specs.Prelude.{◌≡◌, ◌+◌, ◌*◌, ◌≤◌, true, length, drop, is_ok};
ghost use Rattle.std.specs.Simd.{first_chunks};
ghost use Rattle.archive.specs.Heading.{Limited};
ghost use Rattle.archive.specs.Directory.{read_pairs};

use crate::heading::Heading;
use crate::rows::rows;

// The bytes of an archive, and what its heading states. The directory and the opening values are there
// whole, and the pairs of the jobs are right.
#[derive(Clone, Copy)]
pub struct Archive<'a> {
    pub bytes: &'a [u8],
    pub stated: Heading,
    ghost limited: { Limited stated },
    ghost long: { 20 + 8 * stated.jobs + 12 * stated.records ≤ length bytes.now },
    ghost paired: { is_ok (read_pairs bytes.now 20 (20 + 8 * stated.jobs + 12 * stated.records) stated.jobs) ≡ true },
}

impl Archive<'_> {
    // Where the opening values start, behind the directory.
    pub fn start(&self) -> usize
        ensures { result ≡ 20 + 8 * self.now.stated.jobs }
    {
        20 + 8 * self.stated.jobs
    }

    // Where the first block starts, behind the opening values.
    pub(crate) fn first(&self) -> usize
        ensures { result ≡ 20 + 8 * self.now.stated.jobs + 12 * self.now.stated.records }
    {
        self.start() + 12 * self.stated.records
    }

    // The pairs of the jobs.
    pub(crate) fn pairs(&self) -> &[[u8; 8]]
        ensures rows { result.now ≡ first_chunks 8 self.now.stated.jobs (drop 20 self.now.bytes.now) }
        ensures many { length result.now ≡ self.now.stated.jobs }
    {
        rows(self.bytes, 20, self.stated.jobs)
    }

    // The opening values, in their bytes.
    pub(crate) fn opening(&self) -> &[[u8; 12]]
        ensures rows { result.now ≡ first_chunks 12 self.now.stated.records (drop (20 + 8 * self.now.stated.jobs) self.now.bytes.now) }
        ensures many { length result.now ≡ self.now.stated.records }
    {
        rows(self.bytes, self.start(), self.stated.records)
    }
}
