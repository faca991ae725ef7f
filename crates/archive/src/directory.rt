// The directory of an archive.
ghost use Rattle.std.specs.Prelude.{◌≡◌, ◌+◌, ◌*◌, ◌<◌, ◌≤◌, length, IfOk};
ghost use Rattle.kinds.specs.Bytes.{number4, part};
ghost use Rattle.archive.specs.Heading.{Limited};
ghost use Rattle.archive.specs.Rule.{ended};
ghost use Rattle.archive.specs.Directory.{read_pair, read_pairs, read_directory};

use crate::fault::Fault;
use crate::heading::Heading;
use crate::rows::form;
use crate::whole::Archive;

// The number in the 4 bytes at a place. It is cast, since a `u32` has no `From` for a `usize`.
pub(crate) fn number_at(bytes: &[u8], at: usize) -> usize
    requires { at + 4 ≤ length bytes.now }
    ensures value { result ≡ number4 (part bytes.now at 4) }
    ensures small { result < 4294967296 }
{
    u32::from_be_bytes(form(bytes, at)) as usize
}

// Where the part of the pair at a place ends. The part starts where the one before ended; the last ends with the archive.
pub(crate) fn pair(bytes: &[u8], at: usize, from: usize, last: bool) -> Result<usize, Fault>
    requires { at < 1000000 }
    ensures { result ≡ read_pair bytes.now at from last }
{
    let wrong = Fault::PairWrong { place: at };
    if bytes.len() < at + 8 {
        return Err(wrong);
    }
    if number_at(bytes, at) != from {
        return Err(wrong);
    }
    let end = from + number_at(bytes, at + 4);
    if end > bytes.len() || last && end != bytes.len() {
        return Err(wrong);
    }
    Ok(end)
}

// The pairs of so many jobs, whose first block starts at a place; the answer is where the last ends.
fn pairs(bytes: &[u8], first: usize, jobs: usize) -> Result<usize, Fault>
    requires { jobs ≤ 4096 }
    ensures { result ≡ read_pairs bytes.now 20 first jobs }
{
    let mut from = first;
    let end = 20 + 8 * jobs;
    for at in (20..end).step_by(8) {
        from = pair(bytes, at, from, at + 8 == end)?;
    }
    Ok(from)
}

// Checks the directory: the pair of the opening values, then those of the jobs. The last part ends with the archive.
pub(crate) fn directory(bytes: &[u8], stated: Heading) -> Result<Archive<'_>, Fault>
    requires { Limited stated }
    ensures answer { ended result ≡ read_directory bytes.now stated.records stated.jobs }
    ensures archive { IfOk result (λ a. (a.bytes.now ≡ bytes.now) × (a.stated ≡ stated)) }
{
    let start = 20 + 8 * stated.jobs;
    let first = pair(bytes, 12, start, stated.jobs == 0)?;
    if first != start + 12 * stated.records {
        return Err(Fault::PairWrong { place: 12 });
    }
    let _ = pairs(bytes, first, stated.jobs)?;
    Ok(Archive { bytes, stated })
}
