// The inspection of what a reader gives.
ghost use Rattle.std.specs.Prelude.{◌≡◌, IfOk, IfSome, string_bytes};
ghost use Rattle.inspection.specs.Findings.{found, finding_line};

use crate::finding::{Finding, LIMIT, find};
use std::alloc::{AllocError, Global};
use std::io;
use std::io::Read;

// The line that tells what was found.
pub fn line(heap: Global, finding: Finding) -> Result<String, AllocError>
    ensures { IfOk result (λ t. string_bytes t ≡ finding_line finding) }
{
    format!(in heap; "{finding}\n")
}

// Reads what is to be inspected, and tells what was found. No more is read than one byte past the limit, which is
// enough to tell that there is more.
pub fn inspect_input<R: Read + Drop>(heap: Global, reader: R) -> io::Result<String>
    ensures { IfOk result (λ t. IfSome (R.Read.remaining reader) (λ bs. string_bytes t ≡ finding_line (found bs))) }
{
    let mut bytes = Vec::new(heap);
    reader.take(LIMIT as u64 + 1).read_to_end(&mut bytes)?;
    Ok(line(heap, find(&bytes))?)
}
