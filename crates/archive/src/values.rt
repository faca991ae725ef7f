// Values in an archive.
ghost use Rattle.std.specs.Prelude.{◌≡◌, ◌+◌, ◌*◌, ◌<◌, ◌≤◌, length};
ghost use Rattle.archive.specs.Values.{read_value, read_values};

use crate::fault::Fault;
use crate::rows::form;
use kinds::value::Record;

// The value at a place.
pub(crate) fn value<R: Record>(bytes: &[u8], at: usize) -> Result<R, Fault>
    requires { at + 12 ≤ length bytes.now }
    ensures { result ≡ read_value R.Record.kind.form bytes.now at }
{
    R::from_bytes(form(bytes, at)).ok_or(Fault::ValueWrong { place: at })
}

// Checks so many values, each so many bytes after the one before.
pub(crate) fn values<R: Record>(
    bytes: &[u8],
    at: usize,
    step: usize,
    count: usize,
) -> Result<(), Fault>
    requires { (12 ≤ step) × ((step < 256) × (at + step * count + 12 ≤ length bytes.now + step)) }
    ensures { result ≡ read_values R.Record.kind.form bytes.now at step count }
{
    for here in (at..at + step * count).step_by(step) {
        value::<R>(bytes, here)?;
    }
    Ok(())
}
