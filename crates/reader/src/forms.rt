// Numbers and values that stand at a place of an archive.
ghost use Rattle.std.specs.Prelude.{◌≡◌, ◌+◌, ◌≤◌, length};
ghost use Rattle.kinds.specs.Bytes.{number2, number4, part};
ghost use Rattle.archive.specs.Values.{read_value};

use archive::fault::Fault;
use kinds::value::Record;

// The N bytes at a place.
pub(crate) fn form<const N: usize>(bytes: &[u8], at: usize) -> [u8; N]
    requires { at + N ≤ length bytes.now }
    ensures { result ≡ part bytes.now at N }
{
    let mut form = [0; N];
    form.copy_from_slice(&bytes[at..at + N]);
    form
}

// The record number in the 2 bytes at a place.
pub(crate) fn record_at(bytes: &[u8], at: usize) -> usize
    requires { at + 2 ≤ length bytes.now }
    ensures { result ≡ number2 (part bytes.now at 2) }
{
    usize::from(u16::from_be_bytes(form(bytes, at)))
}

// The number in the 4 bytes at a place.
pub(crate) fn number_at(bytes: &[u8], at: usize) -> u32
    requires { at + 4 ≤ length bytes.now }
    ensures { result ≡ number4 (part bytes.now at 4) }
{
    u32::from_be_bytes(form(bytes, at))
}

// The value at a place.
pub(crate) fn value<R: Record>(bytes: &[u8], at: usize) -> Result<R, Fault>
    requires { at + 12 ≤ length bytes.now }
    ensures { result ≡ read_value R.Record.kind.form bytes.now at }
{
    R::from_bytes(form(bytes, at)).ok_or(Fault::ValueWrong { place: at })
}
