// The heading of an archive.
ghost use Rattle.std.specs.Prelude.{◌≡◌, IfOk};
ghost use Rattle.archive.specs.Heading.{Limited, read_sizes, read_heading};

use crate::fault::Fault;
use kinds::stamp::Stamp;
use kinds::value::Record;
use model::tables::lawful;

// What a heading states: how many records and how many jobs. The definitions make one of any two numbers,
// so its limits are a fact with a name, and no ghost field.
#[derive(Clone, Copy)]
pub struct Heading {
    pub records: usize,
    pub jobs: usize,
}

// Reads the number of records and that of jobs, behind mark and kinds. The second is cast, as in the directory.
fn sizes(rest: &[u8]) -> Result<Heading, Fault>
    ensures answer { result ≡ read_sizes rest.now }
    ensures within { IfOk result Limited }
{
    let [n0, n1, j0, j1, j2, j3, ..] = rest else {
        return Err(Fault::HeadingWrong);
    };
    let records = u16::from_be_bytes([*n0, *n1]);
    let jobs = u32::from_be_bytes([*j0, *j1, *j2, *j3]);
    let records = usize::from(records);
    if !lawful(records) || jobs > 4096 {
        return Err(Fault::HeadingWrong);
    }
    Ok(Heading {
        records,
        jobs: jobs as usize,
    })
}

// The mark with which an archive begins.
pub const MARK: [u8; 4] = *b"ASJ1";

// Reads the heading: the mark, the two kinds, the number of records and that of jobs.
pub(crate) fn read_heading<S: Stamp, R: Record>(bytes: &[u8]) -> Result<Heading, Fault>
    ensures answer { result ≡ read_heading S.Stamp.kind.order.number R.Record.kind.number bytes.now }
    ensures within { IfOk result Limited }
{
    let [a, s, j, one, stamps, values, rest @ ..] = bytes else {
        return Err(Fault::HeadingWrong);
    };
    if [*a, *s, *j, *one] != MARK || *stamps != S::number() || *values != R::number() {
        return Err(Fault::HeadingWrong);
    }
    sizes(rest)
}
