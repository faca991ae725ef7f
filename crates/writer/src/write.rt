// Writes the archive of a registrar.
ghost use Rattle.std.specs.Prelude.{◌≡◌, take, IfOk};
ghost use Rattle.registrar.specs.Registry.{tables_sized};
ghost use Rattle.law.specs.HandOver.{registry_in_books};
ghost use Rattle.readback.specs.ReadsBack.{RunStatedBy};
ghost use Rattle.writer.specs.Written.{archive_size, written, writing_as};

use crate::journal::blocks_len;
use crate::unwritten::Unwritten;
use crate::whole::lay_archive;
use kinds::stamp::Stamp;
use kinds::value::Record;
use law::handover::Books;
use model::tables::{front, lawful};

// Whether every table has its length, for a register of this many records. A call's bundle has such a test of
// its own tables, which it may write.
fn fit<S, R>(books: &Books<'_, S, R>, records: usize) -> bool
    ensures { result ≡ tables_sized records (registry_in_books books.now) }
{
    lawful(records)
        && books.rows.len() == records
        && books.firsts.len() == records
        && books.opening.len() == records
        && books.queue.len() == 16
        && books.queued.len() == 256
        && books.outcomes.len() == 32
        && (1..=4096).contains(&books.heads.len())
        && books.lines.len() == 16 * books.heads.len()
}

// How many bytes the archive of a registrar takes.
pub fn size<S: Stamp, R: Record>(books: Books<'_, S, R>) -> Result<usize, Unwritten>
    ensures { result ≡ archive_size S.Stamp.kind.order R.Record.kind (registry_in_books books.entry) }
{
    if !fit(&books, books.registrar.records) {
        return Err(Unwritten::WrongTables);
    }
    let heads = front(books.heads, books.registrar.jobs);
    Ok(20 + 8 * heads.len() + 12 * books.opening.len() + blocks_len(books.lines, heads))
}

// Lays the archive at the front of a space that has room. What else write promises follows from this.
fn lay_down<S: Stamp, R: Record>(
    books: Books<'_, S, R>,
    space: &mut [u8],
) -> Result<usize, Unwritten>
    ensures { writing_as result space.new ≡ written S.Stamp.kind.order R.Record.kind (registry_in_books books.entry) space.old }
{
    let len = size(books)?;
    if space.len() < len {
        return Err(Unwritten::SpaceShort);
    }
    let heads = front(books.heads, books.registrar.jobs);
    lay_archive(space, books.opening, books.lines, heads);
    Ok(len)
}

// Writes the archive of a registrar's opening values and its journal at the front of a space, and answers its
// length. The rest of the space keeps its content. Whichever run led to these books, inspect accepts what was
// written, with the number of jobs as its answer, and it states these opening values and this journal, stamps and
// values up to counting alike.
pub fn write<S: Stamp, R: Record>(
    books: Books<'_, S, R>,
    space: &mut [u8],
) -> Result<usize, Unwritten>
    ensures answer { writing_as result space.new ≡ written S.Stamp.kind.order R.Record.kind (registry_in_books books.entry) space.old }
    ensures read_back { IfOk result (λ n. RunStatedBy S.Stamp.kind R.Record.kind (take n space.new) (registry_in_books books.entry)) }
{
    lay_down(books, space)
}
