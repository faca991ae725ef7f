// Reading and writing many places of a table at once.
ghost use Rattle.std.specs.Prelude.{◌≡◌, ◌+◌, ◌*◌, ◌≤◌, length, take, drop};
ghost use Rattle.model.specs.Tables.{laid_from};

// New contents from a place on; the other places keep theirs. The archive has a function that says the same of
// bytes: a public one for both would ask its callers for room, which no public function does.
pub(crate) fn lay<T: Copy>(table: &mut [T], place: usize, new: &[T])
    requires { place + length new.now ≤ length table.old }
    ensures { table.new ≡ laid_from place new.now table.old }
{
    table[place..place + new.len()].copy_from_slice(new);
}

// A block of 16 places of a table, by its number.
pub(crate) fn block<T>(table: &[T], number: usize) -> &[T]
    requires { 16 * number + 16 ≤ length table.now }
    ensures { result.now ≡ take 16 (drop (16 * number) table.now) }
{
    let start = 16 * number;
    &table[start..start + 16]
}
