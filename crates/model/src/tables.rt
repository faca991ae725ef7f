// Tables that callers bring: their sizes, and reading and writing their places.
ghost use Rattle.std.specs.Prelude.{◌≡◌, ◌≤◌, true, slice_set, take};
ghost use Rattle.std.specs.List.{slice_get};
ghost use Rattle.model.specs.Tables.{lawful_size};

// Whether a register may have that many records: 1 to 1,024.
pub fn lawful(records: usize) -> bool
    ensures told { result ≡ lawful_size records }
    ensures bounds { result ≡ true → (1 ≤ records) × (records ≤ 1024) }
{
    (1..=1024).contains(&records)
}

// What stands at a place, if the table has it.
pub fn at<T: Copy>(table: &[T], place: usize) -> Option<T>
    ensures { result ≡ slice_get table.now place }
{
    table.get(place).copied()
}

// A new content at a place, if the table has it; every other place keeps its content.
pub fn store<T: Copy>(table: &mut [T], place: usize, content: T)
    ensures { table.new ≡ slice_set table.old place content }
{
    if place < table.len() {
        table[place] = content;
    }
}

// The first places of a table, so many of them, or all where it has fewer.
pub fn front<T>(table: &[T], count: usize) -> &[T]
    ensures { result.now ≡ take count table.now }
{
    table.get(..count).unwrap_or(table)
}
