// Founding a register.
ghost use Rattle.std.specs.Prelude.{◌≡◌, length};
ghost use Rattle.model.specs.Rows.{founded_row};
ghost use Rattle.registrar.specs.Registry.{founded_rows, found as found_by};
ghost use Rattle.registrar.specs.Calls.{registry_left, registry_in, no_numbers, founded_as};

use crate::bundle::Tables;
use crate::registrar::Registrar;
use kinds::stamp::Stamp;
use model::refusal::Refusal;
use model::row::Row;

// A row at founding: its opening value, with the least stamp as its read stamp and its only version.
fn new_row<S: Stamp, R: Copy>(value: R, row: &Row<S, R>) -> Row<S, R>
    ensures { result ≡ founded_row S.Stamp.kind.order value row.now }
{
    let least = S::least();
    Row {
        value,
        read: least,
        count: 1,
        one: least,
        ..*row
    }
}

// Each row gets its opening value. One side goes by index: after a `zip` over `iter_mut` a proof knows nothing
// of what was written (tried).
fn new_rows<S: Stamp, R: Copy>(rows: &mut [Row<S, R>], values: &[R])
    requires { length rows.old ≡ length values.now }
    ensures { rows.new ≡ founded_rows S.Stamp.kind.order values.now rows.old }
{
    for (i, row) in rows.iter_mut().enumerate() {
        *row = new_row(values[i], row);
    }
}

impl Registrar {
    // A register of these opening values, with no job and no image yet.
    pub fn found<S: Stamp, R: Copy>(
        values: &[R],
        tables: Tables<'_, S, R>,
    ) -> Result<Registrar, Refusal>
        ensures { founded_as result (registry_left no_numbers tables.exit) ≡ found_by S.Stamp.kind.order values.now (registry_in no_numbers tables.entry) }
    {
        if !tables.fit(values.len()) {
            return Err(Refusal::WrongTables);
        }
        new_rows(tables.rows, values);
        tables.firsts.fill(None);
        tables.opening.copy_from_slice(values);
        Ok(Registrar {
            records: values.len(),
            cycle: 0,
            tickets: 0,
            oldest: 0,
            waiting: 0,
            outcomes: 0,
            jobs: 0,
        })
    }
}
