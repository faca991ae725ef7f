// Whether a play ended at the register.
ghost use Rattle.std.specs.Prelude.{◌↔◌, IsTrue};
ghost use Rattle.std.specs.List.{AllZip};
ghost use Rattle.kinds.specs.Values.{SameValue};

use kinds::value::{Record, same_value};
use model::row::Row;

// Whether rows and values are as many, and every row's value counts as the same as the value at its place.
pub fn alike<S: Copy, R: Record>(rows: &[Row<S, R>], values: &[R]) -> bool
    ensures { IsTrue result ↔ AllZip (λ row value. SameValue R.Record.kind row.value value) rows.now values.now }
{
    match (rows, values) {
        ([], []) => true,
        ([row, rows @ ..], [value, values @ ..]) => {
            same_value(row.value, *value) && alike(rows, values)
        }
        ([], [_, ..]) | ([_, ..], []) => false,
    }
}
