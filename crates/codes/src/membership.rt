// Whether a row holds a column, by a walk along the row: the same text for every code.
ghost use Rattle.std.specs.Prelude.{◌≡◌};
ghost use Rattle.codes.specs.Matrix.{holds};

use crate::code::Rows;

pub fn scan<C: Rows>(code: &C, r: usize, c: usize) -> bool
    ensures { result ≡ holds (C.Rows.matrix code.now) r c }
{
    let mut columns = code.row(r);
    columns.any(|k| k == c)
}
