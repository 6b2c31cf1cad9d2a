// The pair of active columns of a row that holds just two.
ghost use Rattle.std.specs.Prelude.{◌≡◌};
ghost use Rattle.codes.specs.Matrix.{row_at};
ghost use Rattle.method.specs.Sets.{marked};
ghost use Rattle.method.specs.Choices.{pair_of};
ghost use Rattle.policies.specs.Shown.{shown};

use crate::columns::Columns;
use codes::Code;

// The two active columns of row r, where it has just two; the row is read up to a third.
pub(crate) fn pair_of<C: Code>(code: &C, active: &Columns, r: usize) -> Option<(usize, usize)>
    ensures { result ≡ pair_of (marked (shown active.now) (row_at (C.Rows.matrix code.now) r)) }
{
    let mut columns = code.row(r).filter(|c| active.has(*c));
    let x = columns.next()?;
    let y = columns.next()?;
    columns.next().is_none().then_some((x, y))
}
