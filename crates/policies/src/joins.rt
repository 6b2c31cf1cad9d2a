// The sets that unused rows with two active columns join.
ghost use Rattle.std.specs.Prelude.{◌≡◌, length};
ghost use Rattle.codes.specs.Matrix.{height};
ghost use Rattle.method.specs.Choices.{joins, largest};
ghost use Rattle.policies.specs.Drawings.{Drawn};
ghost use Rattle.policies.specs.Shown.{shown};

use crate::columns::Columns;
use crate::forest::Forest;
use crate::pairs::pair_of;
use crate::top::top;
use codes::Code;

// The sets that rows join, where there is such a row: each row is read once, and none past the code's height.
fn draw<C: Code>(code: &C, active: &Columns, unused: &Columns) -> Option<Forest>
    ensures { Drawn (length (shown active.now)) (joins (C.Rows.matrix code.now) (shown active.now) (shown unused.now) (height (C.Rows.matrix code.now))) result }
{
    let mut forest: Option<Forest> = None;
    for r in 0..code.shape().rows {
        if unused.has(r) {
            if let Some((x, y)) = pair_of(code, active, r) {
                forest.get_or_insert_with(Forest::alone).join(x, y);
            }
        }
    }
    forest
}

// The lowest column of the largest set; none where no row joins two columns.
pub(crate) fn largest_joined<C: Code>(code: &C, active: &Columns, unused: &Columns) -> Option<usize>
    ensures { result ≡ largest (C.Rows.matrix code.now) (shown active.now) (shown unused.now) }
{
    let mut forest = draw(code, active, unused)?;
    top(&forest.sizes(active), active)
}
