// A row of the code of a pile.
ghost use Rattle.std.specs.Prelude.{◌≡◌, IfOk};
ghost use Rattle.codes.specs.Matrix.{row_at};
ghost use Rattle.piles.specs.Piles.{pile_code, Told};

use crate::pile::Pile;
use crate::task::{Task, with_code};
use codes::{Code, Refusal};
use std::alloc::{AllocError, Global};

// Asks a code for the columns of a row.
#[derive(Drop)]
pub(crate) struct AskRow {
    heap: Global,
    r: usize,
}

// The columns of row r, in their order: the clause that the task below hands on.
fn columns<C: Code>(heap: Global, code: &C, r: usize) -> Result<Vec<usize>, AllocError>
    ensures { IfOk result (λ v. v.items ≡ row_at (C.Rows.matrix code.now) r) }
{
    code.row(r).collect(heap)
}

impl Task for AskRow {
    type Out = Result<Vec<usize>, AllocError>;

    ghost does = { λ s k x t. IfOk x (λ v. v.items ≡ row_at k s.r) };

    fn run<C: Code>(&mut self, code: &C) -> Result<Vec<usize>, AllocError> {
        columns(self.heap, code, self.r)
    }
}

// The columns of row r of the code of a pile, or why there is none.
pub fn row_of(
    heap: Global,
    pile: &Pile,
    r: usize,
) -> Result<Result<Vec<usize>, AllocError>, Refusal>
    ensures { Told (λ k x. IfOk x (λ c. c.items ≡ row_at k r)) (pile_code pile.now) result }
{
    let mut task = AskRow { heap, r };
    with_code(pile, &mut task)
}
