// The sizes of the code of a pile.
ghost use Rattle.std.specs.Prelude.{◌≡◌, ◌≤◌, IfOk};
ghost use Rattle.codes.specs.Refusals.{told};
ghost use Rattle.codes.specs.Shapes.{shape_of};
ghost use Rattle.piles.specs.Piles.{pile_code, shape_told};

use crate::pile::Pile;
use crate::task::{Task, with_code};
use codes::{Code, Refusal, Shape};

// Asks a code its sizes.
#[derive(Clone, Copy)]
pub(crate) struct AskSizes;

impl Task for AskSizes {
    type Out = Shape;

    ghost does = { λ s k x t. (x ≡ shape_of k) × (x.rows ≤ 256) };

    fn run<C: Code>(&mut self, code: &C) -> Shape {
        code.shape()
    }
}

// The sizes of the code of a pile, or why there is none.
pub fn sizes_of(pile: &Pile) -> Result<Shape, Refusal>
    ensures sizes { told result ≡ shape_told (pile_code pile.now) }
    ensures few { IfOk result (λ s. s.rows ≤ 256) }
{
    let mut task = AskSizes;
    with_code(pile, &mut task)
}
