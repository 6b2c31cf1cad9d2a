// A code over another one, with its rows and its columns turned.
ghost use Rattle.std.specs.Prelude.{◌≡◌, true};
ghost use Rattle.codes.specs.Shapes.{shape_of};
ghost use Rattle.layers.specs.LayerLaws.{interleaved_lawful};
ghost use Rattle.layers.specs.Layers.{squares_fit, interleaved, Fitted};

use crate::turning::turn;
use codes::{Code, Refusal, Rows, Shape, Squares};

// The code below, seen as these squares.
#[derive(PartialEq, Eq, Debug, Drop)]
pub struct Interleaved<C: Rows> {
    below: C,
    squares: Squares,
    ghost fit: { squares_fit squares.a squares.b squares.z (shape_of (C.Rows.matrix below)) ≡ true },
}

fn squares_fit(squares: Squares, shape: Shape) -> bool
    ensures { result ≡ squares_fit squares.a squares.b squares.z shape }
{
    let Squares { a, b, z } = squares;
    a.checked_mul(z) == Some(shape.rows) && b.checked_mul(z) == Some(shape.columns)
}

impl<C: Rows> Rows for Interleaved<C> {
    ghost matrix = { λ k. interleaved k.squares.a k.squares.b k.squares.z (C.Rows.matrix k.below) };

    ghost lawful = { λ k. interleaved_lawful k.squares.a k.squares.b k.squares.z (C.Rows.matrix k.below) (C.Rows.lawful k.below) };

    fn shape(&self) -> Shape {
        self.below.shape()
    }

    fn weight(&self, r: usize) -> usize {
        self.below.weight(turn(self.squares.z, self.squares.a, r))
    }

    fn column(&self, r: usize, i: usize) -> Option<usize> {
        self.below
            .column(turn(self.squares.z, self.squares.a, r), i)
            .map(|c| turn(self.squares.b, self.squares.z, c))
    }
}

impl<C: Rows> Code for Interleaved<C> {}

// The code below with its rows and columns turned, or a refusal where it is not of these squares.
pub fn interleave<C: Rows + Drop>(below: C, squares: Squares) -> Result<Interleaved<C>, Refusal>
    ensures { Fitted (squares_fit squares.a squares.b squares.z (shape_of (C.Rows.matrix below))) (λ x. (x.below ≡ below) × (x.squares ≡ squares)) result }
{
    if squares_fit(squares, below.shape()) {
        Ok(Interleaved { below, squares })
    } else {
        Err(Refusal::BadShape)
    }
}
