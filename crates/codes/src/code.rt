// The interface of a code: what may be asked of it, each answer an equation on its matrix.
ghost use Rattle.std.specs.Prelude.{◌≡◌};
ghost use Rattle.codes.specs.Matrix.{Matrix, Lawful, row_at, weight, column_at, holds};
ghost use Rattle.codes.specs.RowsRead.{columns_left};
ghost use Rattle.codes.specs.Shapes.{shape_of};

use crate::membership::scan;
use crate::row::RowColumns;
use crate::shape::Shape;

pub trait Rows {
    // What the code means, and that it keeps the rules of every code.
    ghost matrix: { Self → Matrix };

    ghost lawful: { (x : Self) → Lawful (matrix x) };

    fn shape(&self) -> Shape
        ensures { result ≡ shape_of (matrix self.now) };

    fn weight(&self, r: usize) -> usize
        ensures { result ≡ weight (matrix self.now) r };

    fn column(&self, r: usize, i: usize) -> Option<usize>
        ensures { result ≡ column_at (matrix self.now) r i };

    // The columns of row r, in their order.
    final fn row(&self, r: usize) -> RowColumns<'_, Self>
    where
        Self: Sized,
        ensures { columns_left matrix result ≡ row_at (matrix self.now) r }
    {
        RowColumns {
            code: self,
            r,
            next: 0,
        }
    }
}

pub trait Code: Rows {
    fn holds(&self, r: usize, c: usize) -> bool
        ensures { result ≡ holds (Self.Rows.matrix self.now) r c }
    {
        scan(self, r, c)
    }
}
