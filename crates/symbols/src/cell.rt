// The cell as a symbol: exclusive or, byte by byte.
ghost use Rattle.std.specs.Prelude.{◌≡◌};
ghost use Rattle.symbols.specs.CellLaws.{cell_laws};
ghost use Rattle.symbols.specs.Cells.{cell_of, cell_kind};

use crate::kinds::Cell;
use crate::symbol::Symbol;
use std::simd::prelude::*;

impl Cell {
    // The cell of these bytes: the one place where a cell is made, and tied to the cell of the logic.
    pub fn new(bytes: [u8; 64]) -> Cell
        ensures value { result ≡ cell_of bytes }
        ensures holds { result.bytes ≡ bytes }
    {
        Cell { bytes }
    }
}

impl Symbol for Cell {
    ghost kind = { cell_kind };

    ghost lawful = { cell_laws };

    fn zero() -> Cell {
        Cell::new([0; 64])
    }

    fn unit() -> Cell {
        let mut one = [0; 64];
        one[0] = 1;
        Cell::new(one)
    }

    #[inline(always)]
    fn add(&mut self, other: &Cell) {
        let sum = u8x64::from_array(self.bytes) ^ u8x64::from_array(other.bytes);
        *self = Cell::new(sum.to_array());
    }

    fn is_zero(&self) -> bool {
        self.bytes == [0; 64]
    }
}
