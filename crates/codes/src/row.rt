// The columns of a row, one after another.
ghost use Rattle.std.specs.Prelude.{◌≡◌};
ghost use Rattle.std.specs.Iterator.{YieldsFirst, item_count};
ghost use Rattle.codes.specs.RowsRead.{columns_left};

use crate::code::Rows;

// The row at place `next` on: each column is read once, as it is asked for.
#[derive(PartialEq, Eq, Debug, Drop)]
pub struct RowColumns<'c, C> {
    pub(crate) code: &'c C,
    pub(crate) r: usize,
    pub(crate) next: usize,
}

impl<'c, C: Rows> Iterator for RowColumns<'c, C> {
    type Item = usize;

    ghost next_gives = { YieldsFirst (columns_left C.Rows.matrix) };

    ghost remaining = { item_count (columns_left C.Rows.matrix) };

    fn next(&mut self) -> Option<usize> {
        let c = self.code.column(self.r, self.next)?;
        self.next += 1;
        Some(c)
    }
}
