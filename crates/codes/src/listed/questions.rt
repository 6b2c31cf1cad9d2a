// The questions to a listed code. A row's records stand together, and its making found where they begin.
ghost use Rattle.std.specs.Prelude.{◌≡◌};
ghost use Rattle.codes.specs.Listings.{listed_matrix};
ghost use Rattle.codes.specs.RecordLaws.{listed_lawful};
ghost use Rattle.codes.specs.Matrix.{height, ones};
ghost use Rattle.codes.specs.Records.{Start};

use crate::code::{Code, Rows};
use crate::listed::Listed;
use crate::shape::Shape;

impl<'a> Listed<'a> {
    // Where the records of row r begin: as many as stand in lower rows.
    fn start(&self, r: usize) -> usize
        ensures { Start self.now.m self.now.n self.now.records.now r result }
    {
        self.starts
            .get(r)
            .map_or(self.records.len(), |p| usize::from(*p))
    }
}

impl<'a> Rows for Listed<'a> {
    ghost matrix = { λ k. listed_matrix k };

    ghost lawful = { λ k. listed_lawful k.m k.n k.records.now k.sized k.rising k.few };

    fn shape(&self) -> Shape {
        Shape {
            rows: self.m,
            columns: self.n,
            ones: self.records.len(),
        }
    }

    fn weight(&self, r: usize) -> usize {
        if r >= self.m {
            return 0;
        }
        self.start(r + 1) - self.start(r)
    }

    fn column(&self, r: usize, i: usize) -> Option<usize> {
        let k = self.records[self.start(r)..].get(i)?;
        (usize::from(k.row) == r).then_some(usize::from(k.column))
    }
}

impl<'a> Code for Listed<'a> {}
