// A code of the rows of one code and then of another.
ghost use Rattle.std.specs.Prelude.{◌≡◌, ◌≤◌, true};
ghost use Rattle.layers.specs.LayerLaws.{stacked_lawful};
ghost use Rattle.layers.specs.Layers.{shapes_fit, stack_fits, stacked, Fitted};
ghost use Rattle.layers.specs.Rows.{Found};

use codes::{Code, MAX_ONES, MAX_ROWS, Refusal, Rows, Shape};

#[derive(PartialEq, Eq, Debug, Drop)]
pub struct Stacked<P: Rows, Q: Rows> {
    first: P,
    second: Q,
    ghost fit: { stack_fits (P.Rows.matrix first) (Q.Rows.matrix second) ≡ true },
}

fn shapes_fit(s: Shape, t: Shape) -> bool
    requires first_rows { s.rows ≤ 256 }
    requires second_rows { t.rows ≤ 256 }
    requires first_ones { s.ones ≤ 4096 }
    requires second_ones { t.ones ≤ 4096 }
    ensures { result ≡ shapes_fit s t }
{
    s.columns == t.columns && s.rows + t.rows <= MAX_ROWS && s.ones + t.ones <= MAX_ONES
}

impl<P: Rows, Q: Rows> Stacked<P, Q> {
    // The row of the second code that row r is, none where it is a row of the first.
    fn row_of_second(&self, r: usize) -> Option<usize>
        ensures { Found (P.Rows.matrix self.now.first) (Q.Rows.matrix self.now.second) r result }
    {
        r.checked_sub(self.first.shape().rows)
    }
}

impl<P: Rows, Q: Rows> Rows for Stacked<P, Q> {
    ghost matrix = { λ k. stacked (P.Rows.matrix k.first) (Q.Rows.matrix k.second) };

    ghost lawful = { λ k. stacked_lawful (P.Rows.matrix k.first) (Q.Rows.matrix k.second) (P.Rows.lawful k.first) (Q.Rows.lawful k.second) };

    fn shape(&self) -> Shape {
        let s = self.first.shape();
        let t = self.second.shape();
        Shape {
            rows: s.rows + t.rows,
            columns: s.columns,
            ones: s.ones + t.ones,
        }
    }

    fn weight(&self, r: usize) -> usize {
        match self.row_of_second(r) {
            Some(s) => self.second.weight(s),
            None => self.first.weight(r),
        }
    }

    fn column(&self, r: usize, i: usize) -> Option<usize> {
        match self.row_of_second(r) {
            Some(s) => self.second.column(s, i),
            None => self.first.column(r, i),
        }
    }
}

impl<P: Rows, Q: Rows> Code for Stacked<P, Q> {}

// The rows of the first code and then those of the second, or a refusal where their columns differ or they are too large together.
pub fn stack<P: Rows + Drop, Q: Rows + Drop>(first: P, second: Q) -> Result<Stacked<P, Q>, Refusal>
    ensures { Fitted (stack_fits (P.Rows.matrix first) (Q.Rows.matrix second)) (λ x. (x.first ≡ first) × (x.second ≡ second)) result }
{
    if shapes_fit(first.shape(), second.shape()) {
        Ok(Stacked { first, second })
    } else {
        Err(Refusal::BadShape)
    }
}
