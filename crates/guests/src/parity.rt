// A code of one's own: one row that holds every column.
ghost use Rattle.std.specs.Prelude.{◌≡◌, ◌≤◌, is_some, IfSome};
ghost use Rattle.guests.specs.Parities.{may_have, parity_matrix};
ghost use Rattle.guests.specs.ParityLaws.{parity_lawful};

use codes::{Code, MAX_COLUMNS, Rows, Shape};

// That it has a column, and not too many, is kept by the type: so every value of it is lawful.
#[derive(Clone, Copy, PartialEq, Eq, Debug)]
pub struct Parity {
    n: usize,
    ghost some: { 1 ≤ n },
    ghost few: { n ≤ 512 },
}

impl Parity {
    // The code of n columns, where a code may have so many.
    pub fn new(n: usize) -> Option<Parity>
        ensures made { is_some result ≡ may_have n }
        ensures columns { IfSome result (λ k. k.n ≡ n) }
    {
        if (1..=MAX_COLUMNS).contains(&n) {
            Some(Parity { n })
        } else {
            None
        }
    }
}

impl Rows for Parity {
    ghost matrix = { λ k. parity_matrix k.n };

    ghost lawful = { λ k. parity_lawful k.n k.some k.few };

    fn shape(&self) -> Shape {
        Shape {
            rows: 1,
            columns: self.n,
            ones: self.n,
        }
    }

    fn weight(&self, r: usize) -> usize {
        if r == 0 { self.n } else { 0 }
    }

    fn column(&self, r: usize, i: usize) -> Option<usize> {
        (r == 0 && i < self.n).then_some(i)
    }
}

impl Code for Parity {}
