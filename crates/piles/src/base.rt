// The codes at the bottom of a pile, by what they are made of.
use codes::{Record, Squares};

#[derive(Drop, PartialEq, Eq, Debug)]
pub enum Base {
    // The code of m rows and n columns with its ones where the records say.
    Listed {
        m: usize,
        n: usize,
        records: Vec<Record>,
    },
    // The code of these squares that the base entries give.
    Circulant {
        squares: Squares,
        entries: Vec<i16>,
    },
}
