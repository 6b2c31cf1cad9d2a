// One position of a one in a listed code. Records stand in the order of their rows, and in a row in that of their columns.

#[derive(Clone, Copy, PartialEq, Eq, PartialOrd, Ord, Debug)]
pub struct Record {
    pub row: u16,
    pub column: u16,
}
