// The sizes of a code, and how large they may be.

pub const MAX_ROWS: usize = 256;

// One place for each row, and one past the last.
pub(crate) const ROW_ENDS: usize = 257;

pub const MAX_COLUMNS: usize = 512;

pub const MAX_ONES: usize = 4096;

#[derive(Clone, Copy, PartialEq, Eq, Debug)]
pub struct Shape {
    pub rows: usize,
    pub columns: usize,
    pub ones: usize,
}
