// The sizes of a matrix of square blocks: a lines of b squares, each of z rows and z columns.

#[derive(Clone, Copy, PartialEq, Eq, Debug)]
pub struct Squares {
    pub a: usize,
    pub b: usize,
    pub z: usize,
}
