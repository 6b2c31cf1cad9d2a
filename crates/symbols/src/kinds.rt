// The types of the symbol kinds.
ghost use Rattle.std.specs.Prelude.{◌≡◌, length};

// A bit, 0 or 1.
#[derive(Clone, Copy, PartialEq, Eq, Debug)]
pub enum Bit {
    Zero,
    One,
}

// Thirty-two bits.
#[derive(Clone, Copy, PartialEq, Eq, Debug)]
pub struct Word {
    pub value: u32,
}

// Sixty-four bytes. An array is a list in the logic, so a ghost field says how long.
#[derive(Clone, Copy, PartialEq, Eq, Debug)]
pub struct Cell {
    pub bytes: [u8; 64],
    ghost full: { length bytes ≡ 64 },
}

// A symbol of each of two kinds.
#[derive(Clone, Copy, PartialEq, Eq, Debug)]
pub struct Pair<A, B> {
    pub first: A,
    pub second: B,
}

// A cell with the time of its booking.
pub type Dated = Pair<Cell, Word>;
