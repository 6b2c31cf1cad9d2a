// A block: the caller's table, and marks of what was received.
ghost use Rattle.std.specs.Prelude.{◌≡◌, ◌≤◌, length};

use crate::fault::Stamp;

mod calls;
mod runs;
mod solve;
mod steps;

pub use steps::open_fault;

// Whether a permit is out; an enum, since other kinds of permit may come.
#[derive(Clone, Copy, PartialEq, Eq, Debug)]
pub enum Out {
    Nothing,
    Full,
}

// What a block keeps beside its table. The refusal of its open lies in it as plain numbers: its number and its value. The marks
// are an array, since a block allocates nothing.
#[derive(Clone, Copy, PartialEq, Eq, Debug)]
pub struct Marks {
    number: u32,
    stamp: Stamp,
    n: usize,
    received: [bool; 512],
    out: Out,
    refused: Option<(u8, u64)>,
    ghost few: { n ≤ 512 },
    ghost flags: { length received ≡ 512 },
}

// No equality, since it holds what the caller lends.
#[derive(Drop)]
pub struct Block<'a, S> {
    table: &'a mut [S],
    marks: Marks,
    ghost fits: { marks.n ≤ length table.now },
}
