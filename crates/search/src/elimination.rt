// An elimination under way: the rows in the caller's memory, and what is kept beside them.
ghost use Rattle.std.specs.Prelude.{◌≡◌, ℕ, ◌+◌, ◌*◌, ◌<◌, ◌≤◌, length, slice_index};
ghost use Rattle.method.specs.Sets.{count};
ghost use Rattle.policies.specs.Shown.{shown};

use crate::kept::Kept;
use crate::tally::Tally;
use crate::uses::Uses;
use arrayvec::ArrayVec;
use policies::Columns;

// No equality, since it holds what the caller lends. Each active column may still become a pivot. What holds while it peels (`Going`) is no ghost field, since settling leaves it;
// that the memory stays the caller's (`SameMemory`) each method says, since of a struct that holds a `&mut` nothing else does.
#[derive(Drop)]
pub struct Elimination<'m, S> {
    pub words: &'m mut [u64],
    pub sides: &'m mut [S],
    pub(crate) kept: &'m Kept,
    pub active: Columns,
    pub uses: Uses,
    pub tally: Tally,
    pub pivots: ArrayVec<u16, 512>,
    pub free: ArrayVec<u16, 512>,
    pub additions: u32,
    ghost high: { uses.unused.width ≡ length sides.now },
    ghost few: { length sides.now ≤ 256 },
    ghost within: { length words.now ≡ 8 * length sides.now },
    ghost long: { length kept.now ≡ 2048 },
    ghost room: { length pivots.items + count (shown active) ≤ 512 },
    ghost low: { (i : ℕ) → i < length pivots.items → slice_index pivots.items i < active.width },
}
