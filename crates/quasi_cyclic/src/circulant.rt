// A code of square blocks, read from the caller's base entries.
ghost use Rattle.std.specs.Prelude.{◌≡◌, ◌*◌, ◌≤◌, true, false, length, is_some};
ghost use Rattle.quasi_cyclic.specs.Entries.{base_fits, first_bad_entry, filled_squares};

use codes::Squares;

mod making;
mod questions;

// Squares with their entries line by line.
#[derive(Clone, Copy, PartialEq, Eq, Debug)]
pub struct QuasiCyclic<'a> {
    squares: Squares,
    entries: &'a [i16],
    ones: usize,
    ghost sized: { base_fits squares.a squares.b squares.z (length entries.now) ≡ true },
    ghost right: { is_some (first_bad_entry squares.z 0 entries.now) ≡ false },
    ghost counted: { ones ≡ filled_squares entries.now * squares.z },
    ghost few: { ones ≤ 4096 },
}
