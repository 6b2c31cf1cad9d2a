// Symbols: what a packet carries, and the laws that a sum of symbols keeps.
#![tactic(auto)]

mod bit;
mod cell;
mod kinds;
mod pair;
mod sums;
mod symbol;
#[cfg(test)]
mod tests;
mod word;

pub use kinds::{Bit, Cell, Dated, Pair, Word};
pub use sums::{add_column, sum_at};
pub use symbol::Symbol;
