// Sets of numbers as the bits of 64-bit words, and rows of such sets in one slice.
#![tactic(auto)]

mod column;
mod find;
mod row;
mod set;
#[cfg(test)]
mod tests;

pub use column::holders;
pub use find::{alone, count, least, next};
pub use row::{add_line, add_row, line_at, put_line, row_has, wipe};
pub use set::{Set, add, flip, flip_if, has, put, shared};
