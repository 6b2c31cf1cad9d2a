// Quasi-cyclic codes: a matrix of square blocks, each empty or a turned identity, by its base entries.
#![tactic(auto)]

mod circulant;
mod entries;
#[cfg(test)]
mod tests;
mod theorems;

pub use circulant::QuasiCyclic;
pub use theorems::one_column_to_a_square;
