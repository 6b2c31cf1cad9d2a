// Layers over other codes: interleaved, and stacked.
#![tactic(auto)]

mod interleaved;
mod stacked;
#[cfg(test)]
mod tests;
mod theorems;
mod turning;

pub use interleaved::{Interleaved, interleave};
pub use stacked::{Stacked, stack};
pub use theorems::{interleaved_codewords, interleaving_permutes, stacked_codewords};
