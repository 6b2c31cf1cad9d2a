// The search for the codewords that agree with what was received: peeling, pivots, elimination and answer, in the
// caller's working memory.
#![tactic(auto)]

mod answer;
mod elimination;
mod found;
mod heard;
mod kept;
mod load;
mod numbers;
mod passing;
mod peel;
mod read;
mod rows;
mod settle;
mod tally;
#[cfg(test)]
mod tests;
mod uses;
mod whole;

pub use answer::{Report, Unfound};
pub use found::Found;
pub use read::wipe;
pub use refusals::Numbered;
pub use whole::{look, search};
