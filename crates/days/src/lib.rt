// A whole day of calls on one block, from its open to its end, with a log that ties each call to its answer.
#![tactic(auto)]

mod obey;
mod order;
mod whole;

pub use order::{Entry, Order};
pub use whole::{Unbegun, day};
