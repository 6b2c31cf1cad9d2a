// A whole session of calls on two blocks, from beginning to end, with a log that ties each call to its answer.
#![tactic(auto)]

mod acting;
mod carried;
mod named;
mod order;
mod solving;
mod whole;

pub use carried::Carried;
pub use named::Named;
pub use order::{Call, Entry, Hand, Order, Which};
pub use whole::{Left, LogLength, play};
