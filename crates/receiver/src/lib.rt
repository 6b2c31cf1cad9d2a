// The receiver: a block of packets over the caller's table, and the permit under which packets are handed out.
#![tactic(auto)]

mod block;
mod desk;
mod fault;
mod permit;
mod run;
#[cfg(test)]
mod tests;

pub use block::{Block, Marks, Out, open_fault};
pub use desk::Desk;
pub use fault::{Fault, Stamp, Unsolved};
pub use permit::{Permit, Unclosed};
pub use refusals::Numbered;
pub use run::{Layer, Stopped};
