// From outside the library: a symbol, a code and a policy of one's own, and one call that solves with all three.
#![tactic(auto)]

mod byte;
mod last;
mod parity;
mod restoring;
#[cfg(test)]
mod tests;

pub use byte::Byte;
pub use last::Last;
pub use parity::Parity;
pub use restoring::restored;
