// Parity-check codes: the interface of every code, and the code read from the caller's records.
#![tactic(auto)]

mod code;
mod listed;
mod membership;
mod record;
mod refusal;
mod row;
mod shape;
mod squares;
#[cfg(test)]
mod tests;

pub use code::{Code, Rows};
pub use listed::Listed;
pub use membership::scan;
pub use record::Record;
pub use refusal::Refusal;
pub use row::RowColumns;
pub use shape::{MAX_COLUMNS, MAX_ONES, MAX_ROWS, Shape};
pub use squares::Squares;
