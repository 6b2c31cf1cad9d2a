// The script language: a line's words, what call they make, and the line that answers it.
#![tactic(auto)]

mod answer;
mod call;
mod hex;
mod line;
mod number;
#[cfg(test)]
mod tests;
mod word;
mod words;

pub use answer::{Answer, perform, print};
pub use call::{Call, is_word, parse, read_cell};
pub use hex::{Hex, from_hex, to_hex};
pub use line::{Escaped, refuse_line};
pub use number::read_number;
pub use word::{is_blank, only_word, passed_over, split_at_byte, split_word};
pub use words::Words;
