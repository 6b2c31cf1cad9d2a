// Codes and policies that are known only when the program runs: how a line is read as a pile of codes, how a task is done with its code, and which policy a line names.
#![tactic(auto)]

mod base;
mod calls;
mod code;
mod pile;
mod policy;
mod reading;
mod row;
mod sizes;
mod task;
mod written;

pub use base::Base;
pub use calls::{code_text, tell_row};
pub use codes::Squares;
pub use pile::Pile;
pub use policy::{PolicyName, read_policy};
pub use reading::{read_pile, read_row};
pub use row::row_of;
pub use sizes::sizes_of;
pub use task::{Task, with_code};
