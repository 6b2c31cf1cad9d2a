// Refusals: what every call's contract says of them, and what each refusal of the program tells.
#![tactic(auto)]

mod numbered;

pub use numbered::Numbered;
