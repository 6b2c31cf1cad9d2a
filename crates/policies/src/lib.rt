// Policies: which column a search takes as a pivot where peeling stalls.
#![tactic(auto)]

mod columns;
mod component;
mod first;
mod forest;
mod heaviest;
mod joins;
mod members;
mod pairs;
mod policy;
mod sets;
#[cfg(test)]
mod tests;
mod theorems;
mod top;

pub use columns::Columns;
pub use component::Component;
pub use first::First;
pub use heaviest::Heaviest;
pub use members::Members;
pub use policy::Policy;
pub use theorems::{component_leads, heaviest_is_heavy};
