// Which pending task runs next: what a policy owes, a search by preference, and three policies.
#![tactic(auto)]

pub mod earliest;
pub mod lowest_number;
pub mod pending;
pub mod policy;
pub mod preference;
pub mod steady;
#[cfg(test)]
mod tests;

pub use earliest::Earliest;
pub use lowest_number::LowestNumber;
pub use pending::PendingTask;
pub use policy::Policy;
pub use preference::{Preference, first};
pub use steady::Steady;
