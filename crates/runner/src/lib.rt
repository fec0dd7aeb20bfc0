// The machine: a bench that is loaded with a program, and a run of it by ticks over any host and any policy.
#![tactic(auto)]

pub mod bench;
pub mod call;
mod load;
mod play;
pub mod progress;
pub mod run;
mod slot;
mod step;
mod tick;
