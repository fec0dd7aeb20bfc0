// The parts of a run: what is asked of the sheet at every tick, the readings, the queue of bindings, and the table of tasks.
#![tactic(auto)]

pub mod data;
pub mod feed;
pub mod queue;
pub mod table;
pub mod wiring;
