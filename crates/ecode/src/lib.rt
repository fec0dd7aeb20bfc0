// The data of the static side, and the definitions that every check is held to: sheets, instructions with their rows,
// programs, faults, and in specs/ the verdict.
#![tactic(auto)]

pub mod code;
pub mod fault;
pub mod laws;
pub mod lines;
pub mod port;
mod refusal;
pub mod set;
pub mod sharing;
pub mod sheet;
pub mod table;
pub mod ticks;
