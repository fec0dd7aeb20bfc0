// The machine that runs a checked program over a host: the data of a run, and in specs/ the reference runner with the laws
// of its runs.
#![tactic(auto)]

pub mod answer;
pub mod binding;
pub mod fault;
pub mod figures;
pub mod laws;
pub mod stop;
