// Hosts: the drives that a program runs over, and layers over them.
#![tactic(auto)]

pub mod end_stops;
pub mod figures;
pub mod host;
pub mod laws;
pub mod pitch;
pub mod pitch_host;
pub mod port_values;
pub mod stop;
pub mod stop_table;
#[cfg(test)]
mod tests;
