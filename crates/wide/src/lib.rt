// A drive with eight tasks, for tests and measuring: its sheet, and the drive as a host.
#![tactic(auto)]

pub mod sheet;
#[cfg(test)]
mod tests;
pub mod wide_host;
