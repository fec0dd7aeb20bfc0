// What a run has come to, its host and its policy aside.
use machine::stop::Stop;
use parts::data::{Queue, TaskTable};

// The bindings that wait, the pending tasks, the running task, and the stop if the run stands still.
#[derive(Drop)]
pub struct Progress {
    pub queue: Queue,
    pub table: TaskTable,
    pub running: Option<u8>,
    pub stop: Option<Stop>,
}

// Where a thread goes after an instruction.
// No Result<Option<u16>, Stop>: a return would be `Ok(None)`, and the state that a step's contract tells would lack the stop.
#[derive(Clone, Copy, PartialEq, Eq)]
pub enum Flow {
    To(u16),
    Returned,
    Stopped,
}
