// What a policy is told of a task that waits to run.

// A pending task: its number, and the ticks left to its deadline.
#[derive(Clone, Copy, Default)]
pub struct PendingTask {
    pub task: u8,
    pub left: u8,
}
