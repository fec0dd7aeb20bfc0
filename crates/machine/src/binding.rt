// Code that waits for its tick.

// In `wait` ticks the code at the address `at` is due.
#[derive(Clone, Copy, Default, PartialEq, Eq)]
pub struct Binding {
    pub wait: u8,
    pub at: u16,
}
