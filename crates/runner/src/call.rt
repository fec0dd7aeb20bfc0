// A call on a run as a value, for lists of calls.

// A tick with its readings, the end of a task, or a question for the state or for a port.
#[derive(Clone, Copy, PartialEq, Eq)]
pub enum Call<'a> {
    Tick(&'a [i32]),
    Done(u8),
    State,
    Port(u8),
}
