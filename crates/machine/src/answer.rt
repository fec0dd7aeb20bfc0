// What the calls on a run answer.
use crate::stop::Stop;

// What a tick did: how many instructions it ran, and which task runs until the next.
#[derive(Clone, Copy, PartialEq, Eq)]
pub struct Ticked {
    pub instructions: u16,
    pub running: Option<u8>,
}

// The answer of a call that is not refused: of a tick, of done, or of a question for the state or a port.
#[derive(Clone, Copy, PartialEq, Eq)]
pub enum Answer {
    Ran(Ticked),
    Ended,
    StoppedBy(Option<Stop>),
    Value(i32),
}
