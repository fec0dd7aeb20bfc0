// What a port is for.

// A sensor port takes a reading at each tick, a driver port is written by drivers, a task port by the task that owns it.
#[derive(Clone, Copy, PartialEq, Eq)]
pub enum PortKind {
    Sensor,
    Driver,
    Task,
}
