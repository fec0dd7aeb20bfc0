// The data of the parts, with the bounds that the code over them rests on.
ghost use Rattle.std.specs.Prelude.{◌≡◌, ◌≤◌, length};

use machine::binding::Binding;

// The sensor ports of a sheet, in port order; the first `len` are meant. No ArrayVec, which cannot be copied.
#[derive(Clone, Copy)]
pub struct SensorPorts {
    pub items: [u8; 32],
    pub len: usize,
    ghost wide: { length items ≡ 32 },
    ghost few: { len ≤ 32 },
}

// What a run asks of its sheet at every tick, worked out once. A set of tasks is a mask, bit t for task t.
#[derive(Clone, Copy)]
pub struct Wiring {
    pub ports: u8,
    pub tasks: u8,
    pub sensors: SensorPorts,
    // for each driver the tasks that it shares with
    pub sharing: [u8; 32],
    ghost wide: { length sharing ≡ 32 },
}

// The bindings that wait, in the order in which they were made; the first `len` are meant. No ArrayVec, which cannot be copied.
#[derive(Clone, Copy)]
pub struct Queue {
    pub items: [Binding; 8],
    pub len: usize,
    ghost wide: { length items ≡ 8 },
    ghost few: { len ≤ 8 },
}

// What the table keeps of one task, if it is pending: ticks left, slots used, and the ports as they were at its release.
#[derive(Clone, Copy)]
pub struct Slot {
    pub left: u8,
    pub used: u8,
    pub taken: [i32; 32],
}

// The set of pending tasks, bit t for task t, and a slot for each task.
// A mask beside the slots and no Option in each: task sets are masks by the project's rule. With Options a tick took 4 to 14 in 100 more
// instructions.
#[derive(Clone, Copy)]
pub struct TaskTable {
    pub pending: u8,
    pub slots: [Slot; 8],
    ghost wide: { length slots ≡ 8 },
}
