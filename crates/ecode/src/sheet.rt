// The sheet of a drive: its ports, and which of them each driver, task and condition touches.
// The rules of a sheet are part of the type, so that every sheet keeps them.
ghost use Rattle.std.specs.Prelude.{◌≡◌, ◌≤◌, true};
ghost use Rattle.ecode.specs.Wiring.{writes_in, reads_in, owns_in, sees_in, within, is_driver, is_task, not_driver, not_task, apart};

use crate::port::PortKind;

// The ports that a driver writes, and those that it reads. A set of ports is a mask, bit p for port p.
#[derive(Clone, Copy)]
pub struct DriverPorts {
    pub writes: u32,
    pub reads: u32,
}

impl DriverPorts {
    // No port at all.
    pub const NONE: DriverPorts = DriverPorts {
        writes: 0,
        reads: 0,
    };
}

// The ports that a task owns, and those that it reads.
#[derive(Clone, Copy)]
pub struct TaskPorts {
    pub owns: u32,
    pub sees: u32,
}

impl TaskPorts {
    // No port at all.
    pub const NONE: TaskPorts = TaskPorts { owns: 0, sees: 0 };
}

// The counts stand beside the tables, since images, budget sheets and the rules speak of them; what a table holds from its count
// on touches no port.
#[derive(Clone, Copy)]
pub struct Sheet {
    pub ports: u8,
    pub kinds: [PortKind; 32],
    pub drivers: u8,
    pub driver_ports: [DriverPorts; 32],
    pub tasks: u8,
    pub task_ports: [TaskPorts; 8],
    pub conditions: u8,
    // the ports that each condition reads
    pub looks: [u32; 16],
    ghost has_ports: { 1 ≤ ports },
    ghost few_ports: { ports ≤ 32 },
    ghost few_drivers: { drivers ≤ 32 },
    ghost has_tasks: { 1 ≤ tasks },
    ghost few_tasks: { tasks ≤ 8 },
    ghost few_conditions: { conditions ≤ 16 },
    ghost written: { within ports kinds is_driver (writes_in driver_ports) ≡ true },
    ghost read: { within ports kinds not_driver (reads_in driver_ports) ≡ true },
    ghost owned: { within ports kinds is_task (owns_in task_ports) ≡ true },
    ghost seen: { within ports kinds is_driver (sees_in task_ports) ≡ true },
    ghost looked: { within ports kinds not_task looks ≡ true },
    ghost owned_once: { apart (owns_in task_ports) ≡ true },
}
