// The sheet of the pitch drive.
ghost use Rattle.std.specs.Prelude.{◌≡◌};
ghost use Rattle.host.specs.Pitch.{pitch_sheet};

use ecode::port::PortKind;
use ecode::sheet::{DriverPorts, Sheet, TaskPorts};
use ecode::table::padded;

// Sensors: 0 angle, 1 selector. Driver ports: 2 filtered angle, 3 raw angle, 4 command. Task ports: 5 control's command,
// 6 filter's angle, 7 filter's memory.
const KINDS: [PortKind; 8] = [
    PortKind::Sensor,
    PortKind::Sensor,
    PortKind::Driver,
    PortKind::Driver,
    PortKind::Driver,
    PortKind::Task,
    PortKind::Task,
    PortKind::Task,
];

// Driver 0 copies port 0 to port 3, driver 1 copies 6 to 2, driver 2 copies 5 to 4.
const DRIVERS: [DriverPorts; 3] = [
    DriverPorts {
        writes: 1 << 3,
        reads: 1 << 0,
    },
    DriverPorts {
        writes: 1 << 2,
        reads: 1 << 6,
    },
    DriverPorts {
        writes: 1 << 4,
        reads: 1 << 5,
    },
];

// Task 0, control, owns port 5 and reads port 2. Task 1, filter, owns ports 6 and 7 and reads port 3.
const TASKS: [TaskPorts; 2] = [
    TaskPorts {
        owns: 1 << 5,
        sees: 1 << 2,
    },
    TaskPorts {
        owns: 1 << 6 | 1 << 7,
        sees: 1 << 3,
    },
];

// Condition 0 reads the selector.
const LOOKS: [u32; 1] = [1 << 1];

pub fn sheet() -> Sheet
    ensures { result ≡ pitch_sheet }
{
    Sheet {
        ports: 8,
        kinds: padded(&KINDS, PortKind::Sensor),
        drivers: 3,
        driver_ports: padded(&DRIVERS, DriverPorts::NONE),
        tasks: 2,
        task_ports: padded(&TASKS, TaskPorts::NONE),
        conditions: 1,
        looks: padded(&LOOKS, 0),
    }
}
