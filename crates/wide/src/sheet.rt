// The sheets of two drives with eight tasks, for tests and measuring.
ghost use Rattle.std.specs.Prelude.{◌≡◌, ◌≤◌};
ghost use Rattle.wide.specs.Wide.{copying, reading_also, wide_sheet, plain_sheet};

use ecode::port::PortKind;
use ecode::sheet::{DriverPorts, Sheet, TaskPorts};
use ecode::table::padded;
use std::array;

// Driver ports: 0 to 7 one for each task, 8 the sample, 9 to 15 spare. Task ports: 16 to 23. What follows them are sensors.
const KINDS: [PortKind; 24] = [
    PortKind::Driver,
    PortKind::Driver,
    PortKind::Driver,
    PortKind::Driver,
    PortKind::Driver,
    PortKind::Driver,
    PortKind::Driver,
    PortKind::Driver,
    PortKind::Driver,
    PortKind::Driver,
    PortKind::Driver,
    PortKind::Driver,
    PortKind::Driver,
    PortKind::Driver,
    PortKind::Driver,
    PortKind::Driver,
    PortKind::Task,
    PortKind::Task,
    PortKind::Task,
    PortKind::Task,
    PortKind::Task,
    PortKind::Task,
    PortKind::Task,
    PortKind::Task,
];

// Condition 0 reads sensor 25.
const LOOKS: [u32; 1] = [1 << 25];

// The sample's port, which every task of the wide drive reads.
const SAMPLE: u32 = 1 << 8;

// Driver d copies port 16 + d to port d. Driver 8 so takes in the sample.
fn copying_drivers<const N: usize>() -> [DriverPorts; N]
    requires { N ≤ 16 }
    ensures { result ≡ copying N }
{
    array::from_fn(|d| DriverPorts {
        writes: 1 << d,
        reads: 1 << (16 + d),
    })
}

// Task t owns port 16 + t, and reads port t and the ports that all tasks read.
fn tasks_reading(also: u32) -> [TaskPorts; 8]
    ensures { result ≡ reading_also also }
{
    array::from_fn(move |t| TaskPorts {
        owns: 1 << (16 + t),
        sees: 1 << t | also,
    })
}

// The wide drive: sensors 24 and 25, and every task reads the sample.
pub fn sheet() -> Sheet
    ensures { result ≡ wide_sheet }
{
    Sheet {
        ports: 26,
        kinds: padded(&KINDS, PortKind::Sensor),
        drivers: 9,
        driver_ports: padded(&copying_drivers::<9>(), DriverPorts::NONE),
        tasks: 8,
        task_ports: tasks_reading(SAMPLE),
        conditions: 1,
        looks: padded(&LOOKS, 0),
    }
}

// The plain drive: no sensor and no sample.
pub fn plain() -> Sheet
    ensures { result ≡ plain_sheet }
{
    Sheet {
        ports: 24,
        kinds: padded(&KINDS, PortKind::Sensor),
        drivers: 8,
        driver_ports: padded(&copying_drivers::<8>(), DriverPorts::NONE),
        tasks: 8,
        task_ports: tasks_reading(0),
        conditions: 1,
        looks: [0; 16],
    }
}
