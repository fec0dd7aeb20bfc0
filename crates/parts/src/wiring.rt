// What a run asks of its sheet, worked out once.
ghost use Rattle.std.specs.Prelude.{◌≡◌, ℕ, ◌<◌, ◌&&◌, length, nat_lt, slice_index};
ghost use Rattle.ecode.specs.Wiring.{has};
ghost use Rattle.ecode.specs.Sheets.{shares};
ghost use Rattle.machine.specs.Runner.{kinds_of};
ghost use Rattle.parts.specs.Wired.{sensors_from, sensed, WiredFor};

use crate::data::{SensorPorts, Wiring};
use ecode::port::PortKind;
use ecode::sharing::sharing;
use ecode::sheet::Sheet;

// The tasks that driver d shares with. The loop goes over what the set holds, the numbers of tasks.
fn shared_tasks(sheet: &Sheet, d: u8) -> u8
    ensures { (t : ℕ) → has result t ≡ (nat_lt t sheet.now.tasks && shares sheet.now d t) }
{
    let mut set = 0u8;
    for t in 0..sheet.tasks {
        if sharing(sheet, d, t) {
            set |= 1 << t;
        }
    }
    set
}

// The same for each driver.
fn sharing_table(sheet: &Sheet) -> [u8; 32]
    ensures wide { length result ≡ 32 }
    ensures sharing { (d t : ℕ) → d < sheet.now.drivers → has (slice_index result d) t ≡ (nat_lt t sheet.now.tasks && shares sheet.now d t) }
{
    let mut table = [0u8; 32];
    for (d, shared) in table[..sheet.drivers as usize].iter_mut().enumerate() {
        *shared = shared_tasks(sheet, d as u8);
    }
    table
}

// The sensor ports, in port order.
fn sensor_ports(sheet: &Sheet) -> SensorPorts
    ensures { sensed result ≡ sensors_from 0 (kinds_of sheet.now) }
{
    let mut items = [0u8; 32];
    let mut len = 0usize;
    for (port, kind) in (0..sheet.ports).zip(&sheet.kinds) {
        if *kind == PortKind::Sensor {
            items[len] = port;
            len += 1;
        }
    }
    SensorPorts { items, len }
}

impl Wiring {
    pub fn of(sheet: &Sheet) -> Wiring
        ensures { WiredFor sheet.now result }
    {
        Wiring {
            ports: sheet.ports,
            tasks: sheet.tasks,
            sensors: sensor_ports(sheet),
            sharing: sharing_table(sheet),
        }
    }
}
