// The wide drive as a host: 26 ports, nine drivers that each copy a port, and eight tasks of one formula.
ghost use Rattle.std.specs.Prelude.{◌≡◌, replicate, pos};
ghost use Rattle.wide.specs.WideHost.{wide_meaning};
ghost use Rattle.wide.specs.WideLaws.{wide_lawful};

use crate::sheet::sheet;
use ecode::sheet::Sheet;
use host::host::Host;
use host::pitch_host::smooth;
use host::port_values::PortValues;

const DRIVERS: u8 = 9;

const TASKS: u8 = 8;

// Task t owns port UPPER + t, and driver d copies port UPPER + d to port d.
const UPPER: u8 = 16;

// The driver port that every task reads, and the sensor that the condition reads.
const SAMPLE: u8 = 8;

const SELECTOR: u8 = 25;

#[derive(Drop)]
pub struct WideHost {
    ports: PortValues<26>,
}

impl WideHost {
    // Every port begins at 0.
    pub fn new() -> WideHost
        ensures { result.ports.values ≡ replicate 26 (pos 0) }
    {
        WideHost {
            ports: PortValues::new(),
        }
    }
}

// Ports are put and looked at by PortValues, in a line each; what is left is what tells hosts apart. A number off the sheet does nothing.
impl Host for WideHost {
    ghost ports = { λ s. s.ports.values };

    ghost meaning = { λ _. wide_meaning };

    ghost lawful = { λ _. wide_lawful };

    ghost long = { λ s. s.ports.long };

    fn put(&mut self, port: u8, value: i32) {
        self.ports.set(port, value);
    }

    fn drive(&mut self, driver: u8) {
        if driver < DRIVERS {
            self.ports.copy(UPPER + driver, driver);
        }
    }

    // A task makes of its driver port and the sample what `smooth` does.
    fn work(&mut self, task: u8) {
        if task < TASKS {
            let value = smooth(self.ports.get(task), self.ports.get(SAMPLE));
            self.ports.set(UPPER + task, value);
        }
    }

    fn look(&self, port: u8) -> i32 {
        self.ports.get(port)
    }

    fn test(&self, condition: u8) -> bool {
        condition == 0 && self.ports.get(SELECTOR) != 0
    }

    fn sheet(&self) -> Sheet {
        sheet()
    }
}
