// The pitch drive as a host: eight ports, three drivers that each copy a port, and the tasks control and filter.
ghost use Rattle.std.specs.Prelude.{◌≡◌, replicate, pos};
ghost use Rattle.host.specs.PitchHost.{control, smoothed, pitch_meaning};
ghost use Rattle.host.specs.PitchLaws.{pitch_lawful};

use crate::host::Host;
use crate::pitch::sheet;
use crate::port_values::PortValues;
use ecode::sheet::Sheet;

// The ports, as the sheet numbers them.
const ANGLE: u8 = 0;

const SELECTOR: u8 = 1;

const FILTERED: u8 = 2;

const RAW: u8 = 3;

const COMMAND: u8 = 4;

const CONTROL_OUT: u8 = 5;

const FILTER_OUT: u8 = 6;

const FILTER_MEMORY: u8 = 7;

#[derive(Drop)]
pub struct PitchHost {
    ports: PortValues<8>,
}

// The command for an angle. In 64 bits, so that no angle of 32 bits wraps.
fn command_for(angle: i32) -> i32
    ensures { result ≡ control angle }
{
    let wanted = 9_000 - i64::from(angle);
    wanted.clamp(-1_000, 1_000) as i32
}

// What filter makes of its memory and a new angle. Each is halved first, so that the sum fits.
pub fn smooth(memory: i32, angle: i32) -> i32
    ensures { result ≡ smoothed memory angle }
{
    memory / 2 + angle / 2
}

impl PitchHost {
    // Every port begins at 0.
    pub fn new() -> PitchHost
        ensures { result.ports.values ≡ replicate 8 (pos 0) }
    {
        PitchHost {
            ports: PortValues::new(),
        }
    }
}

// Ports are put and looked at by PortValues, in a line each; what is left is what tells hosts apart. A number off the sheet does nothing.
impl Host for PitchHost {
    ghost ports = { λ s. s.ports.values };

    ghost meaning = { λ _. pitch_meaning };

    ghost lawful = { λ _. pitch_lawful };

    ghost long = { λ s. s.ports.long };

    fn put(&mut self, port: u8, value: i32) {
        self.ports.set(port, value);
    }

    fn drive(&mut self, driver: u8) {
        match driver {
            0 => self.ports.copy(ANGLE, RAW),
            1 => self.ports.copy(FILTER_OUT, FILTERED),
            2 => self.ports.copy(CONTROL_OUT, COMMAND),
            _ => {}
        }
    }

    fn work(&mut self, task: u8) {
        match task {
            0 => self
                .ports
                .set(CONTROL_OUT, command_for(self.ports.get(FILTERED))),
            1 => {
                let angle = smooth(self.ports.get(FILTER_MEMORY), self.ports.get(RAW));
                self.ports.set(FILTER_OUT, angle);
                self.ports.set(FILTER_MEMORY, angle);
            }
            _ => {}
        }
    }

    fn look(&self, port: u8) -> i32 {
        self.ports.get(port)
    }

    fn test(&self, condition: u8) -> bool {
        condition == 0 && self.ports.get(SELECTOR) != 0
    }

    fn sheet(&self) -> Sheet {
        sheet()
    }
}
