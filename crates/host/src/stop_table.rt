// Which of the names given a table keeps.
ghost use Rattle.std.specs.Prelude.{◌≡◌, []};
ghost use Rattle.host.specs.Stops.{kept, is_driver_port, names_port, admissible, admitted, kept_of};
ghost use Rattle.host.specs.StopLaws.{KeptRules};

use crate::stop::{Stop, StopTable};
use ecode::port::PortKind;
use ecode::sheet::Sheet;

// Whether the port is a driver port of the sheet.
fn drives(sheet: &Sheet, port: u8) -> bool
    ensures { result ≡ is_driver_port sheet.now port }
{
    port < sheet.ports && sheet.kinds[port as usize] == PortKind::Driver
}

// Whether one of the stops has the port.
fn names(stops: &[Stop], port: u8) -> bool
    ensures { result ≡ names_port port stops.now }
{
    stops.iter().any(|stop| stop.port == port)
}

impl StopTable {
    fn empty() -> StopTable
        ensures { kept result ≡ [] }
    {
        StopTable {
            stops: [Stop::default(); 4],
            count: 0,
        }
    }

    // The stops in use.
    pub fn in_use(&self) -> &[Stop]
        ensures { result.now ≡ kept self.now }
    {
        &self.stops[..self.count]
    }

    // Whether the name may be kept beside those that are.
    fn admits(&self, sheet: &Sheet, name: Stop) -> bool
        ensures { result ≡ admissible sheet.now (kept self.now) name }
    {
        drives(sheet, name.port) && name.low <= name.high && !names(self.in_use(), name.port)
    }

    // Keeps the name if there is room and it may be kept, and else ignores it.
    fn admit(&mut self, sheet: &Sheet, name: Stop)
        ensures { kept self.new ≡ admitted sheet.now (kept self.old) name }
    {
        if self.count < 4 && self.admits(sheet, name) {
            self.stops[self.count] = name;
            self.count += 1;
        }
    }

    // The first four names that may be kept.
    pub fn new(sheet: &Sheet, names: &[Stop]) -> StopTable
        ensures kept { kept result ≡ kept_of sheet.now names.now }
        ensures rules { KeptRules sheet.now names.now (kept result) }
    {
        let mut table = StopTable::empty();
        for name in names {
            table.admit(sheet, *name);
        }
        table
    }
}
