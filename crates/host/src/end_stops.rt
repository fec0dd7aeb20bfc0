// End stops: a layer over any host that holds driver ports within bounds, and is a host itself.
ghost use Rattle.std.specs.Prelude.{◌≡◌};
ghost use Rattle.host.specs.Bounds.{held};
ghost use Rattle.host.specs.Stops.{kept, kept_of, stop_one, stop_all, stopped};
ghost use Rattle.host.specs.StopLaws.{KeptRules};
ghost use Rattle.host.specs.Stopping.{stopped_lawful};
ghost use Rattle.std.proofs.Common.{rules};

use crate::host::Host;
use crate::stop::{Stop, StopTable};
use ecode::set::has_member;
use ecode::sheet::Sheet;

// The host below, and the ports that are held.
#[derive(Drop)]
pub struct EndStops<H> {
    lower: H,
    table: StopTable,
}

// The value, or the nearer bound if it lies outside. Not `clamp`, which asks that low is not above high: any two bounds will do.
fn hold_within(low: i32, high: i32, value: i32) -> i32
    ensures { result ≡ held low high value }
{
    if value < low {
        low
    } else if high < value {
        high
    } else {
        value
    }
}

// Holds the stop's port within its bounds, if it is one of those written.
fn stop_port<H: Host>(host: &mut H, written: u32, stop: Stop)
    ensures after { H.Host.ports host.new ≡ stop_one written stop (H.Host.ports host.old) }
    ensures same { H.Host.meaning host.new ≡ H.Host.meaning host.old }
{
    if has_member(written, stop.port) {
        let value = host.look(stop.port);
        host.put(stop.port, hold_within(stop.low, stop.high, value));
    }
}

// The same for each of the stops.
fn stop_ports<H: Host>(host: &mut H, written: u32, stops: &[Stop])
    ensures after { H.Host.ports host.new ≡ stop_all written stops.now (H.Host.ports host.old) }
    ensures same { H.Host.meaning host.new ≡ H.Host.meaning host.old }
{
    for stop in stops {
        stop_port(host, written, *stop);
    }
}

impl<H: Host> EndStops<H> {
    // The layer over `lower`. A name that is no driver port of it, repeats one kept or has its low above its high is ignored;
    // the first four others are kept.
    pub fn new(lower: H, names: &[Stop]) -> EndStops<H>
        ensures lower { result.lower ≡ lower }
        ensures kept { kept result.table ≡ kept_of (H.Host.meaning lower).sheet names.now }
        ensures rules { KeptRules (H.Host.meaning lower).sheet names.now (kept result.table) }
    {
        let table = StopTable::new(&lower.sheet(), names);
        EndStops { lower, table }
    }
}

// What a driver writes is held; all else passes through.
impl<H: Host> Host for EndStops<H> {
    ghost ports = { λ s. H.Host.ports s.lower };

    ghost meaning = { λ s. stopped (kept s.table) (H.Host.meaning s.lower) };

    ghost lawful = { λ s. stopped_lawful (kept s.table) _ (H.Host.lawful s.lower) };

    ghost long = { Prim.search rules };

    fn put(&mut self, port: u8, value: i32) {
        self.lower.put(port, value);
    }

    fn drive(&mut self, driver: u8) {
        let sheet = self.sheet();
        if driver < sheet.drivers {
            self.lower.drive(driver);
            stop_ports(
                &mut self.lower,
                sheet.driver_ports[driver as usize].writes,
                self.table.in_use(),
            );
        }
    }

    fn work(&mut self, task: u8) {
        self.lower.work(task);
    }

    fn look(&self, port: u8) -> i32 {
        self.lower.look(port)
    }

    fn test(&self, condition: u8) -> bool {
        self.lower.test(condition)
    }

    fn sheet(&self) -> Sheet {
        self.lower.sheet()
    }
}
