// A host: the drive that a program runs over, seen through its ports.
ghost use Rattle.std.specs.Prelude.{◌≡◌, List, length, ℤ, slice_set};
ghost use Rattle.host.specs.Meaning.{Meaning, Lawful, reading};

use ecode::sheet::Sheet;

// What a call changes is said of `ports`, by the functions of `meaning`; no call changes `meaning`. Each call says so for itself: it is
// a fact of a call, and no invariant of a value.
// A number off the sheet is no error: `put`, `drive` and `work` then change nothing, `look` answers 0 and `test` false.
pub trait Host {
    // the values of the ports, port 0 first
    ghost ports: { Self → List ℤ };

    // the sheet, and what each driver, task and condition does
    ghost meaning: { Self → Meaning };

    // Sets one port.
    fn put(&mut self, port: u8, value: i32)
        ensures after { ports self.new ≡ slice_set (ports self.old) port value }
        ensures same { meaning self.new ≡ meaning self.old };

    // Calls a driver.
    fn drive(&mut self, driver: u8)
        ensures after { ports self.new ≡ (meaning self.old).drive driver (ports self.old) }
        ensures same { meaning self.new ≡ meaning self.old };

    // Runs a task to its end.
    fn work(&mut self, task: u8)
        ensures after { ports self.new ≡ (meaning self.old).work task (ports self.old) }
        ensures same { meaning self.new ≡ meaning self.old };

    // Reads one port.
    fn look(&self, port: u8) -> i32
        ensures { result ≡ reading (ports self.now) port };

    // Asks a condition.
    fn test(&self, condition: u8) -> bool
        ensures { result ≡ (meaning self.now).test condition (ports self.now) };

    fn sheet(&self) -> Sheet
        ensures { result ≡ (meaning self.now).sheet };

    ghost lawful: { (s : Self) → Lawful (meaning s) };

    ghost long: { (s : Self) → length (ports s) ≡ (meaning s).sheet.ports };
}
