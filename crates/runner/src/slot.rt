// The beginning of a tick: the slot that ended is charged, and time passes.
ghost use Rattle.std.specs.Prelude.{◌≡◌, ℕ, ◌≤◌, false, List, [], None, slice_index};
ghost use Rattle.machine.specs.State.{Ports, Event, is_pending};
ghost use Rattle.machine.specs.Runner.{charged, exhausted, opening};
ghost use Rattle.parts.specs.declared.data.Wiring.{Wiring};
ghost use Rattle.parts.specs.Shown.{jobs, Chargeable};
ghost use Rattle.parts.specs.Wired.{WiredFor};
ghost use Rattle.runner.specs.Standing.{standing, after_charge};

use crate::progress::Progress;
use host::host::Host;
use machine::stop::Stop;
use parts::data::Wiring;
use parts::feed::feed;

impl Progress {
    // The running task has used one slot more. If its budget is used up the run stops, and the task is answered.
    pub fn charge(&mut self, budgets: &[u8; 8]) -> Option<u8>
        requires { Chargeable self.old.table self.old.running }
        ensures answer { (ports : ℕ) → result ≡ exhausted (λ t. slice_index budgets.now t) (charged (jobs ports self.old.table) self.old.running) self.old.running }
        ensures after { (w : Wiring) (v : Ports) (l : List Event) → standing w v l self.new ≡ after_charge result (standing w v l self.old) }
    {
        let running = self.running;
        let used_up = self.table.charge(running, budgets);
        if let Some(task) = used_up {
            self.stop = Some(Stop::BudgetUsedUp { task });
        }
        used_up
    }

    // Every pending task has one tick less left, the readings are put, and every wait falls by 1.
    // Host and wiring come one by one, and not as a bench: whoever has the two may call.
    pub fn open<H: Host>(&mut self, host: &mut H, wiring: &Wiring, readings: &[i32])
        requires wired { WiredFor (H.Host.meaning host.old).sheet wiring.now }
        requires going { self.old.stop ≡ None }
        requires below { (t : ℕ) → wiring.now.tasks ≤ t → is_pending (jobs wiring.now.ports self.old.table) t ≡ false }
        ensures after { (l : List Event) → standing wiring.now (H.Host.ports host.new) [] self.new ≡ opening (H.Host.meaning host.old) readings.now (standing wiring.now (H.Host.ports host.old) l self.old) (jobs wiring.now.ports self.old.table) }
        ensures same { H.Host.meaning host.new ≡ H.Host.meaning host.old }
    {
        self.table.count_down(wiring.tasks);
        let sensors = &wiring.sensors;
        feed(host, &sensors.items[..sensors.len], readings);
        self.queue.count_down();
    }
}
