// The table of tasks.
ghost use Rattle.std.specs.Prelude.{◌≡◌, ℕ, ◌-◌, ◌<◌, ◌≤◌, false, ◌&&◌, take, Some, None, slice_index};
ghost use Rattle.ecode.specs.Wiring.{has};
ghost use Rattle.machine.specs.State.{is_pending};
ghost use Rattle.machine.specs.Runner.{changed, lowest, one_less_left, charged, exhausted};
ghost use Rattle.machine.specs.Choices.{pending_tasks};
ghost use Rattle.machine.specs.Calls.{pending_numbers};
ghost use Rattle.parts.specs.Shown.{one_less, jobs, Chargeable, written};

use crate::data::{Slot, TaskTable};
use arrayvec::ArrayVec;
use ecode::set::has_member;
use host::host::Host;
use policy::PendingTask;

const NO_SLOT: Slot = Slot {
    left: 0,
    used: 0,
    taken: [0; 32],
};

impl Slot {
    // One tick less left.
    fn count_down(&mut self)
        ensures { self.new ≡ one_less self.old }
    {
        self.left = self.left.saturating_sub(1);
    }

    // The slot of a task that is released now: its whole window left, no slot used, and the ports as they are.
    fn begin<H: Host>(&mut self, window: u8, host: &H, ports: u8)
        requires { ports ≡ (H.Host.meaning host.now).sheet.ports }
        ensures left { self.new.left ≡ window }
        ensures used { self.new.used ≡ 0 }
        ensures taken { take ports self.new.taken ≡ H.Host.ports host.now }
    {
        self.left = window;
        self.used = 0;
        for (p, taken) in self.taken[..ports as usize].iter_mut().enumerate() {
            *taken = host.look(p as u8);
        }
    }
}

impl TaskTable {
    // No task is pending.
    pub fn empty() -> TaskTable
        ensures { (ports : ℕ) → jobs ports result ≡ (λ _. None) }
    {
        TaskTable {
            pending: 0,
            slots: [NO_SLOT; 8],
        }
    }

    // Every pending task has one tick less left. No task from `tasks` on is pending.
    // The number of tasks comes with each call, and its bound with it: a table knows no sheet, and of a fresh one no number is asked.
    pub fn count_down(&mut self, tasks: u8)
        requires few { tasks ≤ 8 }
        requires below { (t : ℕ) → tasks ≤ t → has self.old.pending t ≡ false }
        ensures { (ports : ℕ) → jobs ports self.new ≡ (λ t. one_less_left (jobs ports self.old t)) }
    {
        for slot in self.slots[0..tasks as usize].iter_mut() {
            slot.count_down();
        }
    }

    // The lowest pending task among a set.
    pub fn touched(&self, set: u8) -> Option<u8>
        ensures { (ports : ℕ) → result ≡ lowest 8 (λ t. has set t && is_pending (jobs ports self.now) t) }
    {
        let touched = set & self.pending;
        (touched != 0).then(|| touched.trailing_zeros() as u8)
    }

    // Whether task t is pending.
    pub fn is_pending(&self, t: u8) -> bool
        ensures { (ports : ℕ) → result ≡ is_pending (jobs ports self.now) t }
    {
        has_member(u32::from(self.pending), t)
    }

    // Task t is pending from now on, with the ports of the host as they are.
    // Their number comes beside the host, since a question for the host's sheet would copy all of it.
    pub fn release<H: Host>(&mut self, t: u8, window: u8, host: &H, ports: u8)
        requires low { t < 8 }
        requires ports { ports ≡ (H.Host.meaning host.now).sheet.ports }
        ensures { jobs ports self.new ≡ changed (jobs ports self.old) t (Some (record { left = window; used = 0; taken = H.Host.ports host.now })) }
    {
        self.slots[t as usize].begin(window, host, ports);
        self.pending |= 1 << t;
    }

    // The running task has used one slot more: it is answered if its budget is used up.
    pub fn charge(&mut self, running: Option<u8>, budgets: &[u8; 8]) -> Option<u8>
        requires { Chargeable self.old running }
        ensures table { (ports : ℕ) → jobs ports self.new ≡ charged (jobs ports self.old) running }
        ensures answer { (ports : ℕ) → result ≡ exhausted (λ t. slice_index budgets.now t) (charged (jobs ports self.old) running) running }
    {
        let task = running?;
        let slot = &mut self.slots[task as usize];
        slot.used += 1;
        (budgets[task as usize] <= slot.used).then_some(task)
    }

    // Task t is no longer pending.
    pub fn clear(&mut self, t: u8)
        requires { t < 8 }
        ensures { (ports : ℕ) → jobs ports self.new ≡ changed (jobs ports self.old) t None }
    {
        // Read by its name, and not through `&=`: so the proof knows that the set is a byte.
        self.pending = self.pending & !(1 << t);
    }

    // The pending tasks below `tasks`, by rising number.
    pub fn list(&self, tasks: u8) -> ArrayVec<PendingTask, 8>
        requires { tasks ≤ 8 }
        ensures { (ports : ℕ) → result.items ≡ pending_tasks tasks (jobs ports self.now) }
    {
        let mut list = ArrayVec::new();
        for (task, slot) in (0..tasks).zip(&self.slots) {
            if self.is_pending(task) {
                list.push(PendingTask {
                    task,
                    left: slot.left,
                });
            }
        }
        list
    }

    // Writes the numbers of the pending tasks below `tasks`, by rising number, and 255 in the rest.
    pub fn write_pending(&self, tasks: u8, bytes: &mut [u8; 8])
        requires { tasks ≤ 8 }
        ensures { (ports : ℕ) → bytes.new ≡ written (pending_numbers tasks (jobs ports self.now)) }
    {
        let list = self.list(tasks);
        *bytes = [255; 8];
        // By index: a proof sees nothing of what a zip with iter_mut writes.
        for (i, pending) in list.iter().enumerate() {
            bytes[i] = pending.task;
        }
    }
}
