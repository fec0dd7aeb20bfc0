// The instructions of a tick.
ghost use Rattle.std.specs.Prelude.{◌≡◌, ◌<◌, List, [], length, None};
ghost use Rattle.ecode.specs.Accepted.{Bounded};
ghost use Rattle.machine.specs.State.{Event, instruction_at};
ghost use Rattle.machine.specs.Runner.{step, threads};
ghost use Rattle.parts.specs.Shown.{queued};
ghost use Rattle.parts.specs.Wired.{WiredFor};
ghost use Rattle.runner.specs.Standing.{program_of, standing};
ghost use Rattle.runner.specs.Turns.{Room, next_of, Tells, OnlyTouch, Upward, Inside, Roomy};

use crate::progress::{Flow, Progress};
use ecode::code::{Instruction, Program};
use host::host::Host;
use machine::stop::Stop;
use parts::data::Wiring;

impl Progress {
    // One instruction.
    fn step<H: Host>(&mut self, host: &mut H, program: &Program, wiring: &Wiring, at: u16) -> Flow
        requires wired { WiredFor (H.Host.meaning host.old).sheet wiring.now }
        requires bounds { Bounded (H.Host.meaning host.old).sheet (program_of wiring.now program.now).entry (program_of wiring.now program.now).lines }
        requires within { at < program.now.listing.count }
        requires room { Room (length (queued self.old.queue)) (instruction_at (program_of wiring.now program.now) at) }
        ensures turn { (l : List Event) → record { state = standing wiring.now (H.Host.ports host.new) (step (H.Host.meaning host.old) (program_of wiring.now program.now) at (standing wiring.now (H.Host.ports host.old) l self.old)).state.log self.new; next = next_of result } ≡ step (H.Host.meaning host.old) (program_of wiring.now program.now) at (standing wiring.now (H.Host.ports host.old) l self.old) }
        ensures same { H.Host.meaning host.new ≡ H.Host.meaning host.old }
        ensures told { Tells result self.old.stop self.new.stop }
        ensures upward { Upward program.now.listing.count at result }
    {
        let instruction = program.listing.lines[at as usize].instruction;
        match instruction {
            Instruction::Call { driver } => {
                let shared = wiring.sharing[driver as usize];
                match self.table.touched(shared) {
                    Some(task) => {
                        self.stop = Some(Stop::Touched { task, address: at });
                        Flow::Stopped
                    }
                    None => {
                        host.drive(driver);
                        Flow::To(at + 1)
                    }
                }
            }
            Instruction::Release { task, window } => {
                if self.table.is_pending(task) {
                    self.stop = Some(Stop::Touched { task, address: at });
                    Flow::Stopped
                } else {
                    self.table.release(task, window, host, wiring.ports);
                    Flow::To(at + 1)
                }
            }
            Instruction::Future { wait, to, kept: _ } => {
                self.queue.push(wait, to);
                Flow::To(at + 1)
            }
            Instruction::If { condition, to } => {
                if host.test(condition) {
                    Flow::To(to)
                } else {
                    Flow::To(at + 1)
                }
            }
            Instruction::Jump { to } => Flow::To(to),
            Instruction::Return => Flow::Returned,
        }
    }

    // Every binding that is due, the first first, is run from its address to a return, until none is due or the run stops.
    // Answers how many instructions ran.
    // Host, program and wiring come one by one, and not as a bench: whoever has the three may call.
    pub fn run_due<H: Host>(&mut self, host: &mut H, program: &Program, wiring: &Wiring) -> u16
        requires wired { WiredFor (H.Host.meaning host.old).sheet wiring.now }
        requires bounds { Bounded (H.Host.meaning host.old).sheet (program_of wiring.now program.now).entry (program_of wiring.now program.now).lines }
        requires going { self.old.stop ≡ None }
        requires inside { Inside program.now.listing.count (queued self.old.queue) }
        requires room { Roomy (threads (H.Host.meaning host.old) (program_of wiring.now program.now) (length (queued self.old.queue)) (standing wiring.now (H.Host.ports host.old) [] self.old)).log }
        ensures after { standing wiring.now (H.Host.ports host.new) (threads (H.Host.meaning host.old) (program_of wiring.now program.now) (length (queued self.old.queue)) (standing wiring.now (H.Host.ports host.old) [] self.old)).log self.new ≡ threads (H.Host.meaning host.old) (program_of wiring.now program.now) (length (queued self.old.queue)) (standing wiring.now (H.Host.ports host.old) [] self.old) }
        ensures answer { result ≡ length (threads (H.Host.meaning host.old) (program_of wiring.now program.now) (length (queued self.old.queue)) (standing wiring.now (H.Host.ports host.old) [] self.old)).log }
        ensures touch { OnlyTouch self.new.stop }
        ensures same { H.Host.meaning host.new ≡ H.Host.meaning host.old }
    {
        let mut count = 0u16;
        // The project's rule: a labelled loop over the due bindings, left on a stop from inside the instruction loop.
        'due: while let Some(first) = self.queue.take_due() {
            let mut at = first;
            loop {
                count += 1;
                match self.step(host, program, wiring, at) {
                    Flow::To(next) => at = next,
                    Flow::Returned => continue 'due,
                    Flow::Stopped => break 'due,
                }
            }
        }
        count
    }
}
