// The calls on a run.
ghost use Rattle.std.specs.Prelude.{◌≡◌};
ghost use Rattle.machine.specs.Calls.{Tick, Done, leaves, tick_answer, done_answer, state_answer, port_answer, GivenBack};
ghost use Rattle.runner.specs.Sound.{loaded, shown, SoundBench, SoundRun};
ghost use Rattle.runner.specs.Follows.{choice_in, Follows, Untouched, Unasked};

use crate::bench::Bench;
use crate::run::Run;
use host::host::Host;
use machine::answer::Ticked;
use machine::fault::RunFault;
use machine::stop::Stop;
use policy::Policy;

impl<H: Host, P: Policy> Run<H, P> {
    // One tick, with a reading for each sensor port in port order: how many instructions ran, and which task runs until the next.
    pub fn tick(&mut self, readings: &[i32]) -> Result<Ticked, RunFault>
        requires { SoundRun H.Host.meaning H.Host.ports P.Policy.mark self.old }
        ensures answer { result ≡ tick_answer (H.Host.meaning self.old.bench.host) readings.now (shown H.Host.ports self.old) (leaves (H.Host.meaning self.old.bench.host) (loaded self.old.bench) (Tick readings.now (choice_in result)) (shown H.Host.ports self.old)) }
        ensures follows { Follows H.Host.meaning H.Host.ports P.Policy.mark (Tick readings.now (choice_in result)) self.old self.new }
        ensures untouched { Untouched self.old self.new result }
        ensures unasked { Unasked self.old.policy self.new.policy result }
    {
        if let Some(stop) = self.progress.stop {
            return Err(RunFault::AfterStop { task: stop.task() });
        }
        let given = readings.len();
        if given != self.bench.wiring.sensors.len {
            return Err(RunFault::Readings { given });
        }
        if let Some(task) = self.progress.charge(&self.bench.program.budgets) {
            return Err(RunFault::BudgetUsedUp { task });
        }
        self.progress
            .open(&mut self.bench.host, &self.bench.wiring, readings);
        let instructions = self.progress.run_due(
            &mut self.bench.host,
            &self.bench.program,
            &self.bench.wiring,
        );
        if let Some(stop) = self.progress.stop {
            return Err(RunFault::from(stop));
        }
        let pending = self.progress.table.list(self.bench.wiring.tasks);
        let running = self.policy.choose(&pending);
        self.progress.running = running;
        Ok(Ticked {
            instructions,
            running,
        })
    }

    // The running task has ended.
    pub fn done(&mut self, task: u8) -> Result<(), RunFault>
        requires { SoundRun H.Host.meaning H.Host.ports P.Policy.mark self.old }
        ensures answer { result ≡ done_answer task (shown H.Host.ports self.old) }
        ensures follows { Follows H.Host.meaning H.Host.ports P.Policy.mark (Done task) self.old self.new }
        ensures untouched { Untouched self.old self.new result }
        ensures policy { self.new.policy ≡ self.old.policy }
    {
        if let Some(stop) = self.progress.stop {
            return Err(RunFault::AfterStop { task: stop.task() });
        }
        if self.progress.running != Some(task) {
            return Err(RunFault::NotRunning { task });
        }
        self.bench.host.work(task);
        self.progress.table.clear(task);
        self.progress.running = None;
        Ok(())
    }

    // No stop, or the stop.
    pub fn state(&self) -> Option<Stop>
        ensures { result ≡ state_answer (shown H.Host.ports self.now) }
    {
        self.progress.stop
    }

    // The value of a port.
    pub fn port(&self, port: u8) -> Result<i32, RunFault>
        requires { SoundRun H.Host.meaning H.Host.ports P.Policy.mark self.now }
        ensures { result ≡ port_answer (H.Host.meaning self.now.bench.host) port (shown H.Host.ports self.now) }
    {
        if port >= self.bench.wiring.ports {
            return Err(RunFault::NoPort { port });
        }
        Ok(self.bench.host.look(port))
    }
}

impl<H: Host, P: Policy + Drop> Run<H, P> {
    // Ends the run: the bench comes back, and the numbers of the pending tasks are written, 255 in the rest.
    pub fn end(self, pending: &mut [u8; 8]) -> Bench<H>
        requires { SoundRun H.Host.meaning H.Host.ports P.Policy.mark self }
        ensures bench { result ≡ self.bench }
        ensures given { GivenBack (H.Host.meaning self.bench.host) (loaded self.bench) (shown H.Host.ports self) (H.Host.meaning result.host) (H.Host.ports result.host) (loaded result) pending.new }
        ensures sound { SoundBench H.Host.meaning result }
    {
        let Run {
            bench,
            policy: _,
            progress,
        } = self;
        progress.table.write_pending(bench.wiring.tasks, pending);
        bench
    }
}
