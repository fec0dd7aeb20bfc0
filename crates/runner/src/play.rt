// Lists of calls, and whole runs of them.
ghost use Rattle.std.specs.Prelude.{◌≡◌};
ghost use Rattle.machine.specs.Calls.{answer};
ghost use Rattle.runner.specs.Sound.{loaded, shown, SoundBench, SoundRun};
ghost use Rattle.runner.specs.Follows.{Follows};
ghost use Rattle.runner.specs.Record.{told, PlaysOn};
ghost use Rattle.runner.specs.Promise.{PlaysAsPromised};

use crate::bench::Bench;
use crate::call::Call;
use crate::run::Run;
use host::host::Host;
use machine::answer::Answer;
use machine::fault::RunFault;
use policy::Policy;

impl<H: Host, P: Policy> Run<H, P> {
    // Makes one call.
    pub fn make(&mut self, call: &Call) -> Result<Answer, RunFault>
        requires { SoundRun H.Host.meaning H.Host.ports P.Policy.mark self.old }
        ensures answer { result ≡ answer (H.Host.meaning self.old.bench.host) (loaded self.old.bench) (told call.now result) (shown H.Host.ports self.old) }
        ensures follows { Follows H.Host.meaning H.Host.ports P.Policy.mark (told call.now result) self.old self.new }
    {
        match call {
            Call::Tick(readings) => self.tick(readings).map(Answer::Ran),
            Call::Done(task) => self.done(*task).map(|()| Answer::Ended),
            Call::State => Ok(Answer::StoppedBy(self.state())),
            Call::Port(port) => self.port(*port).map(Answer::Value),
        }
    }

    // Makes the calls in turn, as many as there are places for answers, and puts each answer into its place.
    pub fn make_all(&mut self, calls: &[Call], answers: &mut [Result<Answer, RunFault>])
        requires { SoundRun H.Host.meaning H.Host.ports P.Policy.mark self.old }
        ensures { PlaysOn H.Host.meaning H.Host.ports P.Policy.mark calls.now answers.old answers.new self.old self.new }
    {
        let n = calls.len().min(answers.len());
        // By index: of what is written through a `zip` with `iter_mut` a proof knows the length alone.
        for (i, call) in calls[..n].iter().enumerate() {
            answers[i] = self.make(call);
        }
    }
}

impl<H: Host> Bench<H> {
    // A whole run: begins it under the policy, makes the calls in turn, as many as there are places for answers, puts each
    // answer into its place, ends the run, and gives the bench back.
    pub fn play<P: Policy + Drop>(
        self,
        policy: P,
        calls: &[Call],
        answers: &mut [Result<Answer, RunFault>],
        pending: &mut [u8; 8],
    ) -> Bench<H>
        requires { SoundBench H.Host.meaning self }
        ensures promise { PlaysAsPromised (P.Policy.mark policy) (H.Host.meaning self.host) (loaded self) (H.Host.ports self.host) calls.now answers.old answers.new (H.Host.meaning result.host) (loaded result) (H.Host.ports result.host) pending.new }
        ensures sound { SoundBench H.Host.meaning result }
    {
        let mut run = self.begin(policy);
        run.make_all(calls, answers);
        run.end(pending)
    }
}
