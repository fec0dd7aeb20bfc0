// What is done with a bench: it is made of a host, loaded, and begins a run.
ghost use Rattle.std.specs.Prelude.{◌≡◌};
ghost use Rattle.ecode.specs.Verdict.{verdict};
ghost use Rattle.ecode.specs.Accepted.{lone_return};
ghost use Rattle.machine.specs.State.{fresh};
ghost use Rattle.runner.specs.Sound.{loaded, shown, SoundBench, SoundRun};
ghost use Rattle.runner.specs.Loading.{load_answer, load_leaves, LoadsExactly};

use crate::bench::Bench;
use crate::progress::Progress;
use crate::run::Run;
use ecode::fault::LoadFault;
use host::host::Host;
use loader::check;
use loader::first::first_program;
use parts::data::{Queue, TaskTable, Wiring};
use policy::Policy;

impl<H: Host> Bench<H> {
    // A bench of the host, with a lone return as its program.
    pub fn new(host: H) -> Bench<H>
        ensures host { result.host ≡ host }
        ensures program { loaded result ≡ lone_return (H.Host.meaning host).sheet }
        ensures sound { SoundBench H.Host.meaning result }
    {
        let sheet = host.sheet();
        let program = first_program(&sheet);
        let wiring = Wiring::of(&sheet);
        Bench {
            host,
            program,
            wiring,
        }
    }

    // Loads an image with its budgets; a refused load leaves the program in place.
    pub fn load(&mut self, image: &[u8], budgets: &[u8]) -> Result<(), LoadFault>
        requires { SoundBench H.Host.meaning self.old }
        ensures answer { result ≡ load_answer (verdict (H.Host.meaning self.old.host).sheet image.now budgets.now) }
        ensures program { loaded self.new ≡ load_leaves (verdict (H.Host.meaning self.old.host).sheet image.now budgets.now) (loaded self.old) }
        ensures exactly { LoadsExactly (H.Host.meaning self.old.host).sheet image.now budgets.now (loaded self.new) result }
        ensures host { self.new.host ≡ self.old.host }
        ensures sound { SoundBench H.Host.meaning self.new }
    {
        let sheet = self.host.sheet();
        self.program = check(&sheet, image, budgets)?;
        Ok(())
    }

    // Begins a run of the program under a policy.
    pub fn begin<P: Policy>(self, policy: P) -> Run<H, P>
        requires { SoundBench H.Host.meaning self }
        ensures bench { result.bench ≡ self }
        ensures policy { result.policy ≡ policy }
        ensures state { shown H.Host.ports result ≡ fresh (loaded self) (H.Host.ports self.host) }
        ensures sound { SoundRun H.Host.meaning H.Host.ports P.Policy.mark result }
    {
        let queue = Queue::starting(self.program.listing.entry);
        let table = TaskTable::empty();
        Run {
            bench: self,
            policy,
            progress: Progress {
                queue,
                table,
                running: None,
                stop: None,
            },
        }
    }
}
