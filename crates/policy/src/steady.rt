// The earliest deadline first; on a tie the task that was chosen last, if it is among the tied, else the lower number.
ghost use Rattle.std.specs.Prelude.{◌≡◌, None};
ghost use Rattle.policy.specs.Choice.{Choice, Only};
ghost use Rattle.policy.specs.Policies.{EarlierThenLast, StaysOnTie, ChosenAgain, remembered, steady_mark};
ghost use Rattle.std.proofs.Common.{rules};

use crate::pending::PendingTask;
use crate::policy::Policy;
use crate::preference::{Preference, first};

#[derive(Drop)]
pub struct Steady {
    // The task that was chosen last, if any was.
    last: Option<u8>,
}

impl Steady {
    pub fn new() -> Steady
        ensures value { result ≡ record { last = None } }
    {
        Steady { last: None }
    }
}

impl Preference for Steady {
    ghost ahead = { λ s. EarlierThenLast s.last };

    ghost level = { Prim.search rules };

    ghost chained = { Prim.search rules };

    ghost settled = { Prim.search rules };

    fn prefers(&self, a: PendingTask, b: PendingTask) -> bool {
        (a.left, self.last != Some(a.task), a.task) < (b.left, self.last != Some(b.task), b.task)
    }
}

impl Policy for Steady {
    ghost mark = { steady_mark };

    fn choose(&mut self, pending: &[PendingTask]) -> Option<u8>
        ensures choice { Choice (steady_mark self.old) pending.now result }
        ensures same_mark { steady_mark self.new ≡ steady_mark self.old }
        ensures answer { StaysOnTie self.old.last pending.now result }
        ensures only { Only (StaysOnTie self.old.last pending.now) result }
        ensures stays { ChosenAgain self.old.last pending.now result }
        ensures after { self.new.last ≡ remembered self.old.last result }
    {
        let chosen = first(self, pending);
        self.last = chosen.or(self.last);
        chosen
    }
}
