// The lowest task number first, whatever the ticks left.
ghost use Rattle.std.specs.Prelude.{◌≡◌};
ghost use Rattle.policy.specs.Choice.{Choice, Only};
ghost use Rattle.policy.specs.Policies.{LowerNumber, LowestFirst, lowest_mark};
ghost use Rattle.std.proofs.Common.{rules};

use crate::pending::PendingTask;
use crate::policy::Policy;
use crate::preference::{Preference, first};

#[derive(Drop)]
pub struct LowestNumber;

impl LowestNumber {
    pub fn new() -> LowestNumber
        ensures value { result ≡ record {} }
    {
        LowestNumber
    }
}

impl Preference for LowestNumber {
    ghost ahead = { λ _. LowerNumber };

    ghost level = { Prim.search rules };

    ghost chained = { Prim.search rules };

    ghost settled = { Prim.search rules };

    fn prefers(&self, a: PendingTask, b: PendingTask) -> bool {
        a.task < b.task
    }
}

// Not one impl for every preference: Steady remembers what was chosen, and each policy promises its own answer.
impl Policy for LowestNumber {
    ghost mark = { lowest_mark };

    fn choose(&mut self, pending: &[PendingTask]) -> Option<u8>
        ensures choice { Choice (lowest_mark self.old) pending.now result }
        ensures same_mark { lowest_mark self.new ≡ lowest_mark self.old }
        ensures answer { LowestFirst pending.now result }
        ensures only { Only (LowestFirst pending.now) result }
    {
        first(self, pending)
    }
}
