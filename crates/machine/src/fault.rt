// Why a call on a run was refused. Each fault says its number and place.
ghost use Rattle.std.specs.Prelude.{◌≡◌};
ghost use Rattle.machine.specs.Calls.{fault_of};
ghost use Rattle.machine.specs.Refusals.{run_refusal};

use crate::stop::Stop;

#[derive(Clone, Copy, PartialEq, Eq)]
pub enum RunFault {
    Readings { given: usize },
    NotRunning { task: u8 },
    BudgetUsedUp { task: u8 },
    Touched { task: u8 },
    AfterStop { task: u8 },
    NoPort { port: u8 },
}

// A refusal as the caller reads it. The place is a number of readings, a task or a port, by the number.
// Refusals are told by number, as the project's rule has it; the code goes by RunFault.
#[derive(Clone, Copy, PartialEq, Eq)]
pub struct RunRefusal {
    pub number: u8,
    pub place: usize,
}

impl RunFault {
    pub fn refusal(self) -> RunRefusal
        ensures { result ≡ run_refusal self }
    {
        let (number, place) = match self {
            RunFault::Readings { given } => (12, given),
            RunFault::NotRunning { task } => (13, task as usize),
            RunFault::BudgetUsedUp { task } => (14, task as usize),
            RunFault::Touched { task } => (15, task as usize),
            RunFault::AfterStop { task } => (16, task as usize),
            RunFault::NoPort { port } => (17, port as usize),
        };
        RunRefusal { number, place }
    }
}

// The refusal of a tick that stopped.
impl From<Stop> for RunFault {
    ghost from_gives = { λ s r. r ≡ fault_of s };

    fn from(stop: Stop) -> RunFault {
        match stop {
            Stop::BudgetUsedUp { task } => RunFault::BudgetUsedUp { task },
            Stop::Touched { task, .. } => RunFault::Touched { task },
        }
    }
}
