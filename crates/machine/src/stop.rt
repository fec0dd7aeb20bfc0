// Why a run stands still.
ghost use Rattle.std.specs.Prelude.{◌≡◌};
ghost use Rattle.machine.specs.Refusals.{stop_number, stop_task, stop_address};

// A task has used up its budget, or the instruction at an address would have touched a pending task.
#[derive(Clone, Copy, PartialEq, Eq)]
pub enum Stop {
    BudgetUsedUp { task: u8 },
    Touched { task: u8, address: u16 },
}

impl Stop {
    // The number of the refusal that the stop is.
    pub fn number(self) -> u8
        ensures { result ≡ stop_number self }
    {
        match self {
            Stop::BudgetUsedUp { .. } => 14,
            Stop::Touched { .. } => 15,
        }
    }

    // The task whose budget is used up, or that would have been touched.
    pub fn task(self) -> u8
        ensures { result ≡ stop_task self }
    {
        match self {
            Stop::BudgetUsedUp { task } | Stop::Touched { task, .. } => task,
        }
    }

    // The address of the instruction that would have touched the task, 0 for a budget.
    pub fn address(self) -> u16
        ensures { result ≡ stop_address self }
    {
        match self {
            Stop::BudgetUsedUp { .. } => 0,
            Stop::Touched { address, .. } => address,
        }
    }
}
