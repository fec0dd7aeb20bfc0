// Shares and loads as fractions, and what stands behind the numbers 10 and 11.
ghost use Rattle.std.specs.Prelude.{◌≡◌, ◌+◌, ◌*◌, ◌≤◌, IfSome, MatchOption};
ghost use Rattle.ecode.specs.Rules.{Judged};
ghost use Rattle.fraction.specs.Lowest.{Lowest};
ghost use Rattle.pitchbox.specs.Loads.{sums, LoadIs};

use crate::names::{Counted, Part};
use ecode::code::{Listing, Program};
use ecode::fault::LoadFault;
use ecode::sheet::Sheet;
use fraction::fraction::Fraction;
use loader::load::{least_window, load_sum};
use std::fmt;

// The share of a task: its budget over its least window, in lowest terms; none where it is not released.
pub fn share(budget: u8, window: u8) -> Option<Fraction>
    ensures { MatchOption result (window ≡ 0) (λ s. Lowest budget window s.parts s.whole) }
{
    Fraction::new(u128::from(budget), u128::from(window)).map(Fraction::reduced)
}

// The load of a program in lowest terms, or the task at which it passes 1.
pub fn load_of(sheet: &Sheet, program: &Program) -> Result<Fraction, LoadFault>
    ensures { Judged (sums sheet.now program.now) (LoadIs sheet.now program.now) result }
{
    let sum = load_sum(sheet, program)?;
    // Field by field: a From would have to stand in the crate of the sum or of the fraction, which do not know each other.
    let load = Fraction {
        parts: sum.parts,
        whole: sum.whole,
    };
    Ok(load.reduced())
}

// The sum with one more budget over its window, if the numbers stay small enough; a window of 0 does not count.
fn add_share(sum: Fraction, budget: u8, window: u8) -> Option<Fraction>
    ensures { IfSome result (λ s. (window ≡ 0 → (s.parts ≡ sum.parts) × (s.whole ≡ sum.whole)) × (1 ≤ window → (s.parts ≡ sum.parts * window + budget * sum.whole) × (s.whole ≡ sum.whole * window))) }
{
    if window == 0 {
        return Some(sum);
    }
    let window = u128::from(window);
    let old = sum.parts.checked_mul(window)?;
    let new = sum.whole.checked_mul(u128::from(budget))?;
    let parts = old.checked_add(new)?;
    let whole = sum.whole.checked_mul(window)?;
    Fraction::new(parts, whole)
}

// A budget sheet with a fault at a task: its length is wrong, or the task's budget.
#[derive(Clone, Copy)]
pub struct BadBudget<'a> {
    pub sheet: &'a Sheet,
    pub budgets: &'a [u8],
    pub task: u8,
}

impl fmt::Display for BadBudget<'_> {
    fn fmt<W: fmt::Write>(&self, f: &mut fmt::Formatter<W>) -> fmt::Result {
        let tasks = usize::from(self.sheet.tasks);
        if self.budgets.len() != tasks {
            let bytes = Counted(self.budgets.len(), "byte");
            let tasks = Counted(tasks, "task");
            writeln!(
                f,
                "  The budget sheet has {bytes}, and the drive has {tasks}."
            )?;
            return write!(
                f,
                "  Look at the budget sheet: it is one byte for each task, and no more."
            );
        }
        let t = self.task;
        let task = Part::Task(t);
        let budget = self.budgets.get(usize::from(t)).copied().unwrap_or(0);
        writeln!(
            f,
            "  The budget of {task} is {budget}, and must be 1 to 240 ticks."
        )?;
        write!(f, "  Look at byte {t} of the budget sheet.")
    }
}

// The load of the tasks up to one, with which it passes 1.
#[derive(Clone, Copy)]
pub struct Overload<'a> {
    pub listing: &'a Listing,
    pub budgets: &'a [u8],
    pub task: u8,
}

impl Overload<'_> {
    // That load in lowest terms, if its numbers stay small enough.
    fn load(&self) -> Option<Fraction> {
        let budgets = self.budgets.get(..=usize::from(self.task))?;
        let none = Fraction { parts: 0, whole: 1 };
        let sum = (0..=self.task).zip(budgets).try_fold(
            none,
            |sum, (t, budget)| add_share(sum, *budget, least_window(self.listing, t)),
        )?;
        Some(sum.reduced())
    }

    // The tasks, each with its budget over its least window.
    fn write_shares<W: fmt::Write>(&self, f: &mut fmt::Formatter<W>) -> fmt::Result {
        write!(f, "  Budgets over least windows:")?;
        for (t, budget) in (0..=self.task).zip(self.budgets) {
            let task = Part::Task(t);
            if t > 0 {
                write!(f, ",")?;
            }
            match least_window(self.listing, t) {
                0 => write!(f, " {task} not released")?,
                window => write!(f, " {task} {budget}/{window}")?,
            }
        }
        writeln!(f, ".")
    }
}

impl fmt::Display for Overload<'_> {
    fn fmt<W: fmt::Write>(&self, f: &mut fmt::Formatter<W>) -> fmt::Result {
        let task = Part::Task(self.task);
        match self.load() {
            Some(load) => writeln!(
                f,
                "  With {task} the load comes to {load}, which is more than 1."
            )?,
            None => writeln!(f, "  With {task} the load comes to more than 1.")?,
        }
        self.write_shares(f)?;
        write!(
            f,
            "  Look at these budgets, and at the windows of these tasks' releases."
        )
    }
}
