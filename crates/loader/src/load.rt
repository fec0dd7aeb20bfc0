// The load sum: budgets over least windows, in whole numbers.
ghost use Rattle.std.specs.Prelude.{◌≡◌, ◌+◌, ◌*◌, ◌^◌, ◌≤◌, take, if◌then◌else◌, nat_eq};
ghost use Rattle.ecode.specs.Rules.{Judged};
ghost use Rattle.ecode.specs.Load.{lesser, window};
ghost use Rattle.ecode.specs.Verdict.{lines_of, sum_rules};
ghost use Rattle.ecode.specs.Accepted.{LoadIs};

use ecode::code::{Instruction, Listing, LoadSum, Program};
use ecode::fault::LoadFault;
use ecode::sheet::Sheet;

fn lesser_window(t: u8, instruction: Instruction, best: u8) -> u8
    ensures { result ≡ lesser t instruction best }
{
    match instruction {
        Instruction::Release { task, window } if task == t && (best == 0 || window < best) =>
            window,
        _ => best,
    }
}

// The smallest window among the releases of task t, 0 if there is none: no Option, since the load sum's definition reads it so.
pub fn least_window(listing: &Listing, t: u8) -> u8
    ensures { result ≡ window (lines_of listing.now) t }
{
    let mut best = 0;
    // an index over the code: the form that the project asks for
    for a in 0..usize::from(listing.count) {
        best = lesser_window(t, listing.lines[a].instruction, best);
    }
    best
}

// One more budget, divided by its window; a task with no window does not count.
fn with_task(sum: LoadSum, budget: u8, window: u8) -> LoadSum
    requires { (sum.parts ≤ sum.whole) × (sum.whole ≤ 255 ^ 7) }
    ensures parts { result.parts ≡ (if nat_eq window 0 then sum.parts else sum.parts * window + budget * sum.whole) }
    ensures whole { result.whole ≡ (if nat_eq window 0 then sum.whole else sum.whole * window) }
{
    if window == 0 {
        return sum;
    }
    let w = u128::from(window);
    let b = u128::from(budget);
    LoadSum {
        parts: sum.parts * w + b * sum.whole,
        whole: sum.whole * w,
    }
}

// The load sum of a program, or the task at which it passes 1.
pub fn load_sum(sheet: &Sheet, program: &Program) -> Result<LoadSum, LoadFault>
    ensures { Judged (sum_rules sheet.now (lines_of program.now.listing) (take sheet.now.tasks program.now.budgets)) (LoadIs sheet.now.tasks (lines_of program.now.listing) (take sheet.now.tasks program.now.budgets)) result }
{
    let mut sum = LoadSum { parts: 0, whole: 1 };
    let budgets = &program.budgets[..usize::from(sheet.tasks)];
    for (t, budget) in budgets.iter().enumerate() {
        let task = t as u8;
        sum = with_task(sum, *budget, least_window(&program.listing, task));
        if sum.parts > sum.whole {
            return Err(LoadFault::Overload { task });
        }
    }
    Ok(sum)
}
