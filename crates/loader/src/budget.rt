// The budget sheet: a byte for each task.
ghost use Rattle.std.specs.Prelude.{◌≡◌, take};
ghost use Rattle.ecode.specs.Rules.{Judged};
ghost use Rattle.ecode.specs.Verdict.{budget_rules};

use ecode::fault::LoadFault;
use ecode::sheet::Sheet;
use ecode::table::padded;
use ecode::ticks::is_tick_count;

pub fn read_budgets(sheet: &Sheet, budgets: &[u8]) -> Result<[u8; 8], LoadFault>
    ensures { Judged (budget_rules sheet.now budgets.now) (λ own. take sheet.now.tasks own ≡ budgets.now) result }
{
    if budgets.len() != usize::from(sheet.tasks) {
        return Err(LoadFault::Budget { task: sheet.tasks });
    }
    match budgets.iter().position(|b| !is_tick_count(*b)) {
        Some(t) => Err(LoadFault::Budget { task: t as u8 }),
        None => Ok(padded(budgets, 1)),
    }
}
