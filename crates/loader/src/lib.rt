// The load: budgets, the load sum, and the whole check of an image and its budgets.
#![tactic(auto)]

mod budget;
pub mod first;
pub mod load;

ghost use Rattle.ecode.specs.Accepted.{Checked};

use crate::budget::read_budgets;
use crate::load::load_sum;
use ecode::code::Program;
use ecode::fault::LoadFault;
use ecode::sheet::Sheet;
use typing::check_code;

// Accepts a program, or names the earliest broken rule.
pub fn check(sheet: &Sheet, image: &[u8], budgets: &[u8]) -> Result<Program, LoadFault>
    ensures { Checked sheet.now image.now budgets.now result }
{
    let listing = check_code(sheet, image)?;
    let own = read_budgets(sheet, budgets)?;
    let program = Program {
        listing,
        budgets: own,
    };
    load_sum(sheet, &program)?;
    Ok(program)
}
