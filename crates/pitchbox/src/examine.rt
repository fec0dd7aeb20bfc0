// The check of an image and its budgets, and the load of what it accepts.
ghost use Rattle.pitchbox.specs.Loads.{Examined};

use crate::load_fault::load_of;
use ecode::code::Program;
use ecode::fault::LoadFault;
use ecode::sheet::Sheet;
use fraction::fraction::Fraction;
use loader::check;

// A program that was accepted, with its load in lowest terms.
#[derive(Clone, Copy)]
pub struct Accepted {
    pub program: Program,
    pub load: Fraction,
}

pub fn examine(sheet: &Sheet, image: &[u8], budgets: &[u8]) -> Result<Accepted, LoadFault>
    ensures { Examined sheet.now image.now budgets.now result }
{
    let program = check(sheet, image, budgets)?;
    let load = load_of(sheet, &program)?;
    Ok(Accepted { program, load })
}
