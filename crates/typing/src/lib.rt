// The typing of code: the rules at each address of an image that was read.
#![tactic(auto)]

mod cell;
mod line;
mod row;

ghost use Rattle.ecode.specs.Rules.{Judged};
ghost use Rattle.ecode.specs.Verdict.{code_rules};
ghost use Rattle.ecode.specs.Parts.{FromImage};

use crate::line::check_typing;
pub use cell::{cell_after, cell_at_target, flows_into, has_next, is_allowed, is_held, target_of};
use ecode::code::Listing;
use ecode::fault::CodeFault;
use ecode::sheet::Sheet;
use image::read_image;
pub use row::parts_with_a_task;

// The listing of an image with its typing, or the fault of the earliest broken rule.
pub fn check_code(sheet: &Sheet, image: &[u8]) -> Result<Listing, CodeFault>
    ensures { Judged (code_rules sheet.now image.now) (FromImage sheet.now image.now) result }
{
    let listing = read_image(sheet, image)?;
    check_typing(sheet, &listing)?;
    Ok(listing)
}
