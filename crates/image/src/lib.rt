// An image read: its trailer, and its records at each address upward.
#![tactic(auto)]

mod listing;
mod opcode;
mod record;
mod trailer;

ghost use Rattle.ecode.specs.Rules.{Judged};
ghost use Rattle.ecode.specs.Verdict.{image_rules};
ghost use Rattle.ecode.specs.Parts.{FromImage};

use crate::listing::read_listing;
pub use crate::opcode::{NoOpcode, Opcode};
pub use crate::record::read_cell;
use crate::trailer::read_trailer;
pub use crate::trailer::trailer_bytes;
use ecode::code::Listing;
use ecode::fault::ImageFault;
use ecode::sheet::Sheet;

// The listing of an image, or the fault of the earliest broken rule of its layout.
pub fn read_image(sheet: &Sheet, image: &[u8]) -> Result<Listing, ImageFault>
    ensures { Judged (image_rules sheet.now image.now) (FromImage sheet.now image.now) result }
{
    let trailer = read_trailer(sheet, image)?;
    read_listing(sheet, image, trailer)
}
