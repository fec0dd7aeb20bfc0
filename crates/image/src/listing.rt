// The records of an image, read into a listing.
ghost use Rattle.ecode.specs.Rules.{Judged};
ghost use Rattle.ecode.specs.Verdict.{layout_rules};
ghost use Rattle.ecode.specs.Parts.{FromTrailer, FromRecords};

use crate::record::read_line;
use ecode::code::{BLANK, Listing, Trailer};
use ecode::fault::ImageFault;
use ecode::sheet::Sheet;

pub fn read_listing(sheet: &Sheet, image: &[u8], trailer: Trailer) -> Result<Listing, ImageFault>
    requires { FromTrailer image.now trailer }
    ensures { Judged (layout_rules sheet.now image.now trailer.count) (FromRecords sheet.now image.now trailer) result }
{
    let (records, _) = image.as_chunks::<20>();
    let mut lines = [BLANK; 200];
    // by its address: a proof sees nothing of what a zip with iter_mut writes
    for (a, record) in records.iter().enumerate() {
        lines[a] = read_line(sheet, trailer.count, a as u16, record)?;
    }
    Ok(Listing {
        lines,
        count: trailer.count,
        entry: trailer.entry,
    })
}
