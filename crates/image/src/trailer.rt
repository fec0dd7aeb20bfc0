// The trailer: the last 8 bytes of an image.
ghost use Rattle.std.specs.Prelude.{◌≡◌};
ghost use Rattle.ecode.specs.Rules.{Judged};
ghost use Rattle.ecode.specs.Image.{trailer_of};
ghost use Rattle.ecode.specs.Verdict.{trailer_rules};
ghost use Rattle.ecode.specs.Parts.{FromTrailer};

use ecode::code::Trailer;
use ecode::fault::ImageFault;
use ecode::sheet::Sheet;

// The last 8 bytes of an image, if it has as many.
pub fn trailer_bytes(image: &[u8]) -> Option<[u8; 8]>
    ensures { result ≡ trailer_of image.now }
{
    image.last_chunk().copied()
}

pub fn read_trailer(sheet: &Sheet, image: &[u8]) -> Result<Trailer, ImageFault>
    ensures { Judged (trailer_rules sheet.now image.now) (FromTrailer image.now) result }
{
    let Some(trailer) = trailer_bytes(image) else {
        return Err(ImageFault::TooShort);
    };
    let [high, low, entry, tasks, drivers, conditions, form, mark] = trailer;
    let len = image.len();
    if form != 1 || mark != 0xe5 {
        return Err(ImageFault::FormOrMark { place: len - 2 });
    }
    let told = u16::from_be_bytes([high, low]);
    if told == 0 || told % 20 != 0 || told > 4000 || len != usize::from(told) + 8 {
        return Err(ImageFault::RecordLength { place: len - 8 });
    }
    if tasks != sheet.tasks || drivers != sheet.drivers || conditions != sheet.conditions {
        return Err(ImageFault::Counts { place: len - 5 });
    }
    let count = told / 20;
    let entry = u16::from(entry);
    if entry >= count {
        return Err(ImageFault::Entry { place: len - 6 });
    }
    Ok(Trailer { count, entry })
}
