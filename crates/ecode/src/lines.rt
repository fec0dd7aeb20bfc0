// Reading a listing.
ghost use Rattle.std.specs.Prelude.{◌≡◌, slice_index_or};
ghost use Rattle.ecode.specs.Typing.{blank};
ghost use Rattle.ecode.specs.Verdict.{lines_of};

use crate::code::{BLANK, Line, Listing};

impl Listing {
    // The lines at the addresses below the count.
    pub fn in_use(&self) -> &[Line]
        ensures { result.now ≡ lines_of self.now }
    {
        &self.lines[..usize::from(self.count)]
    }
}

// The line at an address, or the other where there is none.
pub fn line_or<'a>(listing: &'a Listing, a: u16, other: &'a Line) -> &'a Line
    ensures { result.now ≡ slice_index_or (lines_of listing.now) a other.now }
{
    listing.in_use().get(usize::from(a)).unwrap_or(other)
}

// The line at an address, blank where there is none.
pub fn line_at(listing: &Listing, a: u16) -> Line
    ensures { result ≡ slice_index_or (lines_of listing.now) a blank }
{
    *line_or(listing, a, &BLANK)
}
