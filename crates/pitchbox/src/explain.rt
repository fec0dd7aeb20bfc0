// A refusal with its explanation.
use crate::image_fault::BadImage;
use crate::load_fault::{BadBudget, Overload};
use crate::place::Heading;
use crate::typing_fault::find_break;
use ecode::fault::{CodeFault, LoadFault};
use ecode::sheet::Sheet;
use image::read_image;
use std::fmt;

// What was refused, and why: the heading, and below it what is wrong there.
#[derive(Clone, Copy)]
pub struct Explained<'a> {
    pub sheet: &'a Sheet,
    pub image: &'a [u8],
    pub budgets: &'a [u8],
    pub fault: LoadFault,
}

impl Explained<'_> {
    fn write_typing<W: fmt::Write>(&self, f: &mut fmt::Formatter<W>, address: u16) -> fmt::Result {
        let listing = read_image(self.sheet, self.image).ok();
        match listing.and_then(|listing| find_break(self.sheet, &listing, address)) {
            Some(broken) => write!(f, "{broken}"),
            None => write!(f, "  Look at the instruction and the rows there."),
        }
    }

    fn write_overload<W: fmt::Write>(&self, f: &mut fmt::Formatter<W>, task: u8) -> fmt::Result {
        let Ok(listing) = read_image(self.sheet, self.image) else {
            return write!(f, "  Look at the budgets and the windows.");
        };
        let overload = Overload {
            listing: &listing,
            budgets: self.budgets,
            task,
        };
        write!(f, "{overload}")
    }
}

impl fmt::Display for Explained<'_> {
    fn fmt<W: fmt::Write>(&self, f: &mut fmt::Formatter<W>) -> fmt::Result {
        let Explained {
            sheet,
            image,
            budgets,
            fault,
        } = *self;
        writeln!(f, "{}", Heading(fault))?;
        match fault {
            LoadFault::Code(CodeFault::Image(fault)) => {
                let bad = BadImage {
                    sheet,
                    image,
                    fault,
                };
                write!(f, "{bad}")
            }
            LoadFault::Code(CodeFault::Typing { address }) => self.write_typing(f, address),
            LoadFault::Budget { task } => {
                let bad = BadBudget {
                    sheet,
                    budgets,
                    task,
                };
                write!(f, "{bad}")
            }
            LoadFault::Overload { task } => self.write_overload(f, task),
        }
    }
}
