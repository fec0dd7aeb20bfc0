// A refusal's number, place and layer, in words.
use crate::names::{Named, Part};
use ecode::fault::{CodeFault, ImageFault, LoadFault};
use std::fmt;

// The heading of a refusal.
#[derive(Clone, Copy)]
pub struct Heading(pub LoadFault);

// The place of a refusal: of a byte or an address, or the number of a task.
#[derive(Clone, Copy, PartialEq, Eq)]
enum Place {
    Byte(usize),
    Address(u16),
    Task(u8),
}

impl From<ImageFault> for Place {
    fn from(fault: ImageFault) -> Place {
        match fault {
            ImageFault::TooShort => Place::Byte(0),
            ImageFault::FormOrMark { place }
            | ImageFault::RecordLength { place }
            | ImageFault::Counts { place }
            | ImageFault::Entry { place } => Place::Byte(place),
            ImageFault::Operation { address }
            | ImageFault::RowPair { address }
            | ImageFault::Target { address } => Place::Address(address),
        }
    }
}

impl From<CodeFault> for Place {
    fn from(fault: CodeFault) -> Place {
        match fault {
            CodeFault::Image(fault) => Place::from(fault),
            CodeFault::Typing { address } => Place::Address(address),
        }
    }
}

impl From<LoadFault> for Place {
    fn from(fault: LoadFault) -> Place {
        match fault {
            LoadFault::Code(fault) => Place::from(fault),
            LoadFault::Budget { task } | LoadFault::Overload { task } => Place::Task(task),
        }
    }
}

impl fmt::Display for Place {
    fn fmt<W: fmt::Write>(&self, f: &mut fmt::Formatter<W>) -> fmt::Result {
        match *self {
            Place::Byte(n) => write!(f, "byte {n}"),
            Place::Address(n) => write!(f, "address {n}"),
            // A number that no task has is that of all tasks: of budgets there are too few or many.
            Place::Task(n) => match Part::Task(n).name() {
                Some(name) => write!(f, "task {n} ({name})"),
                None => write!(f, "{n}, the number of tasks"),
            },
        }
    }
}

impl fmt::Display for Heading {
    fn fmt<W: fmt::Write>(&self, f: &mut fmt::Formatter<W>) -> fmt::Result {
        let refusal = self.0.refusal();
        let number = refusal.number;
        let place = Place::from(self.0);
        let layer = Named(refusal.layer);
        write!(f, "REFUSED  number {number} at {place}, layer {layer}")
    }
}
