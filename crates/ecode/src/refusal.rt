// The number, place and layer of each fault.
ghost use Rattle.std.specs.Prelude.{◌≡◌};
ghost use Rattle.ecode.specs.Refusals.{image_refusal, code_refusal, load_refusal};

use crate::fault::{CodeFault, ImageFault, Layer, LoadFault, Refusal};

impl ImageFault {
    pub fn refusal(self) -> Refusal
        ensures { result ≡ image_refusal self }
    {
        let (number, place) = match self {
            ImageFault::TooShort => (1, 0),
            ImageFault::FormOrMark { place } => (2, place),
            ImageFault::RecordLength { place } => (3, place),
            ImageFault::Counts { place } => (4, place),
            ImageFault::Entry { place } => (5, place),
            ImageFault::Operation { address } => (6, usize::from(address)),
            ImageFault::RowPair { address } => (7, usize::from(address)),
            ImageFault::Target { address } => (8, usize::from(address)),
        };
        Refusal {
            number,
            place,
            layer: Layer::Image,
        }
    }
}

impl CodeFault {
    pub fn refusal(self) -> Refusal
        ensures { result ≡ code_refusal self }
    {
        match self {
            CodeFault::Image(fault) => fault.refusal(),
            CodeFault::Typing { address } => Refusal {
                number: 9,
                place: usize::from(address),
                layer: Layer::Check,
            },
        }
    }
}

impl LoadFault {
    pub fn refusal(self) -> Refusal
        ensures { result ≡ load_refusal self }
    {
        match self {
            LoadFault::Code(fault) => fault.refusal(),
            LoadFault::Budget { task } => Refusal {
                number: 10,
                place: usize::from(task),
                layer: Layer::Load,
            },
            LoadFault::Overload { task } => Refusal {
                number: 11,
                place: usize::from(task),
                layer: Layer::Load,
            },
        }
    }
}
