// Why an image or its budgets were refused. Each fault holds the one below it whole, and says its number, place and layer.
ghost use Rattle.std.specs.Prelude.{◌≡◌};
ghost use Rattle.ecode.specs.declared.fault.CodeFault.TheVariants.{Image};
ghost use Rattle.ecode.specs.declared.fault.LoadFault.TheVariants.{Code};

// A fault of the image's layout.
#[derive(Clone, Copy, PartialEq, Eq)]
pub enum ImageFault {
    TooShort,
    FormOrMark { place: usize },
    RecordLength { place: usize },
    Counts { place: usize },
    Entry { place: usize },
    Operation { address: u16 },
    RowPair { address: u16 },
    Target { address: u16 },
}

// A fault of the code: its image's, or a typing rule that does not hold at an address.
#[derive(Clone, Copy, PartialEq, Eq)]
pub enum CodeFault {
    Image(ImageFault),
    Typing { address: u16 },
}

// A fault of the load: its code's, a budget's, or the load sum's.
#[derive(Clone, Copy, PartialEq, Eq)]
pub enum LoadFault {
    Code(CodeFault),
    Budget { task: u8 },
    Overload { task: u8 },
}

impl From<ImageFault> for CodeFault {
    ghost from_gives = { λ f r. r ≡ Image f };

    fn from(fault: ImageFault) -> CodeFault {
        CodeFault::Image(fault)
    }
}

impl From<CodeFault> for LoadFault {
    ghost from_gives = { λ f r. r ≡ Code f };

    fn from(fault: CodeFault) -> LoadFault {
        LoadFault::Code(fault)
    }
}

// The part of the check in which a fault arises.
#[derive(Clone, Copy, PartialEq, Eq)]
pub enum Layer {
    Image,
    Check,
    Load,
}

// A refusal as the caller reads it. The place is a byte, an address or a task, by the number. Refusals are told
// by number, to callers in C too; the code goes by the faults.
#[derive(Clone, Copy, PartialEq, Eq)]
pub struct Refusal {
    pub number: u8,
    pub place: usize,
    pub layer: Layer,
}
