// The data of a checked program: instructions with their rows, and the budgets.
ghost use Rattle.std.specs.Prelude.{◌≡◌, ◌<◌, ◌≤◌, length};

// What a row says of one task.
#[derive(Clone, Copy, PartialEq, Eq)]
pub enum Cell {
    NotHeld,
    Idle,
    Released { consumed: u8, remaining: u8 },
}

// A set of tasks is a mask, bit t for task t.
#[derive(Clone, Copy, PartialEq, Eq)]
pub enum Instruction {
    Call { driver: u8 },
    Release { task: u8, window: u8 },
    Future { wait: u8, to: u16, kept: u8 },
    If { condition: u8, to: u16 },
    Jump { to: u16 },
    Return,
}

// An instruction with its row: what holds of each task whenever the instruction is about to run.
#[derive(Clone, Copy)]
pub struct Line {
    pub instruction: Instruction,
    pub row: [Cell; 8],
}

// What stands where there is no line.
pub const BLANK: Line = Line {
    instruction: Instruction::Return,
    row: [Cell::NotHeld; 8],
};

// What a trailer says: the number of records and the entry.
#[derive(Clone, Copy)]
pub struct Trailer {
    pub count: u16,
    pub entry: u16,
}

// The lines at the addresses below count, with the bounds that all code over them rests on.
// Plain fields, as the project's rule has it, and `Copy`, which an `ArrayVec` is not.
#[derive(Clone, Copy)]
pub struct Listing {
    pub lines: [Line; 200],
    pub count: u16,
    pub entry: u16,
    ghost long: { length lines ≡ 200 },
    ghost few: { count ≤ 200 },
    ghost starts: { entry < count },
}

// A program: a listing and a budget in ticks for each task.
#[derive(Clone, Copy)]
pub struct Program {
    pub listing: Listing,
    pub budgets: [u8; 8],
}

// A sum of fractions: so many parts of a whole.
#[derive(Clone, Copy)]
pub struct LoadSum {
    pub parts: u128,
    pub whole: u128,
}
