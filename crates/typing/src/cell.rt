// The typing rules of one task's cell.
ghost use Rattle.std.specs.Prelude.{◌≡◌, if◌then◌else◌, Some, None};
ghost use Rattle.ecode.specs.Instructions.{goes_on, names_address, target};
ghost use Rattle.ecode.specs.Typing.{flows, held, touchable, lasts, allowed, next_cell};
ghost use Rattle.typing.specs.Waits.{aged_byte, target_byte};

use ecode::code::{Cell, Instruction};
use ecode::set::has_member;
use ecode::sharing::sharing;
use ecode::sheet::Sheet;

// Whether a cell may stand where the other does.
pub fn flows_into(a: Cell, b: Cell) -> bool
    ensures { result ≡ flows a b }
{
    a == b || matches!((a, b), (Cell::Idle, Cell::Released { .. }))
}

pub fn is_held(c: Cell) -> bool
    ensures { result ≡ held c }
{
    matches!(c, Cell::Idle | Cell::Released { .. })
}

// Whether a driver may touch the task.
fn is_touchable(c: Cell) -> bool
    ensures { result ≡ touchable c }
{
    matches!(c, Cell::Idle | Cell::Released { remaining: 0, .. })
}

fn outlasts(wait: u8, c: Cell) -> bool
    ensures { result ≡ lasts wait c }
{
    match c {
        Cell::NotHeld | Cell::Idle => true,
        Cell::Released { remaining, .. } => wait <= remaining,
    }
}

// The wait added to consumed and taken from remaining.
fn after_wait(wait: u8, c: Cell) -> Cell
    ensures { result ≡ aged_byte wait c }
{
    match c {
        Cell::Released {
            consumed,
            remaining,
        } => Cell::Released {
            consumed: consumed.saturating_add(wait),
            remaining: remaining.saturating_sub(wait),
        },
        _ => c,
    }
}

// What the instruction asks of the cell of task t.
pub fn is_allowed(sheet: &Sheet, instruction: Instruction, t: u8, c: Cell) -> bool
    ensures { result ≡ allowed sheet.now instruction t c }
{
    match instruction {
        Instruction::Call { driver } => !sharing(sheet, driver, t) || is_touchable(c),
        Instruction::Release { task, .. } => t != task || c == Cell::Idle,
        Instruction::Future { kept, .. } if has_member(u32::from(kept), t) => is_held(c),
        Instruction::Future { wait, .. } => outlasts(wait, c),
        Instruction::If { .. } | Instruction::Jump { .. } => true,
        Instruction::Return => !matches!(c, Cell::Released { .. }),
    }
}

// The cell that flows into the next row.
pub fn cell_after(sheet: &Sheet, instruction: Instruction, t: u8, c: Cell) -> Cell
    ensures { result ≡ next_cell sheet.now instruction t c }
{
    match instruction {
        Instruction::Call { driver } if sharing(sheet, driver, t) => Cell::Idle,
        Instruction::Release { task, window } if task == t => Cell::Released {
            consumed: 0,
            remaining: window,
        },
        Instruction::Future { kept, .. } if !has_member(u32::from(kept), t) => Cell::NotHeld,
        _ => c,
    }
}

// The cell that flows into the row at the target.
pub fn cell_at_target(instruction: Instruction, t: u8, c: Cell) -> Cell
    ensures { result ≡ target_byte instruction t c }
{
    match instruction {
        Instruction::Future { kept, .. } if has_member(u32::from(kept), t) => Cell::NotHeld,
        Instruction::Future { wait, .. } => after_wait(wait, c),
        _ => c,
    }
}

// Whether the instruction has a next address.
pub fn has_next(instruction: Instruction) -> bool
    ensures { result ≡ goes_on instruction }
{
    !matches!(instruction, Instruction::Jump { .. } | Instruction::Return)
}

// The address that the instruction names, if it names one.
pub fn target_of(instruction: Instruction) -> Option<u16>
    ensures { result ≡ (if names_address instruction then Some (target instruction) else None) }
{
    match instruction {
        Instruction::Future { to, .. } | Instruction::If { to, .. } | Instruction::Jump { to } =>
            Some(to),
        _ => None,
    }
}
