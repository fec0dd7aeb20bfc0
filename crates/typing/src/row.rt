// Rows: what flows on from an instruction, and the tasks that a row holds.
ghost use Rattle.std.specs.Prelude.{◌≡◌, ℕ, ◌<◌, slice_index_or};
ghost use Rattle.ecode.specs.declared.code.Cell.TheVariants.{NotHeld};
ghost use Rattle.ecode.specs.Wiring.{all_below};
ghost use Rattle.ecode.specs.Typing.{flows, held, next_cell, cell, held_set, keeps_fewer};
ghost use Rattle.typing.specs.Waits.{target_byte};
ghost use Rattle.typing.specs.Rows.{allows};

use crate::cell::{cell_after, cell_at_target, flows_into, is_allowed, is_held};
use ecode::code::{Cell, Instruction, Line};
use ecode::sheet::Sheet;

// Whether the instruction is allowed by the cells of all tasks.
pub fn row_allows(sheet: &Sheet, line: &Line) -> bool
    ensures { result ≡ allows sheet.now line.now }
{
    (0..sheet.tasks)
        .zip(&line.row)
        .all(|(t, cell)| is_allowed(sheet, line.instruction, t, *cell))
}

// A row with the cell of each task changed.
fn changed<F: Fn(u8, Cell) -> Cell>(sheet: &Sheet, mut row: [Cell; 8], change: F) -> [Cell; 8]
    requires { F.IsAlwaysCallable change }
    ensures { (t : ℕ) → t < sheet.now.tasks → F.post change t (slice_index_or row t NotHeld) (slice_index_or result t NotHeld) }
{
    let cells = &mut row[..usize::from(sheet.tasks)];
    for (t, cell) in cells.iter_mut().enumerate() {
        *cell = change(t as u8, *cell);
    }
    row
}

// The row that flows into the next.
pub fn row_after(sheet: &Sheet, line: &Line) -> [Cell; 8]
    ensures { (t : ℕ) → t < sheet.now.tasks → slice_index_or result t NotHeld ≡ next_cell sheet.now line.now.instruction t (cell line.now t) }
{
    changed(
        sheet,
        line.row,
        |t, cell| cell_after(sheet, line.instruction, t, cell),
    )
}

// The row that flows into the row at the target.
pub fn row_at_target(sheet: &Sheet, line: &Line) -> [Cell; 8]
    ensures { (t : ℕ) → t < sheet.now.tasks → slice_index_or result t NotHeld ≡ target_byte line.now.instruction t (cell line.now t) }
{
    changed(
        sheet,
        line.row,
        |t, cell| cell_at_target(line.instruction, t, cell),
    )
}

// Whether a row flows into another, task by task.
pub fn row_flows(sheet: &Sheet, row: &[Cell; 8], into: &[Cell; 8]) -> bool
    ensures { result ≡ all_below sheet.now.tasks (λ t. flows (slice_index_or row.now t NotHeld) (slice_index_or into.now t NotHeld)) }
{
    row.iter()
        .zip(into)
        .take(usize::from(sheet.tasks))
        .all(|(a, b)| flows_into(*a, *b))
}

// The set of the tasks that a row holds.
fn held_tasks(row: &[Cell; 8]) -> u8
    ensures { result ≡ held_set row.now }
{
    row.iter()
        .rev()
        .fold(0, |mask, cell| mask << 1 | u8::from(is_held(*cell)))
}

// Whether a future keeps fewer tasks than the row holds.
pub fn parts_with_a_task(instruction: Instruction, row: &[Cell; 8]) -> bool
    ensures { result ≡ keeps_fewer instruction row.now }
{
    match instruction {
        Instruction::Future { kept, .. } => kept.count_ones() < held_tasks(row).count_ones(),
        _ => true,
    }
}

// Whether a row holds all tasks.
pub fn all_held(sheet: &Sheet, row: &[Cell; 8]) -> bool
    ensures { result ≡ all_below sheet.now.tasks (λ t. held (slice_index_or row.now t NotHeld)) }
{
    row.iter()
        .take(usize::from(sheet.tasks))
        .all(|cell| is_held(*cell))
}
