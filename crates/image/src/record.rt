// A record: an instruction and its row, read from 20 bytes.
ghost use Rattle.std.specs.Prelude.{◌≡◌, ◌<◌, length, if◌then◌else◌, Some, None};
ghost use Rattle.ecode.specs.Rules.{Judged};
ghost use Rattle.ecode.specs.Instructions.{aimed};
ghost use Rattle.ecode.specs.Image.{decoded, cell_of, row_fine, row_in, line};
ghost use Rattle.ecode.specs.Verdict.{record_rules};

use crate::opcode::Opcode;
use ecode::code::{Cell, Instruction, Line};
use ecode::fault::ImageFault;
use ecode::sheet::Sheet;
use ecode::ticks::is_tick_count;

// The instruction that an opcode and its operands make.
fn decode(sheet: &Sheet, opcode: u8, x: u8, y: u8, z: u8) -> Option<Instruction>
    ensures { result ≡ decoded sheet.now opcode x y z }
{
    let to = u16::from(y);
    match Opcode::try_from(opcode).ok()? {
        Opcode::Call => (x < sheet.drivers && y == 0 && z == 0).then_some(Instruction::Call {
            driver: x,
        }),
        Opcode::Release => (x < sheet.tasks && is_tick_count(y) && z == 0).then_some(
            Instruction::Release { task: x, window: y },
        ),
        Opcode::Future => (is_tick_count(x) && u16::from(z) < 1 << sheet.tasks).then_some(
            Instruction::Future {
                wait: x,
                to,
                kept: z,
            },
        ),
        Opcode::If => (x < sheet.conditions && z == 0).then_some(Instruction::If {
            condition: x,
            to,
        }),
        Opcode::Jump => (x == 0 && z == 0).then_some(Instruction::Jump { to }),
        Opcode::Return => (x == 0 && y == 0 && z == 0).then_some(Instruction::Return),
    }
}

// What a row's pair says of task t.
pub fn read_cell(tasks: u8, t: u8, consumed: u8, remaining: u8) -> Option<Cell>
    ensures { result ≡ cell_of tasks t consumed remaining }
{
    match (consumed, remaining) {
        (255, 0) => Some(Cell::NotHeld),
        _ if t >= tasks => None,
        (254, 0) => Some(Cell::Idle),
        _ => consumed
            .checked_add(remaining)
            .is_some_and(is_tick_count)
            .then_some(Cell::Released {
                consumed,
                remaining,
            }),
    }
}

// A row of eight pairs.
fn read_row(tasks: u8, bytes: &[u8]) -> Option<[Cell; 8]>
    requires { length bytes.now ≡ 16 }
    ensures { result ≡ (if row_fine tasks bytes.now then Some (row_in tasks bytes.now) else None) }
{
    let (pairs, _) = bytes.as_chunks::<2>();
    let mut row = [Cell::NotHeld; 8];
    // by its number: a proof sees nothing of what a zip with iter_mut writes
    for (t, [consumed, remaining]) in pairs.iter().enumerate() {
        row[t] = read_cell(tasks, t as u8, *consumed, *remaining)?;
    }
    Some(row)
}

// Whether the addresses of the instruction at a lie among n lines.
fn is_aimed(n: u16, a: u16, instruction: Instruction) -> bool
    requires { a < 200 }
    ensures { result ≡ aimed n a instruction }
{
    match instruction {
        Instruction::Call { .. } | Instruction::Release { .. } => a + 1 < n,
        Instruction::Future { to, .. } => a + 1 < n && to < n,
        Instruction::If { to, .. } => a + 1 < n && to < n && a < to,
        Instruction::Jump { to } => to < n && a < to,
        Instruction::Return => true,
    }
}

// The record at the address a of n.
pub fn read_line(sheet: &Sheet, n: u16, a: u16, bytes: &[u8; 20]) -> Result<Line, ImageFault>
    requires { a < 200 }
    ensures { Judged (record_rules sheet.now n a bytes.now) (λ l. l ≡ line sheet.now bytes.now) result }
{
    let [opcode, x, y, z, row @ ..] = &bytes[..] else {
        unreachable!()
    };
    let Some(instruction) = decode(sheet, *opcode, *x, *y, *z) else {
        return Err(ImageFault::Operation { address: a });
    };
    let Some(row) = read_row(sheet.tasks, row) else {
        return Err(ImageFault::RowPair { address: a });
    };
    if !is_aimed(n, a, instruction) {
        return Err(ImageFault::Target { address: a });
    }
    Ok(Line { instruction, row })
}
