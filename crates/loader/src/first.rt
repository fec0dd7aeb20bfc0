// The first program of a bench.
ghost use Rattle.std.specs.Prelude.{◌≡◌, ◌≤◌, if◌then◌else◌, nat_lt};
ghost use Rattle.ecode.specs.declared.code.Cell.TheVariants.{NotHeld, Idle};
ghost use Rattle.ecode.specs.Image.{listed};
ghost use Rattle.ecode.specs.Verdict.{contents};
ghost use Rattle.ecode.specs.Accepted.{Accepted, lone_return};

use ecode::code::{BLANK, Cell, Instruction, Line, Listing, Program};
use ecode::sheet::Sheet;
use ecode::table::padded;

// Every task idle.
fn idle_row(tasks: u8) -> [Cell; 8]
    requires { tasks ≤ 8 }
    ensures { result ≡ listed 8 (λ t. (if nat_lt t tasks then Idle else NotHeld)) }
{
    let mut row = [Cell::NotHeld; 8];
    row[..usize::from(tasks)].fill(Cell::Idle);
    row
}

// A lone return with every task idle, and budgets of 1: accepted for every sheet.
pub fn first_program(sheet: &Sheet) -> Program
    ensures contents { contents sheet.now.tasks result ≡ lone_return sheet.now }
    ensures accepted { Accepted sheet.now (contents sheet.now.tasks result) }
{
    let line = Line {
        instruction: Instruction::Return,
        row: idle_row(sheet.tasks),
    };
    Program {
        listing: Listing {
            lines: padded(&[line], BLANK),
            count: 1,
            entry: 0,
        },
        budgets: [1; 8],
    }
}
