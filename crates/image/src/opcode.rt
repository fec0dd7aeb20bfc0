// The opcodes, by their bytes and names.
ghost use Rattle.image.specs.Opcodes.{Decodes};

use std::fmt;

#[derive(Clone, Copy, PartialEq, Eq)]
pub enum Opcode {
    Call,
    Release,
    Future,
    If,
    Jump,
    Return,
}

// A byte that stands for no opcode.
#[derive(Clone, Copy, PartialEq, Eq)]
pub struct NoOpcode;

impl TryFrom<u8> for Opcode {
    type Error = NoOpcode;

    ghost try_from_gives = { Decodes };

    fn try_from(byte: u8) -> Result<Opcode, NoOpcode> {
        match byte {
            1 => Ok(Opcode::Call),
            2 => Ok(Opcode::Release),
            3 => Ok(Opcode::Future),
            4 => Ok(Opcode::If),
            5 => Ok(Opcode::Jump),
            6 => Ok(Opcode::Return),
            _ => Err(NoOpcode),
        }
    }
}

impl fmt::Display for Opcode {
    fn fmt<W: fmt::Write>(&self, f: &mut fmt::Formatter<W>) -> fmt::Result {
        f.write_str(match self {
            Opcode::Call => "call",
            Opcode::Release => "release",
            Opcode::Future => "future",
            Opcode::If => "if",
            Opcode::Jump => "jump",
            Opcode::Return => "return",
        })
    }
}

impl fmt::Display for NoOpcode {
    fn fmt<W: fmt::Write>(&self, f: &mut fmt::Formatter<W>) -> fmt::Result {
        f.write_str("unknown")
    }
}
