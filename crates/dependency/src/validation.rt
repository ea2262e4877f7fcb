// The test of a dependency expression: whether it can be evaluated, whatever firmware is installed.
ghost use Rattle.std.specs.Prelude.{◌≡◌, ◌<◌, ◌≤◌, ◌^◌};
ghost use Rattle.dependency.specs.Validation.{validated_answer, validate_of};

use crate::opcodes::{Opcode, read_opcode};
use common::Refusal;

const STACK_LIMIT: usize = 32;

// The kinds of values on the stack, with their digits.
#[derive(Clone, Copy, Debug, PartialEq, Eq)]
enum Kind {
    Version = 0,
    Truth = 1,
}

// The kinds on the stack, and how many they are. They are the binary digits of a number, the top the lowest, and not an array: so the
// two kinds on top are tested at once, and what an opcode leaves is no store in memory.
#[derive(Clone, Copy)]
struct Kinds {
    digits: u64,
    depth: usize,
    ghost within: { depth ≤ 32 },
    ghost small: { digits < 2 ^ depth },
}

// Tests an expression up to its end; what follows the end is ignored. Refused with 301 to 305, the first in reading order and at
// one opcode the lowest. One pass.
pub fn validate(expression: &[u8]) -> Result<(), Refusal>
    ensures { validated_answer result ≡ validate_of expression.now }
{
    let mut kinds = Kinds {
        digits: 0,
        depth: 0,
    };
    let mut rest = expression;
    // No `for`: each turn goes on by the opcode's own width.
    loop {
        let read = read_opcode(rest)?;
        if read.opcode == Opcode::End {
            return kinds.end();
        }
        kinds.follow(read.opcode)?;
        rest = &rest[read.after..];
    }
}

impl Kinds {
    ghost use Rattle.std.proofs.Math.Option.{some};
    ghost use Rattle.dependency.specs.Opcodes.{code_of, row_of};
    ghost use Rattle.dependency.specs.Validation.{validated_answer};
    ghost use Rattle.dependency.specs.Stack.{Follows, ended_of, kinds_of, value_kind};

    // The kinds after an opcode. Refused with 303, 304.
    #[tactic(auto, using(crate::proofs::validation::Digits::leave_follows), unfolding(crate::specs::Opcodes::row_of, crate::specs::Opcodes::row_among, crate::specs::Opcodes::opcodes, crate::specs::Stack::kinds_of))]
    fn follow(&mut self, opcode: Opcode) -> Result<(), Refusal>
        ensures { Follows result (row_of (code_of opcode)).takes (row_of (code_of opcode)).leaves (kinds_of self.old.depth self.old.digits) (kinds_of self.new.depth self.new.digits) }
    {
        match opcode {
            Opcode::PushGuid | Opcode::PushVersion => self.replace(0, 0, Kind::Version),
            Opcode::True | Opcode::False => self.replace(0, 0, Kind::Truth),
            Opcode::Not => self.replace(1, 0b1, Kind::Truth),
            Opcode::And | Opcode::Or => self.replace(2, 0b11, Kind::Truth),
            Opcode::Eq | Opcode::Gt | Opcode::Gte | Opcode::Lt | Opcode::Lte => {
                self.replace(2, 0b00, Kind::Truth)
            }
            Opcode::VersionStr | Opcode::End => Ok(()),
        }
    }

    // So many kinds are taken, which must be those asked for, and one is left. Those asked for are given by their digits: 0b11 for two
    // truths, 0b00 for two versions. Refused with 303, 304.
    fn replace(&mut self, taken: usize, asked: u64, left: Kind) -> Result<(), Refusal>
        requires few { taken ≤ 2 }
        requires digits { asked < 2 ^ taken }
        ensures { Follows result (kinds_of taken asked) (some (value_kind left)) (kinds_of self.old.depth self.old.digits) (kinds_of self.new.depth self.new.digits) }
    {
        if self.depth < taken || self.depth - taken >= STACK_LIMIT {
            return Err(Refusal::StackExceeded);
        }
        if self.digits % (1 << taken) != asked {
            return Err(Refusal::WrongKind);
        }
        *self = Kinds {
            digits: self.digits / (1 << taken) * 2 + left as u64,
            depth: self.depth - taken + 1,
        };
        Ok(())
    }

    // The answer at the end: one truth must be on the stack, and nothing else.
    fn end(&self) -> Result<(), Refusal>
        ensures { validated_answer result ≡ ended_of (kinds_of self.now.depth self.now.digits) }
    {
        if self.depth == 1 && self.digits == Kind::Truth as u64 {
            return Ok(());
        }
        Err(Refusal::NoEnd)
    }
}
