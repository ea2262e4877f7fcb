// The opcodes of a dependency expression, and a reader and a writer of single ones.
ghost use Rattle.std.specs.Prelude.{◌==◌, ◌≡◌, position};
ghost use Rattle.dependency.specs.Opcodes.{read_answer, read_opcode, text_width, write_opcode, written_answer, wrote};

use common::Refusal;

// The lengths of a GUID and of a version.
const GUID_BYTES: usize = 16;

const VERSION_BYTES: usize = 4;

// 004's EFI_FMP_DEP_PUSH_GUID to EFI_FMP_DEP_END, each with its number there.
#[derive(Clone, Copy, Debug, PartialEq, Eq)]
pub enum Opcode {
    PushGuid = 0x00,
    PushVersion = 0x01,
    VersionStr = 0x02,
    And = 0x03,
    Or = 0x04,
    Not = 0x05,
    True = 0x06,
    False = 0x07,
    Eq = 0x08,
    Gt = 0x09,
    Gte = 0x0A,
    Lt = 0x0B,
    Lte = 0x0C,
    End = 0x0D,
}

impl Opcode {
    ghost use Rattle.dependency.specs.Opcodes.{code_of, row_of, width};

    // The length of the operand at the start of a byte string; of a text without its zero, one more than there are bytes.
    #[tactic(auto, unfolding(crate::specs::Opcodes::row_of, crate::specs::Opcodes::row_among, crate::specs::Opcodes::opcodes, crate::specs::Opcodes::width))]
    fn operand_width(self, s: &[u8]) -> usize
        ensures { result ≡ width (row_of (code_of self)).operand s.now }
    {
        match self {
            Opcode::PushGuid => GUID_BYTES,
            Opcode::PushVersion => VERSION_BYTES,
            Opcode::VersionStr => text_width(s),
            _ => 0,
        }
    }
}

// The opcode of a number. Refused with 301 (no such opcode).
impl TryFrom<u8> for Opcode {
    ghost use Rattle.dependency.specs.Opcodes.{Decodes};

    type Error = Refusal;

    ghost try_from_gives = { Decodes };

    // Inlined, so that a caller goes on by the number and makes no `Result` of it.
    #[inline(always)]
    fn try_from(code: u8) -> Result<Opcode, Refusal> {
        match code {
            0x00 => Ok(Opcode::PushGuid),
            0x01 => Ok(Opcode::PushVersion),
            0x02 => Ok(Opcode::VersionStr),
            0x03 => Ok(Opcode::And),
            0x04 => Ok(Opcode::Or),
            0x05 => Ok(Opcode::Not),
            0x06 => Ok(Opcode::True),
            0x07 => Ok(Opcode::False),
            0x08 => Ok(Opcode::Eq),
            0x09 => Ok(Opcode::Gt),
            0x0A => Ok(Opcode::Gte),
            0x0B => Ok(Opcode::Lt),
            0x0C => Ok(Opcode::Lte),
            0x0D => Ok(Opcode::End),
            _ => Err(Refusal::UnknownOpcode),
        }
    }
}

impl From<Opcode> for u8 {
    ghost use Rattle.dependency.specs.Opcodes.{code_of};

    ghost from_gives = { λ opcode code. code ≡ code_of opcode };

    fn from(opcode: Opcode) -> u8 {
        opcode as u8
    }
}

// An opcode and the place after its operand. The operand is the bytes from 1 up to that place.
#[derive(Clone, Copy, Debug, PartialEq, Eq)]
pub struct Read {
    pub opcode: Opcode,
    pub after: usize,
}

// The opcode at the start of a byte string. Refused with 305 (no bytes), 301 (no such opcode), 302 (its operand is cut off, or is
// a text without a zero).
pub fn read_opcode(s: &[u8]) -> Result<Read, Refusal>
    ensures { read_answer result ≡ read_opcode s.now }
{
    let Some((code, rest)) = s.split_first() else {
        return Err(Refusal::NoEnd);
    };
    let opcode = Opcode::try_from(*code)?;
    let width = opcode.operand_width(rest);
    if rest.len() < width {
        return Err(Refusal::OperandCut);
    }
    Ok(Read {
        opcode,
        after: 1 + width,
    })
}

// Stores an opcode and its operand at the start of a room, and answers how many bytes these are; what follows the operand is
// dropped, and the rest of the room stays. The code is a number, since any byte is answered. Refused with 301, 302 (too few bytes for the operand, or a text without a zero), 5 (the
// room), and then all of the room stays.
pub fn write_opcode(code: u8, operand: &[u8], room: &mut [u8]) -> Result<usize, Refusal>
    ensures { wrote (written_answer result) room.new ≡ write_opcode code operand.now room.old }
{
    let opcode = Opcode::try_from(code)?;
    let width = opcode.operand_width(operand);
    if operand.len() < width {
        return Err(Refusal::OperandCut);
    }
    if room.len() < 1 + width {
        return Err(Refusal::BufferTooSmall);
    }
    room[0] = code;
    room[1..1 + width].copy_from_slice(&operand[..width]);
    Ok(1 + width)
}

// The length of a text with its zero; where it has none, one more than there are bytes.
#[tactic(auto, using(crate::proofs::opcodes::Texts::text_at, crate::proofs::opcodes::Texts::text_out))]
fn text_width(s: &[u8]) -> usize
    ensures { result ≡ text_width s.now }
{
    match zero_in(s) {
        Some(at) => at + 1,
        None => s.len() + 1,
    }
}

// The place of the first zero.
fn zero_in(s: &[u8]) -> Option<usize>
    ensures { result ≡ position (λ x. x == 0) s.now }
{
    s.iter().position(|x| *x == 0)
}
