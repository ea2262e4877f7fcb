// The calls on dependency expressions (document 02, k): reading and writing single opcodes, the test, and the evaluation against a table of installed firmware that the
// caller lends as bytes.
#![tactic(auto, unfolding(crate::specs::Called::answer_call, crate::specs::DependencyCalls::write_opcode_call, crate::specs::DependencyCalls::evaluate_call, crate::specs::DependencyCalls::validate_call, common::specs::Refusals::first_refusal, common::specs::Answers::number_of, common::specs::Answers::values_of), using(std::proofs::lemmas::Bool::Decides::nat_tests))]

ghost use Rattle.std.specs.Prelude.{[], ◌∷◌, ◌≡◌, ◌≤◌, length};
ghost use Rattle.volume.specs.Header.{words_at};
ghost use Rattle.fv.specs.Called.{called};
ghost use Rattle.fv.specs.DependencyCalls.{evaluate_call, guids_bytes, guids_in, read_opcode_call, validate_call, versions_bytes, write_opcode_call};

use crate::answer::{ANSWER_BYTES, TOO_FEW, give};
use crate::packed::{guid_in, words_in};
use dependency::{evaluate, read_opcode, validate, write_opcode};

// The bytes of a table of installed firmware: 16 GUIDs, and 16 versions of 32 bits.
const GUIDS_BYTES: usize = 256;

const VERSIONS_BYTES: usize = 64;

// The opcode at the start of the bytes: stores it and the place after its operand. The operand is the bytes from 1 up to that place. Refused with 5 (fewer than 16 bytes of
// answer), 305 (no bytes), 301, 302.
pub fn fv_read_opcode(opcodes: &[u8], answer: &mut [u8]) -> u32
    ensures { called result (answer.new ∷ []) ≡ read_opcode_call opcodes.now answer.old }
{
    if answer.len() < ANSWER_BYTES {
        return TOO_FEW;
    }
    give(read_opcode(opcodes), answer)
}

// Stores an opcode and its operand at the start of a room, and how many bytes these are, and 0. What follows the operand is dropped, and the rest of the room stays.
// Refused with 5 (fewer than 16 bytes of answer), 301, 302, 5 (the room).
pub fn fv_write_opcode(opcode: u8, operand: &[u8], room: &mut [u8], answer: &mut [u8]) -> u32
    ensures { called result (room.new ∷ answer.new ∷ []) ≡ write_opcode_call opcode operand.now room.old answer.old }
{
    if answer.len() < ANSWER_BYTES {
        return TOO_FEW;
    }
    let written = write_opcode(opcode, operand, room);
    give(written, answer)
}

// Tests an expression up to its end, whatever firmware is installed. Refused with 301 to 305, the first in reading order, at one opcode the lowest.
pub fn fv_validate_dependency(expression: &[u8]) -> u32
    ensures { called result [] ≡ validate_call expression.now }
{
    match validate(expression) {
        Ok(()) => 0,
        Err(refusal) => u32::from(refusal.number()),
    }
}

// What an expression says of the installed firmware: stores 1 or 0, and 0. The table is 16 GUIDs of 16 bytes and 16 versions, of which the first `used` count. Refused
// with 5 (fewer than 256 bytes of GUIDs, 64 of versions or 16 of answer), 2 (a used number over sixteen), 301 to 305, 14 (a GUID in no used row).
pub fn fv_evaluate_dependency(
    expression: &[u8],
    guids: &[u8],
    versions: &[u8],
    used: u64,
    answer: &mut [u8],
) -> u32
    ensures { called result (answer.new ∷ []) ≡ evaluate_call expression.now guids.now versions.now used answer.old }
{
    if guids.len() < GUIDS_BYTES || versions.len() < VERSIONS_BYTES || answer.len() < ANSWER_BYTES {
        return TOO_FEW;
    }
    let evaluated = evaluate(
        expression,
        guids_in(guids),
        words_in(versions, 0),
        used as usize,
    );
    give(evaluated, answer)
}

// The GUIDs that bytes hold, sixteen bytes to a row.
fn guids_in(s: &[u8]) -> [[u8; 16]; 16]
    requires { guids_bytes ≤ length s.now }
    ensures { result ≡ guids_in 16 s.now }
{
    let mut rows = [[0u8; 16]; 16];
    for i in 0..16 {
        rows[i] = guid_in(&s[16 * i..]);
    }
    rows
}
