// The entry points for C that include/fv.h declares, one for each call of the crate fv, by whose contract each has its own: see there for what a range is, and what a
// call answers. A static library alone exports names to C, and no crate can stand on one, so that the calls are in fv and the names here.
#![tactic(auto)]

ghost use Rattle.std.specs.Prelude.{[], length, ◌∷◌, ◌≡◌};
ghost use Rattle.fv.specs.Called.{called};
ghost use Rattle.fv.specs.VolumeCalls.{entry_call, erase_call, open_call, read_call, write_call};
ghost use Rattle.fv.specs.JobCalls.{accept_call, carry_call};
ghost use Rattle.fv.specs.OrderCalls.{write_list_call};
ghost use Rattle.fv.specs.SectionCalls.{append_call, search_call, search_first_call};
ghost use Rattle.fv.specs.DependencyCalls.{evaluate_call, read_opcode_call, validate_call, write_opcode_call};

use fv::{dependency_calls, job_calls, order_calls, section_calls, volume_calls};

// ---- The calls on volumes.

// Opens a volume at a base address and packs its state into the first 304 bytes lent for it. Refused with 5 (fewer are lent), then opening's numbers, 101 to 110
// and 112.
#[unsafe(no_mangle)]
pub extern "C" fn fv_open(state: &mut [u8], volume: &[u8], base: u64) -> u32
    ensures { called result (state.new ∷ []) ≡ open_call state.old volume.now base }
{
    volume_calls::fv_open(state, volume, base)
}

// Reads from an offset of a block into the start of the buffer, and stores the count and 0. Refused with 5 (fewer than 304 bytes of state or 16 of answer), 111 (they
// hold no lawful state), 5 (the volume), 15, 2.
#[unsafe(no_mangle)]
pub extern "C" fn fv_read(
    state: &[u8],
    volume: &[u8],
    block: u64,
    offset: u64,
    buffer: &mut [u8],
    answer: &mut [u8],
) -> u32
    ensures { called result (buffer.new ∷ answer.new ∷ []) ≡ read_call state.now volume.now block offset buffer.old answer.old }
{
    volume_calls::fv_read(state, volume, block, offset, buffer, answer)
}

// Writes the new bytes from an offset of a block on, and stores the count and 0. Refused with 5 (fewer than 304 bytes of state or 16 of answer), 111 (they hold no lawful
// state), 5 (the volume), 15, 2, 15 (the block is protected).
#[unsafe(no_mangle)]
pub extern "C" fn fv_write(
    state: &[u8],
    volume: &mut [u8],
    block: u64,
    offset: u64,
    new: &[u8],
    answer: &mut [u8],
) -> u32
    ensures { called result (volume.new ∷ answer.new ∷ []) ≡ write_call state.now volume.old block offset new.now answer.old }
{
    volume_calls::fv_write(state, volume, block, offset, new, answer)
}

// Erases the blocks that a list names, the list lent as bytes, eight to a word; up to seven bytes behind the last word are ignored. Refused with 5 (fewer than 304
// bytes of state), 111 (they hold no lawful state), 5 (the volume), 15, 2 (a bad list), 15 (a block of the list is protected).
#[unsafe(no_mangle)]
pub extern "C" fn fv_erase(state: &[u8], volume: &mut [u8], list: &[u8]) -> u32
    ensures { called result (volume.new ∷ []) ≡ erase_call state.now volume.old list.now }
{
    volume_calls::fv_erase(state, volume, list)
}

// The entry of this number, from 0, of a volume's extended header: stores its first byte in the volume, and its size + 65,536 times its type. Refused with 5 (fewer than
// 16 bytes of answer), opening's numbers at base 0, 14.
#[unsafe(no_mangle)]
pub extern "C" fn fv_ext_entry(volume: &[u8], number: u64, answer: &mut [u8]) -> u32
    ensures { called result (answer.new ∷ []) ≡ entry_call volume.now number answer.old }
{
    volume_calls::fv_ext_entry(volume, number, answer)
}

// ---- An erase in two operations.

// Accepts an erase list, lent as bytes as fv_erase has it, and stores its job in the first 8 bytes lent for it. Nothing is stored in the volume. Refused with 5 (fewer than
// 304 bytes of state or 8 of job), 111 (the state's bytes hold no lawful one), 5 (the volume), 15, 2 (a bad list), 15 (a block of the list is protected).
#[unsafe(no_mangle)]
pub extern "C" fn fv_accept_erase(state: &[u8], volume: &[u8], list: &[u8], job: &mut [u8]) -> u32
    ensures { called result (job.new ∷ []) ≡ accept_call state.now volume.now list.now job.old }
{
    job_calls::fv_accept_erase(state, volume, list, job)
}

// Carries a job of the list on by so many byte stores, or by what is left if fewer. Returns 0 where nothing is left then, and otherwise 4, with the job as it now stands in
// the first 8 bytes of job. Refused with 5 (fewer than 304 bytes of state or 8 of job), 111 (the state's bytes hold no lawful one), 5 (the volume), 15, 2 (a bad list, or a job that this
// map and list never give), 15 (a block of the list is protected).
#[unsafe(no_mangle)]
pub extern "C" fn fv_carry_erase(
    state: &[u8],
    volume: &mut [u8],
    list: &[u8],
    job: &mut [u8],
    stores: u64,
) -> u32
    ensures { called result (volume.new ∷ job.new ∷ []) ≡ carry_call state.now volume.old list.now job.old stores }
{
    job_calls::fv_carry_erase(state, volume, list, job, stores)
}

// ---- Many writes in one call.

// Carries out the orders one after the other, up to the first answer that is not success; they are lent as bytes, 32 to an order: four numbers of 64 bits (block, offset, first
// byte and length of the stretch of the source). Up to 31 bytes behind the last whole order are ignored. Returns the last answer's number, and stores how many writes succeeded and
// the last one's count, 0 where it was refused. Refused with 5 (fewer than 304 bytes of state or 16 of answer), which leaves every range; then as `write_orders`.
#[unsafe(no_mangle)]
pub extern "C" fn fv_write_list(
    state: &[u8],
    volume: &mut [u8],
    orders: &[u8],
    source: &[u8],
    answer: &mut [u8],
) -> u32
    ensures { called result (volume.new ∷ answer.new ∷ [])
        ≡ write_list_call state.now volume.old orders.now source.now answer.old }
{
    order_calls::fv_write_list(state, volume, orders, source, answer)
}

// ---- The section calls.

// The section of a type that has `instance` sections of that type before it: stores first byte and end of its part of the stream. Mode 0 is Framework, any other PI.
// Refused with 5 (fewer than 16 bytes of answer), then the search's numbers, 201 to 207 and 14.
#[unsafe(no_mangle)]
pub extern "C" fn fv_search(
    mode: u32,
    stream: &[u8],
    section_type: u8,
    instance: u64,
    answer: &mut [u8],
) -> u32
    ensures { called result (answer.new ∷ []) ≡ search_call mode stream.now section_type instance answer.old }
{
    section_calls::fv_search(mode, stream, section_type, instance, answer)
}

// The first section of a type, without a look at what comes after its own header: stores first byte and end of its part of the stream. Refused with 5 (fewer than 16 bytes of
// answer), then the search's numbers.
#[unsafe(no_mangle)]
pub extern "C" fn fv_search_first(
    mode: u32,
    stream: &[u8],
    section_type: u8,
    answer: &mut [u8],
) -> u32
    ensures { called result (answer.new ∷ []) ≡ search_first_call mode stream.now section_type answer.old }
{
    section_calls::fv_search_first(mode, stream, section_type, answer)
}

// Appends a leaf after the used bytes of a buffer, and stores the new used count and 0. Refused with 5 (fewer than 16 bytes of answer), 2, 202, 206, 5 (the buffer).
#[unsafe(no_mangle)]
pub extern "C" fn fv_append(
    mode: u32,
    buffer: &mut [u8],
    used: u64,
    section_type: u8,
    body: &[u8],
    answer: &mut [u8],
) -> u32
    ensures { called result (buffer.new ∷ answer.new ∷ []) ≡ append_call mode buffer.old used section_type body.now answer.old }
{
    section_calls::fv_append(mode, buffer, used, section_type, body, answer)
}

// ---- Dependency expressions.

// The opcode at the start of the bytes: stores it and the place after its operand. The operand is the bytes from 1 up to that place. Refused with 5 (fewer than 16 bytes of
// answer), 305 (no bytes), 301, 302.
#[unsafe(no_mangle)]
pub extern "C" fn fv_read_opcode(opcodes: &[u8], answer: &mut [u8]) -> u32
    ensures { called result (answer.new ∷ []) ≡ read_opcode_call opcodes.now answer.old }
{
    dependency_calls::fv_read_opcode(opcodes, answer)
}

// Stores an opcode and its operand at the start of a room, and how many bytes these are, and 0. What follows the operand is dropped, and the rest of the room stays.
// Refused with 5 (fewer than 16 bytes of answer), 301, 302, 5 (the room).
#[unsafe(no_mangle)]
pub extern "C" fn fv_write_opcode(
    opcode: u8,
    operand: &[u8],
    room: &mut [u8],
    answer: &mut [u8],
) -> u32
    ensures { called result (room.new ∷ answer.new ∷ []) ≡ write_opcode_call opcode operand.now room.old answer.old }
{
    dependency_calls::fv_write_opcode(opcode, operand, room, answer)
}

// Tests an expression up to its end, whatever firmware is installed. Refused with 301 to 305, the first in reading order, at one opcode the lowest.
#[unsafe(no_mangle)]
pub extern "C" fn fv_validate_dependency(expression: &[u8]) -> u32
    ensures { called result [] ≡ validate_call expression.now }
{
    dependency_calls::fv_validate_dependency(expression)
}

// What an expression says of the installed firmware: stores 1 or 0, and 0. The table is 16 GUIDs of 16 bytes and 16 versions, of which the first `used` count. Refused
// with 5 (fewer than 256 bytes of GUIDs, 64 of versions or 16 of answer), 2 (a used number over sixteen), 301 to 305, 14 (a GUID in no used row).
#[unsafe(no_mangle)]
pub extern "C" fn fv_evaluate_dependency(
    expression: &[u8],
    guids: &[u8],
    versions: &[u8],
    used: u64,
    answer: &mut [u8],
) -> u32
    ensures { called result (answer.new ∷ []) ≡ evaluate_call expression.now guids.now versions.now used answer.old }
{
    dependency_calls::fv_evaluate_dependency(expression, guids, versions, used, answer)
}
