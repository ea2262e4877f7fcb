// The calls on volumes: opening, read, write, erase, and the entries of an extended header.
#![tactic(auto, unfolding(crate::specs::VolumeCalls::open_call, crate::specs::VolumeCalls::state_after, crate::specs::VolumeCalls::read_call, crate::specs::VolumeCalls::write_call, crate::specs::VolumeCalls::erase_call, crate::specs::Called::answer_call, volume::specs::Header::opening_of, block_service::specs::Service::erased_answer, common::specs::Refusals::first_refusal, common::specs::Answers::number_of, common::specs::Answers::values_of), using(std::proofs::lemmas::Bool::Decides::nat_tests, crate::proofs::packed::Packing::unpacked_front))]

ghost use Rattle.std.specs.Prelude.{[], ◌∷◌, ◌≡◌};
ghost use Rattle.fv.specs.Called.{called};
ghost use Rattle.fv.specs.VolumeCalls.{open_call, read_call, write_call, erase_call, entry_call};

use crate::answer::{ANSWER_BYTES, TOO_FEW, give};
use crate::packed::{STATE_BYTES, pack, unpack};
use block_service::{ByteWords, erase_blocks, read, write};
use volume::{ext_entry, open_volume};

// Opens a volume at a base address and packs its state into the first 304 bytes lent for it. Refused with 5 (fewer are lent), then opening's numbers, 101 to 110
// and 112.
pub fn fv_open(state: &mut [u8], volume: &[u8], base: u64) -> u32
    ensures { called result (state.new ∷ []) ≡ open_call state.old volume.now base }
{
    if state.len() < STATE_BYTES {
        return TOO_FEW;
    }
    match open_volume(volume, base) {
        Ok(opened) => {
            pack(&opened, state);
            0
        }
        Err(refusal) => u32::from(refusal.number()),
    }
}

// Reads from an offset of a block into the start of the buffer, and stores the count and 0. Refused with 5 (fewer than 304 bytes of state or 16 of answer), 111 (they
// hold no lawful state), 5 (the volume), 15, 2.
pub fn fv_read(
    state: &[u8],
    volume: &[u8],
    block: u64,
    offset: u64,
    buffer: &mut [u8],
    answer: &mut [u8],
) -> u32
    ensures { called result (buffer.new ∷ answer.new ∷ []) ≡ read_call state.now volume.now block offset buffer.old answer.old }
{
    let Some(state) = state.first_chunk() else {
        return TOO_FEW;
    };
    if answer.len() < ANSWER_BYTES {
        return TOO_FEW;
    }
    let moved = read(&unpack(state), volume, block, offset as usize, buffer);
    give(moved, answer)
}

// Writes the new bytes from an offset of a block on, and stores the count and 0. Refused with 5 (fewer than 304 bytes of state or 16 of answer), 111 (they hold no lawful
// state), 5 (the volume), 15, 2, 15 (the block is protected).
pub fn fv_write(
    state: &[u8],
    volume: &mut [u8],
    block: u64,
    offset: u64,
    new: &[u8],
    answer: &mut [u8],
) -> u32
    ensures { called result (volume.new ∷ answer.new ∷ []) ≡ write_call state.now volume.old block offset new.now answer.old }
{
    let Some(state) = state.first_chunk() else {
        return TOO_FEW;
    };
    if answer.len() < ANSWER_BYTES {
        return TOO_FEW;
    }
    let moved = write(&unpack(state), volume, block, offset as usize, new);
    give(moved, answer)
}

// Erases the blocks that a list names, the list lent as bytes, eight to a word; up to seven bytes behind the last word are ignored. Refused with 5 (fewer than 304
// bytes of state), 111 (they hold no lawful state), 5 (the volume), 15, 2 (a bad list), 15 (a block of the list is protected).
pub fn fv_erase(state: &[u8], volume: &mut [u8], list: &[u8]) -> u32
    ensures { called result (volume.new ∷ []) ≡ erase_call state.now volume.old list.now }
{
    let Some(state) = state.first_chunk() else {
        return TOO_FEW;
    };
    match erase_blocks(&unpack(state), volume, ByteWords(list)) {
        Ok(()) => 0,
        Err(refusal) => u32::from(refusal.number()),
    }
}

// The entry of this number, from 0, of a volume's extended header: stores its first byte in the volume, and its size + 65,536 times its type. Refused with 5 (fewer than
// 16 bytes of answer), opening's numbers at base 0, 14.
pub fn fv_ext_entry(volume: &[u8], number: u64, answer: &mut [u8]) -> u32
    ensures { called result (answer.new ∷ []) ≡ entry_call volume.now number answer.old }
{
    if answer.len() < ANSWER_BYTES {
        return TOO_FEW;
    }
    give(ext_entry(volume, number), answer)
}
