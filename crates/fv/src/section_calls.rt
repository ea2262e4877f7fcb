// The calls on section streams: searching, the first of a type, and appending.
#![tactic(auto, unfolding(crate::specs::Called::answer_call, crate::specs::SectionCalls::append_call, common::specs::Refusals::first_refusal, common::specs::Answers::number_of, common::specs::Answers::values_of), using(std::proofs::lemmas::Bool::Decides::nat_tests))]

ghost use Rattle.std.specs.Prelude.{[], ◌∷◌, ◌≡◌};
ghost use Rattle.fv.specs.Called.{called};
ghost use Rattle.fv.specs.SectionCalls.{append_call, mode_of, search_call, search_first_call};

use crate::answer::{ANSWER_BYTES, TOO_FEW, give};
use sections::append::append;
use sections::header::Mode;
use sections::search::{search, search_first};

// The section of a type that has `instance` sections of that type before it: stores first byte and end of its part of the stream. Mode 0 is Framework, any other PI.
// Refused with 5 (fewer than 16 bytes of answer), then the search's numbers, 201 to 207 and 14.
pub fn fv_search(
    mode: u32,
    stream: &[u8],
    section_type: u8,
    instance: u64,
    answer: &mut [u8],
) -> u32
    ensures { called result (answer.new ∷ []) ≡ search_call mode stream.now section_type instance answer.old }
{
    if answer.len() < ANSWER_BYTES {
        return TOO_FEW;
    }
    let found = search(mode_of(mode), stream, section_type, instance);
    give(found, answer)
}

// The first section of a type, without a look at what comes after its own header: stores first byte and end of its part of the stream. Refused with 5 (fewer than 16 bytes of
// answer), then the search's numbers.
pub fn fv_search_first(mode: u32, stream: &[u8], section_type: u8, answer: &mut [u8]) -> u32
    ensures { called result (answer.new ∷ []) ≡ search_first_call mode stream.now section_type answer.old }
{
    if answer.len() < ANSWER_BYTES {
        return TOO_FEW;
    }
    let found = search_first(mode_of(mode), stream, section_type);
    give(found, answer)
}

// Appends a leaf after the used bytes of a buffer, and stores the new used count and 0. Refused with 5 (fewer than 16 bytes of answer), 2, 202, 206, 5 (the buffer).
pub fn fv_append(
    mode: u32,
    buffer: &mut [u8],
    used: u64,
    section_type: u8,
    body: &[u8],
    answer: &mut [u8],
) -> u32
    ensures { called result (buffer.new ∷ answer.new ∷ []) ≡ append_call mode buffer.old used section_type body.now answer.old }
{
    if answer.len() < ANSWER_BYTES {
        return TOO_FEW;
    }
    let appended = append(mode_of(mode), buffer, used as usize, section_type, body);
    give(appended, answer)
}

// The mode that a number stands for. No `From`: that any other number than 0 is PI is the C interface's rule, and not the type's.
#[tactic(auto, unfolding(crate::specs::SectionCalls::mode_of))]
fn mode_of(mode: u32) -> Mode
    ensures { result ≡ mode_of mode }
{
    if mode == 0 {
        return Mode::Framework;
    }
    Mode::Pi
}
