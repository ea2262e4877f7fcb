// The volume header: opening a volume.
ghost use Rattle.std.specs.Prelude.{◌≡◌, ℕ, ◌+◌, ◌*◌, ◌%◌, ◌≤◌, ◌++◌, length, take, drop};
ghost use Rattle.std.proofs.Math.Option.{none};
ghost use Rattle.common.specs.Refusal.{refusal_of};
ghost use Rattle.common.specs.Refusals.{first_refusal};
ghost use Rattle.volume.specs.Header.{bytes_refusals, fields_refusals, header_length_at, header_length_fault, map_start, open_volume, opening_of, state_at, word_modulus, word_sum, words_at};
ghost use Rattle.volume.specs.BlockMap.{entry_length};

use crate::attributes::{attributes_fault, base_fault, edition_fault};
use crate::block_map::{EMPTY_HEADER, ENTRY_LENGTH, has_zero, map_fault};
use crate::extended_header::ext_fault;
use crate::state::State;
use common::Refusal;

// "_FVH", as the little-endian number of its bytes.
pub const SIGNATURE: u32 = 0x4856465F;

// Where the fields of a header stand. The zero vector is before them.
pub(crate) const FILE_SYSTEM_GUID: usize = 16;

pub(crate) const LENGTH: usize = 32;

pub(crate) const SIGNATURE_PLACE: usize = 40;

pub(crate) const ATTRIBUTES: usize = 44;

pub(crate) const HEADER_LENGTH: usize = 48;

pub(crate) const CHECKSUM: usize = 50;

pub(crate) const RESERVED: usize = 54;

pub(crate) const REVISION: usize = 55;

pub(crate) const BLOCK_MAP: usize = 56;

// The header of one map entry, and that of MAX_ENTRIES.
const SHORTEST_HEADER: usize = 72;

const LONGEST_HEADER: usize = 320;

// Opens a volume of either edition: answers the state that its header and the base address give, no block of it protected,
// or the first of 101 to 110 and 112 that applies. Only the header is read, and in edition 2 the extended header.
#[tactic(auto, using(crate::proofs::header::Fields::readable, std::proofs::lemmas::Grind::common_steps))]
pub fn open_volume(volume: &[u8], base: u64) -> Result<State, Refusal>
    ensures { opening_of result ≡ open_volume volume.now base }
{
    test_bytes(volume)?;
    let header = usize::from(numbers::u16_at(volume, HEADER_LENGTH));
    let mut state = State {
        guid: guid_at(volume),
        length: numbers::u64_at(volume, LENGTH),
        attributes: numbers::u32_at(volume, ATTRIBUTES),
        edition: u32::from(numbers::byte_at(volume, REVISION)),
        base,
        protected: 0,
        entries: (header - EMPTY_HEADER) / ENTRY_LENGTH,
        map: [0; 64],
    };
    read_map(volume, state.entries, &mut state.map);
    test_fields(volume, &state)?;
    state.protected = state.block_count();
    Ok(state)
}

// The table's first five rows, 101 to 105, which need no state.
#[tactic(auto, unfolding(crate::specs::Header::open_refusals, common::specs::Refusals::first_refusal), using(std::proofs::lemmas::Bool::Decides::nat_tests))]
fn test_bytes(s: &[u8]) -> Result<(), Refusal>
    ensures { refusal_of result ≡ first_refusal (bytes_refusals s.now) }
{
    if s.len() < SHORTEST_HEADER {
        return Err(Refusal::NoHeader);
    }
    if numbers::u32_at(s, SIGNATURE_PLACE) != SIGNATURE {
        return Err(Refusal::WrongSignature);
    }
    if edition_fault(u32::from(numbers::byte_at(s, REVISION))) {
        return Err(Refusal::UnknownRevision);
    }
    let header = usize::from(numbers::u16_at(s, HEADER_LENGTH));
    if header_length_fault(header, s.len()) {
        return Err(Refusal::WrongHeaderLength);
    }
    if word_sum(&s[..header]) != 0 {
        return Err(Refusal::WrongWordSum);
    }
    Ok(())
}

// The table's other rows, 106 to 110 and 112, of what the state would be.
#[tactic(auto, unfolding(crate::specs::Header::open_refusals, crate::specs::Header::map_fault, crate::specs::State::map_of, common::specs::Refusals::first_refusal), using(std::proofs::lemmas::Bool::Decides::nat_tests, crate::proofs::block_map::Words::size_tested))]
fn test_fields(s: &[u8], state: &State) -> Result<(), Refusal>
    requires { (2 * state.now.entries ≤ 64) × (entry_length ≤ header_length_at s.now) }
    ensures { refusal_of result ≡ first_refusal (fields_refusals s.now state.now) }
{
    let words = &state.map[..2 * state.entries];
    let closing = usize::from(numbers::u16_at(s, HEADER_LENGTH)) - ENTRY_LENGTH;
    if has_zero(words) || numbers::u64_at(s, closing) != 0 {
        return Err(Refusal::WrongBlockMap);
    }
    if map_fault(words, state.length, 0) {
        return Err(Refusal::WrongLength);
    }
    if attributes_fault(state.edition, state.attributes) {
        return Err(Refusal::WrongAttributes);
    }
    if (s.len() as u64) < state.length {
        return Err(Refusal::VolumeCut);
    }
    if base_fault(state.attributes, state.base) {
        return Err(Refusal::UnalignedBase);
    }
    if ext_fault(
        s,
        state.edition,
        closing + ENTRY_LENGTH,
        state.length as usize,
    ) {
        return Err(Refusal::WrongExtendedHeader);
    }
    Ok(())
}

// Whether a header length breaks rule 104.
#[tactic(auto, unfolding(crate::specs::Header::header_length_fault, common::specs::Refusals::any), using(std::proofs::lemmas::Bool::Decides::nat_tests))]
fn header_length_fault(header: usize, lent: usize) -> bool
    ensures { result ≡ header_length_fault header lent }
{
    header % ENTRY_LENGTH != 0
        || header < SHORTEST_HEADER
        || LONGEST_HEADER < header
        || lent < header
}

// The sum of the 16-bit words of a byte string, modulo 65,536, as the boot block's listing keeps it, in one 16-bit accumulator that wraps at
// each addition: a turn of the loop is a line of the listing, and loads a word and adds it. An odd byte at the end is the low byte of a last
// word; a header has none.
pub fn word_sum(s: &[u8]) -> u16
    ensures { result ≡ word_sum s.now % word_modulus }
{
    let mut sum: u16 = 0;
    for i in 0..s.len() / 2 {
        let low = s[2 * i];
        let high = s[2 * i + 1];
        sum = add_word(sum, numbers::u16_of(low, high));
    }
    if s.len() % 2 != 0 {
        let low = s[s.len() - 1];
        return add_word(sum, numbers::u16_of(low, 0));
    }
    sum
}

// One line of the listing: a word added to the accumulator. Where it held the true sum so far modulo 65,536, it then holds the next one.
fn add_word(sum: u16, word: u16) -> u16
    ensures { (so_far : ℕ) → sum ≡ so_far % word_modulus → result ≡ (so_far + word) % word_modulus }
{
    sum.wrapping_add(word)
}

// The file system GUID, bytes 16 to 31. Fv's `guid_in` reads a packed state's, from byte 0: the two are two lines each.
fn guid_at(s: &[u8]) -> [u8; 16]
    requires { 32 ≤ length s.now }
    ensures { result ≡ take 16 (drop 16 s.now) }
{
    let mut guid = [0u8; 16];
    guid.copy_from_slice(&s[FILE_SYSTEM_GUID..LENGTH]);
    guid
}

// Stores the words of n map entries, from byte 56 on, at the start of a map. The rest of it stays. Fv's `words_in` has a number of words that the
// compiler knows.
fn read_map(s: &[u8], n: usize, map: &mut [u32])
    requires { (map_start + entry_length * n ≤ length s.now) × (2 * n ≤ length map.old) }
    ensures { map.new ≡ words_at (2 * n) s.now map_start ++ drop (2 * n) map.old }
{
    for i in 0..2 * n {
        let at = BLOCK_MAP + 4 * i;
        map[i] = numbers::u32_of(s[at], s[at + 1], s[at + 2], s[at + 3]);
    }
}
