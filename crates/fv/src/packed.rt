// A state packed into bytes, and unpacked.
ghost use Rattle.std.specs.Prelude.{◌++◌, ◌≡◌, ◌+◌, ◌*◌, ◌≤◌, ◌<◌, ◌^◌, length, take, drop};
ghost use Rattle.std.proofs.lemmas.List.Edits.{sets};
ghost use Rattle.numbers.specs.LittleEndian.{le_bytes};
ghost use Rattle.volume.specs.Header.{words_at};
ghost use Rattle.volume.specs.HeaderWriter.{words_bytes};
ghost use Rattle.fv.specs.Packed.{packed, state_bytes, packed_map_start, unpacked};

use volume::State;

// The bytes of a packed state.
pub(crate) const STATE_BYTES: usize = 304;

// Where the fields stand, behind the GUID.
const LENGTH: usize = 16;

const BASE: usize = 24;

const ATTRIBUTES: usize = 32;

const EDITION: usize = 36;

const PROTECTED: usize = 40;

const ENTRIES: usize = 44;

const BLOCK_MAP: usize = 48;

// The state that packed bytes hold, lawful or not.
pub(crate) fn unpack(s: &[u8; STATE_BYTES]) -> State
    ensures { result ≡ unpacked s.now }
{
    State {
        guid: guid_in(s),
        length: numbers::u64_at(s, LENGTH),
        base: numbers::u64_at(s, BASE),
        attributes: numbers::u32_at(s, ATTRIBUTES),
        edition: numbers::u32_at(s, EDITION),
        protected: u64::from(numbers::u32_at(s, PROTECTED)),
        entries: numbers::u32_at(s, ENTRIES) as usize,
        map: words_in(s, BLOCK_MAP),
    }
}

// The GUID in bytes 0 to 15. Volume's `guid_at` reads a header's, from byte 16: the two are two lines each.
pub(crate) fn guid_in(s: &[u8]) -> [u8; 16]
    requires { 16 ≤ length s.now }
    ensures { result ≡ take 16 s.now }
{
    let mut guid = [0; 16];
    guid.copy_from_slice(&s[..16]);
    guid
}

// The N words of 32 bits from a place on.
pub(crate) fn words_in<const N: usize>(s: &[u8], at: usize) -> [u32; N]
    requires { at + 4 * N < 2 ^ 63 }
    ensures { result ≡ words_at N s.now at }
{
    let mut words = [0; N];
    for i in 0..N {
        words[i] = numbers::u32_at(s, at + 4 * i);
    }
    words
}

// Packs a state into the start of a room; the rest of the room stays.
pub(crate) fn pack(state: &State, room: &mut [u8])
    requires { state_bytes ≤ length room.old }
    ensures { room.new ≡ packed state.now ++ drop state_bytes room.old }
{
    // The GUID alone is copied first: stored from where it is, it has the compiler copy the whole state that a match gives.
    let guid = state.guid;
    numbers::store_bytes(room, 0, &guid);
    numbers::store(room, LENGTH, 8, state.length);
    numbers::store(room, BASE, 8, state.base);
    store_pair(
        ATTRIBUTES,
        u64::from(state.attributes),
        u64::from(state.edition),
        room,
    );
    store_pair(PROTECTED, state.protected, state.entries as u64, room);
    store_map(&state.map, room);
}

// Stores two fields of 32 bits that stand side by side.
fn store_pair(at: usize, x: u64, y: u64, s: &mut [u8])
    requires { at ≤ packed_map_start }
    ensures { s.new ≡ sets (sets s.old at (le_bytes 4 x)) (at + 4) (le_bytes 4 y) }
{
    numbers::store(s, at, 4, x);
    numbers::store(s, at + 4, 4, y);
}

// Stores a map's words from byte 48 on. A header has them at another place, with a closing pair (`store_map` of volume). One function for both would be
// public, and no public function asks its callers for anything (the bound of the place).
fn store_map(map: &[u32], s: &mut [u8])
    requires { length map.now ≡ 64 }
    ensures { s.new ≡ sets s.old packed_map_start (words_bytes map.now) }
{
    for (i, word) in map.iter().enumerate() {
        numbers::store(s, BLOCK_MAP + 4 * i, 4, u64::from(*word));
    }
}
