// Little-endian numbers in byte slices: read at any place, and stored at any place.
//
// No public function here has a `requires`: a byte past the end reads as 0, and a byte that would lie past
// the end is not stored. The crates above rest on these contracts alone.
#![tactic(auto)]

ghost use Rattle.std.specs.Prelude.{[], ◌∷◌, ℕ, ◌≡◌, ◌+◌, ◌<◌, ◌^◌, get_or, length};
ghost use Rattle.std.proofs.lemmas.List.Edits.{sets};
ghost use Rattle.numbers.specs.LittleEndian.{le, le_bytes};

// The byte at a place.
pub fn byte_at(s: &[u8], at: usize) -> u8
    ensures { result ≡ get_or s.now at 0 }
{
    s.get(at).copied().unwrap_or(0)
}

// The N bytes from a place on.
fn bytes_at<const N: usize>(s: &[u8], at: usize) -> [u8; N]
    ensures { (i : ℕ) → i < N → get_or result i 0 ≡ get_or s.now (at + i) 0 }
{
    if at < s.len() {
        let rest = &s[at..];
        return match rest.first_chunk() {
            Some(bytes) => *bytes,
            None => padded(rest),
        };
    }
    [0; N]
}

// Too few bytes, and zeros behind them. Rare, and kept out of the way of the load.
#[cold]
fn padded<const N: usize>(rest: &[u8]) -> [u8; N]
    requires { length rest.now < N }
    ensures { (i : ℕ) → i < N → get_or result i 0 ≡ get_or rest.now i 0 }
{
    let mut bytes = [0; N];
    bytes[..rest.len()].copy_from_slice(rest);
    bytes
}

// The 16-bit number at a place. Where its bytes are all there it is one load; so are the 32-bit and the 64-bit number.
#[tactic(auto, unfolding(crate::specs::LittleEndian::le))]
pub fn u16_at(s: &[u8], at: usize) -> u16
    ensures { result ≡ le 2 s.now at }
{
    let [a, b] = bytes_at::<2>(s, at);
    u16_of(a, b)
}

// The 24-bit number at a place; it stays below 2 ^ 24.
#[tactic(auto, unfolding(crate::specs::LittleEndian::le))]
pub fn u24_at(s: &[u8], at: usize) -> u32
    ensures { (result ≡ le 3 s.now at) × (result < 2 ^ 24) }
{
    let [a, b, c] = bytes_at::<3>(s, at);
    u32_of(a, b, c, 0)
}

// A 24-bit number, and the byte after it.
#[derive(Clone, Copy, Debug, PartialEq, Eq)]
pub struct U24Byte {
    pub number: u32,
    pub byte: u8,
}

// The 24-bit number at a place and the byte after it, as a section's size and type stand. Where the 4 bytes are there it is one load.
#[tactic(auto, unfolding(crate::specs::LittleEndian::le))]
pub fn u24_byte_at(s: &[u8], at: usize) -> U24Byte
    ensures { (result.number ≡ le 3 s.now at) × (result.byte ≡ get_or s.now (at + 3) 0) × (result.number < 2 ^ 24) }
{
    let [a, b, c, byte] = bytes_at::<4>(s, at);
    U24Byte {
        number: u32_of(a, b, c, 0),
        byte,
    }
}

// The 32-bit number at a place.
#[tactic(auto, unfolding(crate::specs::LittleEndian::le))]
pub fn u32_at(s: &[u8], at: usize) -> u32
    ensures { result ≡ le 4 s.now at }
{
    let [a, b, c, d] = bytes_at::<4>(s, at);
    u32_of(a, b, c, d)
}

// The 64-bit number at a place. Of two halves, and not by `from_le_bytes`: the edit u64_halves_overlap holds the form.
#[tactic(auto, unfolding(crate::specs::LittleEndian::le))]
pub fn u64_at(s: &[u8], at: usize) -> u64
    ensures { result ≡ le 8 s.now at }
{
    let [a, b, c, d, e, f, g, h] = bytes_at::<8>(s, at);
    u64::from(u32_of(a, b, c, d)) + U32_END * u64::from(u32_of(e, f, g, h))
}

// 2 ^ 32.
const U32_END: u64 = 1 << 32;

// The 16-bit number of two bytes, the lowest first.
#[tactic(auto, unfolding(crate::specs::LittleEndian::le))]
pub fn u16_of(a: u8, b: u8) -> u16
    ensures { result ≡ le 2 (a ∷ b ∷ []) 0 }
{
    u16::from_le_bytes([a, b])
}

// The 32-bit number of four bytes, the lowest first.
#[tactic(auto, unfolding(crate::specs::LittleEndian::le))]
pub fn u32_of(a: u8, b: u8, c: u8, d: u8) -> u32
    ensures { result ≡ le 4 (a ∷ b ∷ c ∷ d ∷ []) 0 }
{
    u32::from_le_bytes([a, b, c, d])
}

// A 32-bit number as a 64-bit one. It stays below 2 ^ 32, so that a product of two such fits. `u64::from` says as much today; this stays for the edit
// wide_half, and for callers outside.
pub fn wide(x: u32) -> u64
    ensures { (result ≡ x) × (result < 2 ^ 32) }
{
    u64::from(x)
}

// Stores the lowest `width` bytes of x, the lowest first, from a place on. Every other byte stays. Not by `to_le_bytes`: the width is any number, also
// past 8.
pub fn store(s: &mut [u8], at: usize, width: usize, x: u64)
    ensures { s.new ≡ sets s.old at (le_bytes width x) }
{
    let mut rest = x;
    for i in 0..width.min(s.len().saturating_sub(at)) {
        s[at + i] = (rest % 256) as u8;
        rest /= 256;
    }
}

// Stores bytes from a place on. Every other byte stays.
#[tactic(auto, using(crate::proofs::LittleEndian::sets_front, common::proofs::Lists::sets_past))]
pub fn store_bytes(s: &mut [u8], at: usize, src: &[u8])
    ensures { s.new ≡ sets s.old at src.now }
{
    if at < s.len() {
        let n = src.len().min(s.len() - at);
        s[at..at + n].copy_from_slice(&src[..n]);
    }
}
