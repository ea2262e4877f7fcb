// Reading the script: lists of items, each item an 8-byte length and then its bytes. An item may be a
// list in turn. Whatever the bytes are, an item that is not there is empty.
ghost use Rattle.std.specs.Prelude.{◌<◌};

use numbers::{store_bytes, u16_at, u64_at};

// The k-th item of a list.
pub(crate) fn item<'a>(list: &'a [u8], k: usize) -> &'a [u8] {
    let mut at: usize = 0;
    for _ in 0..k {
        at = at.wrapping_add(8).wrapping_add(u64_at(list, at) as usize);
    }
    part(list, at.wrapping_add(8), u64_at(list, at) as usize)
}

// The k-th item of a list, which is a number.
pub(crate) fn number(list: &[u8], k: usize) -> u64 {
    u64_at(item(list, k), 0)
}

// A stretch of bytes by its place and length; empty where it does not lie within.
pub(crate) fn part<'a>(s: &'a [u8], at: usize, len: usize) -> &'a [u8] {
    s.get(at..).and_then(|rest| rest.get(..len)).unwrap_or(&[])
}

// The first bytes of a slice, or all of it where it has no more.
pub(crate) fn prefix<'a>(s: &'a [u8], n: usize) -> &'a [u8] {
    &s[..n.min(s.len())]
}

// The lent bytes of a case before its call: a pattern of 16-bit numbers' high bytes, each number by a
// step more than the one before, and over its start the case's own bytes.
pub(crate) fn prepare(own: &[u8], pattern: &[u8], out: &mut [u8]) {
    let step = u16_at(pattern, 2);
    let mut x = u16_at(pattern, 0);
    for byte in out.iter_mut() {
        *byte = (x >> 8) as u8;
        x = x.wrapping_add(step);
    }
    store_bytes(out, 0, own);
}

// Stores the words of an item, each of `width` bytes, at the start of a room. The rest of it stays.
pub(crate) fn words_of<T: Drop, F: Fn(&[u8]) -> T>(
    src: &[u8],
    width: usize,
    number: F,
    out: &mut [T],
)
    requires some { 0 < width }
    requires callable { F.IsAlwaysCallable number }
{
    for (word, bytes) in out.iter_mut().zip(src.chunks(width)) {
        *word = number(bytes);
    }
}
