// Moving bytes between a volume and a caller's buffer.
ghost use Rattle.std.specs.Prelude.{◌++◌, ◌≡◌, ℕ, ◌+◌, ◌≤◌, ◌<◌, length, get_or, take, drop};
ghost use Rattle.common.specs.Lists.{edit};
ghost use Rattle.block_service.specs.Access.{count_moved, written_byte, write_change, changed_byte};

use volume::attributes::{ERASE_POLARITY, STICKY_WRITE, is_set};

// The number of bytes that are moved between a block of length `len`, from an offset, and n bytes of data.
#[tactic(auto, unfolding(crate::specs::Access::count_moved))]
pub(crate) fn count_moved(len: usize, offset: usize, n: usize) -> usize
    ensures { result ≡ count_moved len offset n }
{
    n.min(len.saturating_sub(offset))
}

// Copies `count` bytes of the volume, from an offset of the block at `start`, to the start of the buffer. The count and no slice: it is what
// the answer says, and callers would cut by it.
pub(crate) fn load(volume: &[u8], start: usize, offset: usize, buffer: &mut [u8], count: usize)
    requires count_in_bounds { count ≤ length buffer.old }
    requires count_in_bounds_2 { 0 < count → start + offset + count ≤ length volume.now }
    ensures { buffer.new ≡ take count (drop (start + offset) volume.now) ++ drop count buffer.old }
{
    if count == 0 {
        return;
    }
    let from = start + offset;
    let to = from + count;
    buffer[..count].copy_from_slice(&volume[from..to]);
}

// Stores the first `count` bytes of `new` in the volume, from an offset of the block at `start`, by the
// volume's write rule. Only that stretch is lent on.
pub(crate) fn store(
    attributes: u32,
    volume: &mut [u8],
    start: usize,
    offset: usize,
    new: &[u8],
    count: usize,
)
    requires count_in_bounds { count ≤ length new.now }
    requires count_in_bounds_2 { 0 < count → start + offset + count ≤ length volume.old }
    ensures { volume.new ≡ edit (λ i old. changed_byte attributes (write_change (start + offset) count new.now i) old) 0 volume.old }
{
    if count == 0 {
        return;
    }
    let at = start + offset;
    let end = at + count;
    write_part(attributes, &mut volume[at..end], &new[..count]);
}

// Writes `new` over the part: a plain copy, or where the write is sticky old AND new where the erase value is 1, old OR new where it
// is 0. The attributes are tested once, before the loop.
fn write_part(attributes: u32, part: &mut [u8], new: &[u8])
    requires { length part.old ≡ length new.now }
    ensures { part.new ≡ edit (λ i old. written_byte attributes old (get_or new.now i 0)) 0 part.old }
{
    if !is_set(attributes, STICKY_WRITE) {
        part.copy_from_slice(new);
    } else if is_set(attributes, ERASE_POLARITY) {
        merge(part, new, |old, new| old & new);
    } else {
        merge(part, new, |old, new| old | new);
    }
}

// Merges each byte of `new` into the part's byte at its place.
fn merge<F: Fn(u8, u8) -> u8>(part: &mut [u8], new: &[u8], rule: F)
    requires same_length { length part.old ≡ length new.now }
    requires callable { F.IsAlwaysCallable rule }
    ensures kept_length { length part.new ≡ length part.old }
    ensures merged { (i : ℕ) → i < length part.old → F.post rule (get_or part.old i 0) (get_or new.now i 0) (get_or part.new i 0) }
{
    for (i, old) in part.iter_mut().enumerate() {
        *old = rule(*old, new[i]);
    }
}
