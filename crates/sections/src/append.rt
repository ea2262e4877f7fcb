// Appending a leaf to a section stream.
ghost use Rattle.std.specs.Prelude.{[], ◌∷◌, ◌++◌, ◌≡◌, ◌+◌, ◌≤◌, ◌⊎◌, length};
ghost use Rattle.std.proofs.lemmas.List.Edits.{sets};
ghost use Rattle.numbers.specs.LittleEndian.{le_bytes};
ghost use Rattle.sections.specs.Append.{appended_answer, append_of, buffer_after, added_with, leaf_start};
ghost use Rattle.sections.specs.Walk.{aligned as aligned_of};

use crate::header::{EXTENDED_SIZE, LARGEST_FIELD, LONG_HEADER, Mode, TYPE};
use crate::types::{COMMON_HEADER, SECTION_COMPRESSION, SECTION_GUID_DEFINED, type_info};
use crate::walk::aligned;
use common::refusal::Refusal;

// Appends a leaf after the `used` bytes of a stream in a buffer, padding, header and body, and answers the
// new used count. Every other byte of the buffer stays, and on a refusal all of them: 2, 202, 206 or 5. The
// stream itself is not tested. Linear in the body.
pub fn append(
    mode: Mode,
    buffer: &mut [u8],
    used: usize,
    section_type: u8,
    body: &[u8],
) -> Result<usize, Refusal>
    ensures { (appended_answer result ≡ append_of mode (length buffer.old) used section_type (length body.now))
        × (buffer.new ≡ buffer_after mode buffer.old used section_type body.now) }
{
    if section_type == SECTION_COMPRESSION
        || section_type == SECTION_GUID_DEFINED
        || buffer.len() < used
    {
        return Err(Refusal::InvalidParameter);
    }
    let size = COMMON_HEADER + body.len();
    if size < type_info(section_type).least {
        return Err(Refusal::SectionTooShort);
    }
    // A size over this is refused first, so that the sum fits.
    if mode.largest_leaf() < size {
        return Err(Refusal::StreamTooLong);
    }
    let header = mode.leaf_header(body.len());
    let end = aligned(used) + (header + body.len());
    if mode.stream_limit() < end {
        return Err(Refusal::StreamTooLong);
    }
    if buffer.len() < end {
        return Err(Refusal::BufferTooSmall);
    }
    store_leaf(buffer, used, section_type, header, body);
    Ok(end)
}

// Stores padding, header and body from byte `used` on.
fn store_leaf(buffer: &mut [u8], used: usize, section_type: u8, header: usize, body: &[u8])
    requires { ((header ≡ 4) ⊎ (header ≡ 8)) × (aligned_of used + (header + length body.now) ≤ length buffer.old) }
    ensures { buffer.new ≡ sets buffer.old used (added_with header used section_type body.now) }
{
    let start = aligned(used);
    numbers::store(buffer, used, start - used, 0);
    store_header(buffer, start, section_type, header, body.len());
    let from = start + header;
    let end = from + body.len();
    buffer[from..end].copy_from_slice(body);
}

// Stores the header of a leaf with a body of m bytes. The part of 4 bytes is lent by itself, so that its stores test no bound.
fn store_header(buffer: &mut [u8], start: usize, section_type: u8, header: usize, m: usize)
    requires { (4 ≤ header) × (start + (header + m) ≤ length buffer.old) }
    ensures { buffer.new ≡ sets buffer.old start (leaf_start header section_type m) }
{
    let size = header + m;
    let end = start + COMMON_HEADER;
    if header == LONG_HEADER {
        store_common_header(&mut buffer[start..end], LARGEST_FIELD, section_type);
        numbers::store(buffer, start + EXTENDED_SIZE, 4, size as u64);
        return;
    }
    store_common_header(&mut buffer[start..end], size, section_type);
}

// Stores what every header begins with at the start of a part: the size field and the type.
fn store_common_header(part: &mut [u8], field: usize, section_type: u8)
    ensures { part.new ≡ sets part.old 0 (le_bytes 3 field ++ section_type ∷ []) }
{
    numbers::store(part, 0, 3, field as u64);
    numbers::store(part, TYPE, 1, section_type as u64);
}
