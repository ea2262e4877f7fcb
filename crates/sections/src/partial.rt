// A section header of which only the first bytes came: what they say so far.
ghost use Rattle.std.specs.Prelude.{◌≡◌, cond};
ghost use Rattle.sections.specs.Types.{type_info as type_info_of};
ghost use Rattle.sections.specs.Header.{is_holder, own_fields};
ghost use Rattle.sections.specs.Partial.{contents_fields, partial_answer, partial_of};

use crate::header::{DATA_OFFSET, Mode, Section, TYPE, read_header};
use crate::types::{
    COMMON_HEADER, COMPRESSION_HEADER, Class, SECTION_COMPRESSION, SECTION_GUID_DEFINED, type_info,
};
use common::refusal::Refusal;

// The bytes that the longest header has: a long one with a GUID-defined section's own fields.
pub const LONGEST_HEADER: usize = 28;

// The header of a section that has `left` bytes left in the stream that holds it, of which the first
// `have` came: the section, in places counted from its first byte, or the first of its faults 201 to 204;
// None while these bytes are too few. Each answer is given once the last byte of the fields that it depends
// on came; what stands behind the first `have` bytes does not matter.
pub fn read_partial(
    mode: Mode,
    bytes: &[u8; LONGEST_HEADER],
    have: usize,
    left: usize,
) -> Result<Option<Section>, Refusal>
    ensures { partial_answer result ≡ partial_of mode bytes.now have left }
{
    if left < COMMON_HEADER {
        return Err(Refusal::SectionCut);
    }
    if have < TYPE {
        return Ok(None);
    }
    let length = mode.header_length(numbers::u24_at(bytes, 0) as usize);
    if left < length {
        return Err(Refusal::SectionCut);
    }
    if have < length {
        return Ok(None);
    }
    let header = read_header(mode, bytes, 0, left)?;
    if have < header.length + contents_fields(header.section_type) {
        return Ok(None);
    }
    let section = header.section(bytes, 0)?;
    if have < header.length + own_fields(header.section_type) {
        return Ok(None);
    }
    Ok(Some(section))
}

// How many bytes a holder's own fields have, which follow its header; of a leaf none is read, so 0.
pub fn own_fields(section_type: u8) -> usize
    ensures { result ≡ own_fields section_type }
{
    let info = type_info(section_type);
    match info.class {
        Class::OpenableHolder => info.least - COMMON_HEADER,
        Class::GuidHeadedLeaf => 0,
        Class::PlainLeaf => 0,
    }
}

// How many of them there are up to the last that 204 tests.
fn contents_fields(section_type: u8) -> usize
    ensures { result ≡ cond (is_holder (type_info_of section_type).class) (contents_fields section_type) 0 }
{
    match section_type {
        SECTION_COMPRESSION => COMPRESSION_HEADER - COMMON_HEADER,
        SECTION_GUID_DEFINED => DATA_OFFSET + 2,
        _ => 0,
    }
}
