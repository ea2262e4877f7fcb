// Reading the header of the section at one start.
ghost use Rattle.std.specs.Prelude.{◌≡◌, cond, ◌+◌, ◌≤◌, ◌<◌, ◌^◌, length, IfOk};
ghost use Rattle.sections.specs.Header.{size_of, sized_at, head_of, head_at, IsClassed, IsWithin};

use crate::types::{
    COMMON_HEADER, COMPRESSION_HEADER, Class, GUID_DEFINED_HEADER, SECTION_COMPRESSION, type_info,
};
use common::refusal::Refusal;

// The length of a long header, one with a 32-bit size (PI's EFI_COMMON_SECTION_HEADER2), and the size
// field that stands for it.
pub(crate) const LONG_HEADER: usize = 8;

pub(crate) const LARGEST_FIELD: usize = 16_777_215;

// Where the type and the 32-bit size (PI's ExtendedSize) stand, from a section's first byte.
pub(crate) const TYPE: usize = 3;

pub(crate) const EXTENDED_SIZE: usize = 4;

// Where the fields of the two holders stand, from the end of the header; the unpacked length is the first.
const COMPRESSION_KIND: usize = 4;

pub(crate) const DATA_OFFSET: usize = 16;

const ATTRIBUTES: usize = 18;

// A stream over this many bytes is refused: in Framework mode, and in PI mode.
const FRAMEWORK_LIMIT: usize = 16_777_216;

const PI_LIMIT: usize = 67_108_864;

// The two meanings of a section's size field. In PI mode FF FF FF stands for a header of 8 bytes, in
// which a 32-bit size follows the type; in Framework mode it is a size like any other.
#[derive(Clone, Copy, Debug, PartialEq, Eq)]
pub enum Mode {
    Framework,
    Pi,
}

impl Mode {
    ghost use Rattle.sections.specs.Header.{is_long, is_pi, largest_field};
    ghost use Rattle.sections.specs.Walk.{stream_limit};
    ghost use Rattle.sections.specs.Append.{leaf_header};

    // The most bytes of a stream.
    #[tactic(auto, unfolding(crate::specs::Walk::stream_limit))]
    pub fn stream_limit(self) -> usize
        ensures { result ≡ stream_limit self }
    {
        match self {
            Mode::Framework => FRAMEWORK_LIMIT,
            Mode::Pi => PI_LIMIT,
        }
    }

    // Whether a size field stands for a long header.
    #[tactic(auto, unfolding(crate::specs::Header::is_long))]
    pub(crate) fn is_long(self, field: usize) -> bool
        ensures { result ≡ is_long self field }
    {
        match self {
            Mode::Framework => false,
            Mode::Pi => field == LARGEST_FIELD,
        }
    }

    // The length of the header that a size field stands in.
    pub(crate) fn header_length(self, field: usize) -> usize
        ensures { result ≡ cond (is_long self field) 8 4 }
    {
        if self.is_long(field) {
            LONG_HEADER
        } else {
            COMMON_HEADER
        }
    }

    // The most bytes of a leaf with a short header that can be appended: in Framework mode its size field holds
    // them, and in PI mode the stream limit alone bounds them, since a long header holds every size up to it.
    #[tactic(auto, unfolding(crate::specs::Walk::stream_limit))]
    pub(crate) fn largest_leaf(self) -> usize
        ensures { result ≡ cond (is_pi self) (stream_limit self) largest_field }
    {
        match self {
            Mode::Framework => LARGEST_FIELD,
            Mode::Pi => PI_LIMIT,
        }
    }

    // The length of the header of a leaf with a body of m bytes.
    pub(crate) fn leaf_header(self, m: usize) -> usize
        ensures { result ≡ leaf_header self m }
    {
        match self {
            Mode::Framework => COMMON_HEADER,
            Mode::Pi => {
                if m < LARGEST_FIELD - COMMON_HEADER {
                    return COMMON_HEADER;
                }
                LONG_HEADER
            }
        }
    }
}

// A section that a stream shows: the bytes from `first` to `end`. `contents` is where its contents start
// that are searched, which end at `end` too; of a leaf and of a holder with packed contents none are.
#[derive(Clone, Copy, Debug, PartialEq, Eq)]
pub struct Section {
    pub section_type: u8,
    pub first: usize,
    pub end: usize,
    pub contents: Option<usize>,
}

// What the first 4 or 8 bytes of a section say: its type, the length of this header and the size of the
// section. The class is the type's, which is asked once: so a leaf's tests go straight on to its end.
#[derive(Clone, Copy, Debug, PartialEq, Eq)]
pub(crate) struct Header {
    pub(crate) section_type: u8,
    pub(crate) class: Class,
    pub(crate) length: usize,
    pub(crate) size: usize,
}

// The section at a start where bytes are left, or the first of its faults 201 to 204.
pub(crate) fn read_section(mode: Mode, s: &[u8], at: usize) -> Result<Section, Refusal>
    requires { at < length s.now }
    ensures read { head_of result ≡ head_at mode s.now at }
    ensures within { IfOk result (IsWithin s.now at) }
{
    let header = read_header(mode, s, at, s.len() - at)?;
    header.section(s, at)
}

// The size reader: faults 201 to 203, in that order, or the header. `left` bytes are left in the stream
// that holds the section; of the section its header alone is read. It and `section` are marked to be compiled
// into the walk and the partial reader: a header goes through memory at each call that is left.
#[inline(always)]
pub(crate) fn read_header(mode: Mode, s: &[u8], at: usize, left: usize) -> Result<Header, Refusal>
    requires { at + left < 2 ^ 64 }
    ensures sized { size_of result ≡ sized_at mode left s.now at }
    ensures classed { IfOk result IsClassed }
{
    if left < COMMON_HEADER {
        return Err(Refusal::SectionCut);
    }
    let start = numbers::u24_byte_at(s, at);
    let field = start.number as usize;
    if !mode.is_long(field) {
        return Header::tested(start.byte, COMMON_HEADER, field, left);
    }
    if left < LONG_HEADER {
        return Err(Refusal::SectionCut);
    }
    let size = numbers::u32_at(s, at + EXTENDED_SIZE) as usize;
    Header::tested(start.byte, LONG_HEADER, size, left)
}

impl Header {
    ghost use Rattle.sections.specs.Types.{type_info};
    ghost use Rattle.sections.specs.Header.{size_of, tested_of, least_size, grown, head_of, contents_head, holder_of, past_203, is_holder, IsClassed, Lies};
    ghost use Rattle.std.specs.Prelude.{true};

    // Past 201: faults 202 and 203, in that order, or the header. The class is asked first, so that each
    // class's tests are compiled with its own least size.
    #[tactic(auto, using(crate::proofs::types::Rows::least_range))]
    fn tested(section_type: u8, length: usize, size: usize, left: usize) -> Result<Header, Refusal>
        requires { (4 ≤ length) × (length ≤ 8) }
        ensures sized { size_of result ≡ tested_of left (least_size length section_type) section_type length size }
        ensures classed { IfOk result IsClassed }
    {
        let info = type_info(section_type);
        let header = Header {
            section_type,
            class: info.class,
            length,
            size,
        };
        let least = header.grown(info.least);
        match info.class {
            Class::OpenableHolder => header.fitting(least, left),
            Class::GuidHeadedLeaf => header.fitting(least, left),
            Class::PlainLeaf => header.fitting(least, left),
        }
    }

    // Faults 202 and 203, in that order, of a section that has at least `least` bytes, or its header.
    fn fitting(self, least: usize, left: usize) -> Result<Header, Refusal>
        requires { IsClassed self }
        ensures sized { size_of result ≡ tested_of left least self.section_type self.length self.size }
        ensures classed { IfOk result IsClassed }
    {
        if self.size < least {
            return Err(Refusal::SectionTooShort);
        }
        if left < self.size {
            return Err(Refusal::SectionTooLong);
        }
        Ok(self)
    }

    // What a number of bytes from a section's first byte on becomes that counts a header of 4 bytes. The bounds of the length are in `Lies`, which says
    // them with where the header lies; a ghost field of them would say them twice.
    fn grown(&self, n: usize) -> usize
        requires { (4 ≤ self.now.length) × (self.now.length ≤ 8) × (n < 2 ^ 63) }
        ensures { result ≡ grown self.now.length n }
    {
        n + (self.length - COMMON_HEADER)
    }

    // Past 203: the section, or a holder's fault 204. Of the section a holder's own fields alone are read.
    #[inline(always)]
    pub(crate) fn section(&self, s: &[u8], at: usize) -> Result<Section, Refusal>
        requires { Lies s.now at self.now (type_info self.now.section_type).least × IsClassed self.now }
        ensures { head_of result ≡ past_203 s.now at self.now }
    {
        let contents = match self.class {
            Class::OpenableHolder => self.holder_contents(s, at)?,
            Class::GuidHeadedLeaf => None,
            Class::PlainLeaf => None,
        };
        Ok(Section {
            section_type: self.section_type,
            first: at + self.length,
            end: at + self.size,
            contents,
        })
    }

    // Where the contents of a holder start that are searched: none where they are packed, or fault 204.
    fn holder_contents(&self, s: &[u8], at: usize) -> Result<Option<usize>, Refusal>
        requires { Lies s.now at self.now (type_info self.now.section_type).least × (is_holder (type_info self.now.section_type).class ≡ true) }
        ensures { contents_head self.now at result ≡ holder_of s.now at self.now.section_type self.now.length self.now.size }
    {
        if self.section_type == SECTION_COMPRESSION {
            self.compression_contents(s, at)
        } else {
            self.guid_defined_contents(s, at)
        }
    }

    // The same of a compression section.
    fn compression_contents(&self, s: &[u8], at: usize) -> Result<Option<usize>, Refusal>
        requires { Lies s.now at self.now 9 × (self.now.section_type ≡ 1) }
        ensures { contents_head self.now at result ≡ holder_of s.now at self.now.section_type self.now.length self.now.size }
    {
        let fields = at + self.length;
        if s[fields + COMPRESSION_KIND] != 0 {
            return Ok(None);
        }
        let own = self.grown(COMPRESSION_HEADER);
        let unpacked = numbers::u32_of(s[fields], s[fields + 1], s[fields + 2], s[fields + 3]);
        if unpacked as usize != self.size - own {
            return Err(Refusal::WrongContents);
        }
        Ok(Some(at + own))
    }

    // And of a GUID-defined section.
    fn guid_defined_contents(&self, s: &[u8], at: usize) -> Result<Option<usize>, Refusal>
        requires { Lies s.now at self.now 24 × (self.now.section_type ≡ 2) }
        ensures { contents_head self.now at result ≡ holder_of s.now at self.now.section_type self.now.length self.now.size }
    {
        let Header { length, size, .. } = *self;
        let fields = at + length;
        let offset = numbers::u16_of(s[fields + DATA_OFFSET], s[fields + DATA_OFFSET + 1]) as usize;
        let own = self.grown(GUID_DEFINED_HEADER);
        if offset < own || size < offset {
            return Err(Refusal::WrongContents);
        }
        let attributes = numbers::u16_of(s[fields + ATTRIBUTES], s[fields + ATTRIBUTES + 1]);
        if attributes % 2 == 1 {
            return Ok(None);
        }
        Ok(Some(at + offset))
    }
}
