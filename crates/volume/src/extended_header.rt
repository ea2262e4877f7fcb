// The extended header that edition 2 may have: rule 112.
ghost use Rattle.std.specs.Prelude.{◌≡◌, ◌^◌, ◌<◌, ◌≤◌};
ghost use Rattle.volume.specs.ExtendedHeader.{entries_from, ext_fault, ext_offset, entries_faulty};

// Where a header of edition 2 has the offset of its extended header.
pub(crate) const EXT_HEADER_OFFSET: usize = 52;

// Where the size of an extended header stands, behind its name's GUID; where its entries start; and where an entry's type stands, behind its size.
pub(crate) const EXT_SIZE: usize = 16;

pub(crate) const EXT_ENTRIES: usize = 20;

pub(crate) const EXT_TYPE: usize = 2;

// The least sizes: of an extended header, its GUID and its size, and of an entry, its size and its type.
const SHORTEST_EXT_HEADER: usize = 20;

const SHORTEST_ENTRY: usize = 4;

// Whether a volume of this edition breaks rule 112, the header having `header` bytes and the volume `len`. Edition 1 has no extended header;
// the edition is a number, as in `State`.
#[tactic(auto, unfolding(crate::specs::ExtendedHeader::ext_fault, crate::specs::ExtendedHeader::ext_offset), using(std::proofs::lemmas::Bool::Decides::nat_tests))]
pub(crate) fn ext_fault(s: &[u8], edition: u32, header: usize, len: usize) -> bool
    ensures { result ≡ ext_fault s.now header len (ext_offset edition s.now) }
{
    if edition != 2 {
        return false;
    }
    let offset = usize::from(numbers::u16_at(s, EXT_HEADER_OFFSET));
    offset_fault(s, header, len, offset)
}

// The same of the extended header at an offset. Offset 0 is none.
#[tactic(auto, unfolding(crate::specs::ExtendedHeader::ext_fault, common::specs::Refusals::any), using(std::proofs::lemmas::Bool::Decides::nat_tests))]
fn offset_fault(s: &[u8], header: usize, len: usize, offset: usize) -> bool
    requires { offset < 2 ^ 16 }
    ensures { result ≡ ext_fault s.now header len offset }
{
    if offset == 0 {
        return false;
    }
    let from = offset + EXT_ENTRIES;
    if offset < header || len < from {
        return true;
    }
    let size = numbers::u32_at(s, offset + EXT_SIZE) as usize;
    let end = offset + size;
    size < SHORTEST_EXT_HEADER || len < end || entries_fault(s, from, end)
}

// Whether an entry from a place up to an end is under 4 bytes, cut or past the end. Each turn goes on by the entry's size.
#[tactic(auto, using(crate::proofs::extended_header::Entries::small_faulty, crate::proofs::extended_header::Entries::past_faulty, crate::proofs::extended_header::Entries::next_faulty, crate::proofs::extended_header::Entries::end_faulty))]
fn entries_fault(s: &[u8], from: usize, end: usize) -> bool
    requires { from ≤ end }
    ensures { result ≡ entries_faulty (entries_from s.now from end) }
{
    let mut at = from;
    // No `for`: each turn goes on by the entry's own size. `entry_from` walks the same entries and tests none: an iterator would have to test each again.
    while at < end {
        let size = usize::from(numbers::u16_at(s, at));
        if size < SHORTEST_ENTRY || end - at < size {
            return true;
        }
        at += size;
    }
    false
}
