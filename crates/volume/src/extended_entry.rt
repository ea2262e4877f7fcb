// The entries of an extended header, one at a time.
ghost use Rattle.std.specs.Prelude.{◌≡◌, false};
ghost use Rattle.volume.specs.ExtendedHeader.{entries_from, entries_faulty};
ghost use Rattle.volume.specs.ExtendedEntry.{entries_listed, entry_answer, entry_of, ext_entry};

use crate::extended_header::{EXT_ENTRIES, EXT_HEADER_OFFSET, EXT_SIZE, EXT_TYPE};
use crate::header::open_volume;
use common::Refusal;

// An entry: its first byte in the volume, its size and its type.
#[derive(Clone, Copy, Debug, PartialEq, Eq)]
pub struct ExtEntry {
    pub first: usize,
    pub size: u16,
    pub entry_type: u16,
}

// The entry of this number, from 0, of a volume's extended header. The volume is opened at base 0, and a refusal of opening is answered as
// it is; 14 where there is no such entry, no extended header, or the volume is of edition 1. Costs opening and the entries up to the one asked.
pub fn ext_entry(volume: &[u8], number: u64) -> Result<ExtEntry, Refusal>
    ensures { entry_answer result ≡ ext_entry volume.now number }
{
    let state = open_volume(volume, 0)?;
    if state.edition != 2 {
        return Err(Refusal::NotFound);
    }
    let offset = usize::from(numbers::u16_at(volume, EXT_HEADER_OFFSET));
    if offset == 0 {
        return Err(Refusal::NotFound);
    }
    let end = offset + numbers::u32_at(volume, offset + EXT_SIZE) as usize;
    entry_from(volume, offset + EXT_ENTRIES, end, number)
}

// The entry of this number among those from a place up to an end, none of which is at fault.
#[tactic(auto, unfolding(crate::specs::ExtendedEntry::entry_answer), using(crate::proofs::extended_entry::Numbered::first_asked, crate::proofs::extended_entry::Numbered::later_asked, crate::proofs::extended_entry::Numbered::none_asked, crate::proofs::extended_header::Entries::next, crate::proofs::extended_header::Entries::good_within))]
fn entry_from(s: &[u8], from: usize, end: usize, number: u64) -> Result<ExtEntry, Refusal>
    requires { entries_faulty (entries_from s.now from end) ≡ false }
    ensures { entry_answer result ≡ entry_of (entries_listed (entries_from s.now from end)) number }
{
    let mut at = from;
    let mut left = number;
    // No `for`: each turn goes on by the entry's own size.
    while at < end {
        let size = numbers::u16_at(s, at);
        if left == 0 {
            return Ok(ExtEntry {
                first: at,
                size,
                entry_type: numbers::u16_at(s, at + EXT_TYPE),
            });
        }
        left -= 1;
        at += usize::from(size);
    }
    Err(Refusal::NotFound)
}
