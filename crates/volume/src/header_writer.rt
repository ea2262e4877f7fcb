// Writing a volume header, of either edition.
ghost use Rattle.std.specs.Prelude.{◌≡◌, ◌*◌, ◌≤◌, ◌++◌, length, replicate};
ghost use Rattle.std.proofs.lemmas.List.Edits.{sets};
ghost use Rattle.numbers.specs.LittleEndian.{le_bytes};
ghost use Rattle.volume.specs.BlockMap.{max_entries};
ghost use Rattle.volume.specs.Header.{map_start};
ghost use Rattle.volume.specs.ExtendedHeader.{ext_offset_start};
ghost use Rattle.volume.specs.HeaderWriter.{header_back, header_front, offset_of, revision_of, words_bytes, write_header, written_answer, wrote};

use crate::attributes::attributes_fault;
use crate::block_map::{has_zero, header_length, map_fault};
use crate::extended_header::EXT_HEADER_OFFSET;
use crate::header::{
    ATTRIBUTES, BLOCK_MAP, CHECKSUM, FILE_SYSTEM_GUID, HEADER_LENGTH, LENGTH, RESERVED, REVISION,
    SIGNATURE, SIGNATURE_PLACE, word_sum,
};
use common::Refusal;

// The edition of a header, and the offset of an extended header, which only the second has; 0 for none, as the header's field has it.
#[derive(Clone, Copy, Debug, PartialEq, Eq)]
pub enum Edition {
    Framework,
    Pi { ext_header_offset: u16 },
}

impl Edition {
    // The header's revision.
    fn revision(self) -> u32
        ensures { result ≡ revision_of self }
    {
        match self {
            Edition::Framework => 1,
            Edition::Pi { .. } => 2,
        }
    }

    // Bytes 52 and 53.
    fn ext_header_offset(self) -> u16
        ensures { result ≡ offset_of self }
    {
        match self {
            Edition::Framework => 0,
            Edition::Pi { ext_header_offset } => ext_header_offset,
        }
    }
}

// Writes the header of a volume at the start of a room, from its edition, file system GUID, length, attributes and
// block map, the map's words without the closing pair. The rest of the room stays, and on a refusal all of it. Every offset
// of an extended header is written; whether one is there, and good, opening tells.
#[tactic(auto, unfolding(crate::specs::HeaderWriter::write_header, crate::specs::HeaderWriter::write_refusals, crate::specs::HeaderWriter::words_fault, crate::specs::HeaderWriter::written_answer, common::specs::Refusals::first_refusal), using(std::proofs::lemmas::Bool::Decides::nat_tests, crate::proofs::block_map::Words::size_tested))]
pub fn write_header(
    edition: Edition,
    guid: [u8; 16],
    len: u64,
    attributes: u32,
    map: &[u32],
    room: &mut [u8],
) -> Result<usize, Refusal>
    ensures { wrote (written_answer result) room.new ≡ write_header (revision_of edition) (offset_of edition) guid len attributes map.now room.old }
{
    if has_zero(map) || map.len() % 2 != 0 {
        return Err(Refusal::WrongBlockMap);
    }
    if map_fault(map, len, 0) {
        return Err(Refusal::WrongLength);
    }
    if attributes_fault(edition.revision(), attributes) {
        return Err(Refusal::WrongAttributes);
    }
    let header = header_length(map.len() / 2);
    if room.len() < header {
        return Err(Refusal::BufferTooSmall);
    }
    store_fields(guid, len, attributes, header, room);
    store_back(edition, room);
    store_map(map, room);
    let sum = word_sum(&room[..header]);
    numbers::store(room, CHECKSUM, 2, u64::from(0u16.wrapping_sub(sum)));
    Ok(header)
}

// Stores the first 52 bytes of a header of this length, with 0 for the checksum.
fn store_fields(guid: [u8; 16], len: u64, attributes: u32, header: usize, room: &mut [u8])
    ensures { room.new ≡ sets room.old 0 (header_front guid len attributes header ++ le_bytes 2 0) }
{
    numbers::store(room, 0, 8, 0);
    numbers::store(room, 8, 8, 0);
    numbers::store_bytes(room, FILE_SYSTEM_GUID, &guid);
    numbers::store(room, LENGTH, 8, len);
    numbers::store(room, SIGNATURE_PLACE, 4, u64::from(SIGNATURE));
    numbers::store(room, ATTRIBUTES, 4, u64::from(attributes));
    numbers::store(room, HEADER_LENGTH, 2, header as u64);
    numbers::store(room, CHECKSUM, 2, 0);
}

// Stores the 4 bytes behind the checksum: the offset of the extended header, a reserved zero and the revision.
fn store_back(edition: Edition, room: &mut [u8])
    ensures { room.new ≡ sets room.old ext_offset_start (header_back (revision_of edition) (offset_of edition)) }
{
    numbers::store(
        room,
        EXT_HEADER_OFFSET,
        2,
        u64::from(edition.ext_header_offset()),
    );
    numbers::store(room, RESERVED, 1, 0);
    numbers::store(room, REVISION, 1, u64::from(edition.revision()));
}

// Stores map words and the closing pair, from byte 56 on.
fn store_map(map: &[u32], room: &mut [u8])
    requires { length map.now ≤ 2 * max_entries }
    ensures { room.new ≡ sets room.old map_start (words_bytes map.now ++ replicate 8 0) }
{
    for (i, word) in map.iter().enumerate() {
        numbers::store(room, BLOCK_MAP + 4 * i, 4, u64::from(*word));
    }
    numbers::store(room, BLOCK_MAP + 4 * map.len(), 8, 0);
}
