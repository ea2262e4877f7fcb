// An example to copy: putting a new mask into a firmware volume.
//
// A crate that calls the library names its crates in crates.txt (`example: common volume block_service`), and its contracts
// cite the library's definitions. The proof of this function is short, since each call's contract says
// everything about its answer and about the lent bytes.
#![tactic(auto)]

ghost use Rattle.std.specs.Prelude.{◌≡◌};
ghost use Rattle.example.specs.Mask.{masked, put_mask};
ghost use Rattle.block_service.specs.Service.{moved_answer};

use block_service::{END_OF_LIST, Moved, Words, erase_blocks, write};
use common::Refusal;
use volume::open_volume;

// Opens the volume, erases the block of the mask and writes the new mask at its start. A volume that does not open
// answers opening's own number, a refused erase the erase's, and no byte changes then: a mask is never written over a
// block that was not erased. Else the answer is the write's: the number of bytes that fit the block.
pub fn put_mask(volume: &mut [u8], base: u64, block: u64, mask: &[u8]) -> Result<Moved, Refusal>
    ensures { masked (moved_answer result) volume.new ≡ put_mask volume.old base block mask.now }
{
    let state = open_volume(volume, base)?;
    let list = [block, 1, END_OF_LIST];
    erase_blocks(&state, volume, Words(&list))?;
    write(&state, volume, block, 0, mask)
}
