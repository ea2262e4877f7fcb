// Writes by a state that was judged before, for a caller of many writes (document 02, e): what 111, 5 and 15 for disabled writes are
// decided by is the same at each of them, so that they are tested once.
ghost use Rattle.std.specs.Prelude.{◌≡◌};
ghost use Rattle.common.specs.Refusal.{refusal_of};
ghost use Rattle.common.specs.Refusals.{first_refusal};
ghost use Rattle.volume.specs.Attributes.{write_status};
ghost use Rattle.block_service.specs.Judged.{judged_write, stored};
ghost use Rattle.block_service.specs.Service.{lent_refusals, moved_answer};

use crate::access::{count_moved, store};
use crate::blocks::find_place;
use crate::lent::test_lent;
use crate::service::{Moved, move_answer};
use common::Refusal;
use volume::State;
use volume::attributes::WRITE_STATUS;

// What refuses a write to a volume of so many lent bytes, whatever its block: 111, 5 or 15 (writes are disabled).
pub fn write_refusal(state: &State, volume_len: u64) -> Result<(), Refusal>
    ensures { refusal_of result ≡ first_refusal (lent_refusals state.now volume_len write_status) }
{
    test_lent(state, volume_len, WRITE_STATUS)
}

// A write by a state's attributes, first protected block and the words of its map entries. Neither 111 nor whether writes are enabled is
// asked: where `write_refusal` allows a write to the volume it is that write, refused with 2 (no such block) or 15 (the block is
// protected). By other parts 5 comes first, where the map's entries up to the block's, or all where none holds it, have more bytes than
// are lent. A refusal changes no byte. The parts come singly, and not as a state: none of its other fields is asked, and any parts are answered.
#[tactic(auto, unfolding(crate::specs::Judged::judged_write, crate::specs::Judged::judged_refusals, crate::specs::Access::count_moved, crate::specs::Blocks::start_of, crate::specs::Blocks::length_of, crate::specs::Service::moved_answer, common::specs::Refusals::first_refusal))]
pub fn write_judged(
    attributes: u32,
    protected: u64,
    words: &[u32],
    volume: &mut [u8],
    block: u64,
    offset: usize,
    new: &[u8],
) -> Result<Moved, Refusal>
    ensures { stored (moved_answer result) volume.new
        ≡ judged_write attributes protected words.now volume.old block offset new.now }
{
    let place = find_place(words, volume.len(), block)?;
    if protected <= block {
        return Err(Refusal::AccessDenied);
    }
    let n = new.len();
    let count = count_moved(place.len, offset, n);
    store(attributes, volume, place.start, offset, new, count);
    Ok(move_answer(count, n))
}
