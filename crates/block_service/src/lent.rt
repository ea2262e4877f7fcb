// What refuses a call whatever its arguments: 111, and where it is lent the volume 5 and 15 too.
ghost use Rattle.std.specs.Prelude.{◌≡◌, [], ◌∷◌};
ghost use Rattle.common.specs.Refusal.{refusal_of};
ghost use Rattle.common.specs.Refusals.{row, first_refusal};
ghost use Rattle.volume.specs.State.{unlawful};
ghost use Rattle.block_service.specs.Service.{lent_refusals};

use common::Refusal;
use volume::State;
use volume::attributes::is_set;

// 111: the state is none that opening answers, or that a call makes of one.
#[tactic(auto, unfolding(common::specs::Refusals::first_refusal))]
pub(crate) fn test_lawful(state: &State) -> Result<(), Refusal>
    ensures { refusal_of result ≡ first_refusal (row (unlawful state.now) 111 ∷ []) }
{
    if state.is_unlawful() {
        return Err(Refusal::UnlawfulState);
    }
    Ok(())
}

// The refusals that the calls begin with to which the volume is lent: 111, then 5 (fewer bytes are lent than the volume has), then 15 (the
// status is off).
#[tactic(auto, unfolding(crate::specs::Service::lent_refusals, common::specs::Refusals::first_refusal))]
pub(crate) fn test_lent(state: &State, volume_len: u64, status: u32) -> Result<(), Refusal>
    ensures { refusal_of result ≡ first_refusal (lent_refusals state.now volume_len status) }
{
    test_lawful(state)?;
    if volume_len < state.length {
        return Err(Refusal::BufferTooSmall);
    }
    if !is_set(state.attributes, status) {
        return Err(Refusal::AccessDenied);
    }
    Ok(())
}
