// The rules of setting the settings, by edition: which bits may change, what a lock keeps, and which capability a change needs.
//
// Every public function answers every input and has no `requires`. Edition and settings come as numbers, since a state may hold any (`volume::State`);
// the three calls of one rule each are as docs/API.md names them.
#![tactic(auto)]

ghost use Rattle.std.specs.Prelude.{not, ◌&&◌, ◌≡◌};
ghost use Rattle.common.specs.Refusal.{refusal_of};
ghost use Rattle.common.specs.Refusals.{first_refusal};
ghost use Rattle.volume.specs.Attributes.{flag};
ghost use Rattle.settings.specs.Settings.{breaks_lock, changes_fixed, changes_locked, clears, lacks_capability, raises, setting_refusals, status_bits};

use common::Refusal;
use volume::attributes::{
    LOCK_CAP, LOCK_STATUS, READ_DISABLED_CAP, READ_ENABLED_CAP, READ_LOCK_CAP, READ_LOCK_STATUS,
    READ_STATUS, WRITE_DISABLED_CAP, WRITE_ENABLED_CAP, WRITE_LOCK_CAP, WRITE_LOCK_STATUS,
    WRITE_STATUS, is_set,
};

// The bits that may change in edition 1, the read status, the write status and the lock; in edition 2 the locks of the first two too.
const STATUS_BITS: u32 = 0xA4;

const PI_STATUS_BITS: u32 = 0xA0A4;

// Tests a change of the settings by the three rules below, in their order.
#[tactic(auto, unfolding(crate::specs::Settings::setting_refusals, common::specs::Refusals::first_refusal))]
pub fn test_change(edition: u32, old: u32, new: u32) -> Result<(), Refusal>
    ensures { refusal_of result ≡ first_refusal (setting_refusals edition old new) }
{
    if changes_fixed(edition, old, new) {
        return Err(Refusal::InvalidParameter);
    }
    if changes_locked(edition, old, new) {
        return Err(Refusal::AccessDenied);
    }
    if lacks_capability(edition, old, new) {
        return Err(Refusal::InvalidParameter);
    }
    Ok(())
}

// Whether the new settings change a bit other than the edition's statuses.
#[tactic(auto, unfolding(crate::specs::Settings::changes_fixed), using(crate::proofs::Rules::differ_comm))]
pub fn changes_fixed(edition: u32, old: u32, new: u32) -> bool
    ensures { result ≡ changes_fixed edition old new }
{
    let statuses = status_bits(edition);
    old | statuses != new | statuses
}

// The bits that may change in an edition.
#[tactic(auto, unfolding(crate::specs::Settings::status_bits), using(std::proofs::lemmas::Bool::Decides::nat_tests))]
fn status_bits(edition: u32) -> u32
    ensures { result ≡ status_bits edition }
{
    if edition == 2 {
        PI_STATUS_BITS
    } else {
        STATUS_BITS
    }
}

// Whether the new settings change what a lock keeps: any bit, where the settings are locked; in edition 2 a status that is locked,
// or its lock.
#[tactic(auto, unfolding(crate::specs::Settings::changes_locked, common::specs::Refusals::any), using(std::proofs::lemmas::Bool::Decides::nat_tests))]
pub fn changes_locked(edition: u32, old: u32, new: u32) -> bool
    ensures { result ≡ changes_locked edition old new }
{
    let change = Change { old, new };
    is_set(old, LOCK_STATUS) && old != new
        || edition == 2
            && (change.breaks_lock(READ_LOCK_STATUS, READ_STATUS)
                || change.breaks_lock(WRITE_LOCK_STATUS, WRITE_STATUS))
}

// Whether the new settings change a status without the capability for it.
#[tactic(auto, unfolding(crate::specs::Settings::lacks_capability, common::specs::Refusals::any), using(std::proofs::lemmas::Bool::Decides::nat_tests))]
pub fn lacks_capability(edition: u32, old: u32, new: u32) -> bool
    ensures { result ≡ lacks_capability edition old new }
{
    let change = Change { old, new };
    change.raises_without(READ_STATUS, READ_ENABLED_CAP)
        || change.clears_without(READ_STATUS, READ_DISABLED_CAP)
        || change.raises_without(WRITE_STATUS, WRITE_ENABLED_CAP)
        || change.clears_without(WRITE_STATUS, WRITE_DISABLED_CAP)
        || change.raises_without(LOCK_STATUS, LOCK_CAP)
        || edition == 2
            && (change.raises_without(READ_LOCK_STATUS, READ_LOCK_CAP)
                || change.raises_without(WRITE_LOCK_STATUS, WRITE_LOCK_CAP))
}

// A change of the settings: what they are, and what they are to be.
#[derive(Clone, Copy)]
struct Change {
    old: u32,
    new: u32,
}

impl Change {
    // Whether the change sets a bit.
    #[tactic(auto, unfolding(crate::specs::Settings::raises))]
    fn raises(self, bit: u32) -> bool
        ensures { result ≡ raises self.old self.new bit }
    {
        !is_set(self.old, bit) && is_set(self.new, bit)
    }

    // Whether it clears the bit.
    #[tactic(auto, unfolding(crate::specs::Settings::clears))]
    fn clears(self, bit: u32) -> bool
        ensures { result ≡ clears self.old self.new bit }
    {
        is_set(self.old, bit) && !is_set(self.new, bit)
    }

    // Whether it sets a status without the capability to.
    fn raises_without(self, status: u32, capability: u32) -> bool
        ensures { result ≡ (raises self.old self.new status && not (flag self.old capability)) }
    {
        self.raises(status) && !is_set(self.old, capability)
    }

    // Whether it clears a status without the capability to.
    fn clears_without(self, status: u32, capability: u32) -> bool
        ensures { result ≡ (clears self.old self.new status && not (flag self.old capability)) }
    {
        self.clears(status) && !is_set(self.old, capability)
    }

    // Whether a status's lock is set, and the change lowers it or changes the status.
    #[tactic(auto, unfolding(crate::specs::Settings::breaks_lock))]
    fn breaks_lock(self, lock: u32, status: u32) -> bool
        ensures { result ≡ breaks_lock self.old self.new lock status }
    {
        is_set(self.old, lock)
            && (!is_set(self.new, lock) || self.raises(status) || self.clears(status))
    }
}
