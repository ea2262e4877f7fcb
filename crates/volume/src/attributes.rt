// Volume attributes: the bits by 000's names, those of the second edition by the Platform Initialization specification's, and document 01's rules 108
// and 110. An edition is a header's revision: 1, or 2.
ghost use Rattle.std.specs.Prelude.{◌≡◌, not};
ghost use Rattle.volume.specs.Attributes.{attributes_fault, base_fault, flag, known_edition};

pub const READ_DISABLED_CAP: u32 = 0x1;

pub const READ_ENABLED_CAP: u32 = 0x2;

pub const READ_STATUS: u32 = 0x4;

pub const WRITE_DISABLED_CAP: u32 = 0x8;

pub const WRITE_ENABLED_CAP: u32 = 0x10;

pub const WRITE_STATUS: u32 = 0x20;

pub const LOCK_CAP: u32 = 0x40;

pub const LOCK_STATUS: u32 = 0x80;

pub const STICKY_WRITE: u32 = 0x200;

pub const MEMORY_MAPPED: u32 = 0x400;

pub const ERASE_POLARITY: u32 = 0x800;

// Edition 1.
pub const ALIGNMENT_CAP: u32 = 0x8000;

// Edition 2.
pub const READ_LOCK_CAP: u32 = 0x1000;

pub const READ_LOCK_STATUS: u32 = 0x2000;

pub const WRITE_LOCK_CAP: u32 = 0x4000;

pub const WRITE_LOCK_STATUS: u32 = 0x8000;

// The bits that must be zero in edition 2.
const RESERVED_BITS: u32 = 0x7FE0_0100;

// The lowest of edition 1's alignments, 2; the others, to 64K, are the bits above it.
const ALIGNMENT_2: u32 = 0x10000;

// Whether the attribute of this value, a power of two, is set.
pub fn is_set(attributes: u32, bit: u32) -> bool
    ensures { result ≡ flag attributes bit }
{
    bit != 0 && attributes / bit % 2 == 1
}

// Whether a header's revision is none of the editions. A state may hold any number as its edition (111), so that it is no enum here.
#[tactic(auto, unfolding(crate::specs::Attributes::known_edition), using(std::proofs::lemmas::Bool::Decides::nat_tests))]
pub(crate) fn edition_fault(edition: u32) -> bool
    ensures { result ≡ not (known_edition edition) }
{
    edition != 1 && edition != 2
}

// Whether attributes break an edition's rule 108: in edition 1 a bit that must be zero is set, or an alignment without
// the alignment capability; in edition 2 a reserved bit is set.
#[tactic(auto, unfolding(crate::specs::Attributes::attributes_fault, common::specs::Refusals::any), using(std::proofs::lemmas::Bool::Decides::nat_tests))]
pub(crate) fn attributes_fault(edition: u32, a: u32) -> bool
    ensures { result ≡ attributes_fault edition a }
{
    if edition == 2 {
        return a & RESERVED_BITS != 0;
    }
    is_set(a, 0x100)
        || is_set(a, 0x1000)
        || is_set(a, 0x2000)
        || is_set(a, 0x4000)
        || !is_set(a, ALIGNMENT_CAP) && a / ALIGNMENT_2 != 0
}

// Whether attributes and base break rule 110: memory mapped, and the base no multiple of 8.
#[tactic(auto, unfolding(crate::specs::Attributes::base_fault), using(std::proofs::lemmas::Bool::Decides::nat_tests))]
pub(crate) fn base_fault(a: u32, base: u64) -> bool
    ensures { result ≡ base_fault a base }
{
    is_set(a, MEMORY_MAPPED) && base % 8 != 0
}
