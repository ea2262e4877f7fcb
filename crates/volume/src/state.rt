// The state that opening answers and that every later call follows.
ghost use Rattle.std.specs.Prelude.{◌≡◌};

use crate::attributes::{attributes_fault, base_fault, edition_fault};
use crate::block_map::{MAX_ENTRIES, all_zero, count_blocks, map_fault};

// What a volume's header said when it was opened, and where the volume is mapped. The attributes
// are what document 01 calls the settings. The edition is the header's revision, 1 or 2. The block map is the first `entries` pairs of `map`, each a
// block count and a block length; the rest of `map` is zero. Blocks from `protected` on are neither written nor erased; where none is protected it is
// the number of blocks, as opening leaves it (document 02's mark). Any values may be given, since the calls test the state (111): so the edition is a
// number, and the map stays 64 words, as the definitions and the packed state have it.
#[derive(Clone, Copy, Debug, PartialEq, Eq)]
pub struct State {
    pub guid: [u8; 16],
    pub length: u64,
    pub attributes: u32,
    pub edition: u32,
    pub base: u64,
    pub protected: u64,
    pub entries: usize,
    pub map: [u32; 64],
}

impl State {
    ghost use Rattle.volume.specs.BlockMap.{blocks};
    ghost use Rattle.volume.specs.State.{map_of, unlawful};

    // The words of the map's entries. The map has room for MAX_ENTRIES entries; of a larger number these are all its words.
    pub fn map_words(&self) -> &[u32]
        ensures { result.now ≡ map_of self.now }
    {
        &self.map[..2 * self.entries.min(MAX_ENTRIES)]
    }

    // The number of blocks: the sum of the map entries' counts.
    pub fn block_count(&self) -> u64
        ensures { result ≡ blocks (map_of self.now) }
    {
        count_blocks(self.map_words())
    }

    // Whether the state breaks rule 111: an edition that is neither 1 nor 2, or 106, 107, 108 or 110, or a nonzero word beyond its entries, or a first
    // protected block past the number of blocks.
    #[tactic(auto, unfolding(crate::specs::State::unlawful, common::specs::Refusals::any), using(std::proofs::lemmas::Bool::Decides::nat_tests, crate::proofs::state::Lawful::words_long, crate::proofs::state::Lawful::words_tested, crate::proofs::block_map::Words::too_many_entries, crate::proofs::state::Lawful::rest_whole))]
    pub fn is_unlawful(&self) -> bool
        ensures { result ≡ unlawful self.now }
    {
        edition_fault(self.edition)
            || MAX_ENTRIES < self.entries
            || map_fault(self.map_words(), self.length, self.protected)
            || attributes_fault(self.edition, self.attributes)
            || base_fault(self.attributes, self.base)
            || !all_zero(&self.map[2 * self.entries..])
    }
}
