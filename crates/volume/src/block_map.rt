// The rules of a block map's words, 106 and 107, and the number of its blocks, with 111's test of the first protected one.
ghost use Rattle.std.specs.Prelude.{◌≡◌, ◌*◌, ◌/◌, ◌%◌, ◌≤◌, not, ◌||◌, length, ◌==◌, nat_lt};
ghost use Rattle.volume.specs.BlockMap.{has_zero, all_zero, blocks, bytes, header_length, max_entries, max_blocks, max_length, size_fault};

pub const MAX_ENTRIES: usize = 32;

pub const MAX_BLOCKS: u64 = 65536;

pub const MAX_LENGTH: u64 = 16777216;

// The length of a header without its map entries, the closing pair counted, and of a map entry.
pub(crate) const EMPTY_HEADER: usize = 64;

pub(crate) const ENTRY_LENGTH: usize = 8;

// The length of the header of n map entries.
pub(crate) fn header_length(n: usize) -> usize
    requires { n ≤ max_entries }
    ensures { result ≡ header_length n }
{
    EMPTY_HEADER + ENTRY_LENGTH * n
}

// Whether some word is zero. The loop has no way out at the first, so that it compiles to vector code: `iter().any(..)` has one, and
// `filter(..).count()` branches at each word.
pub(crate) fn has_zero(words: &[u32]) -> bool
    ensures { result ≡ has_zero words.now }
{
    let mut found = false;
    for word in words {
        found |= *word == 0;
    }
    found
}

// Whether every word is zero. The words are gathered, for the same reason.
pub(crate) fn all_zero(words: &[u32]) -> bool
    ensures { result ≡ all_zero words.now }
{
    words.iter().fold(0, |gathered, word| gathered | *word) == 0
}

// The number of blocks of a map's words: the sum of the entries' counts.
#[tactic(auto, using(crate::proofs::block_map::Words::blocks_entry, crate::proofs::block_map::Words::blocks_end))]
pub(crate) fn count_blocks(words: &[u32]) -> u64
    requires { length words.now ≤ 2 * max_entries }
    ensures { result ≡ blocks words.now }
{
    let mut count: u64 = 0;
    for i in 0..words.len() / 2 {
        count += u64::from(words[2 * i]);
    }
    count
}

// Whether a map of these words and a volume of `len` bytes break rule 106, by a zero word, or rule 107, or a first protected block is past the number
// of blocks, as rule 111 has it (0 never is): one pass over the entries for all three.
#[tactic(auto, unfolding(crate::specs::BlockMap::size_fault, common::specs::Refusals::any), using(std::proofs::lemmas::Bool::Decides::nat_tests))]
pub(crate) fn map_fault(words: &[u32], len: u64, protected: u64) -> bool
    requires { length words.now % 2 ≡ 0 }
    ensures { result ≡ (has_zero words.now || (size_fault (length words.now / 2) words.now len || nat_lt (blocks words.now) protected)) }
{
    let entries = words.len() / 2;
    entries == 0
        || MAX_ENTRIES < entries
        || MAX_LENGTH < len
        || len < header_length(entries) as u64
        || totals_fault(words, len, protected)
}

// A zero word, too many blocks, counts times lengths that don't total the length, or fewer blocks than the first protected
// one. The totals are true sums: 32 counts and 32 sizes of at most 16,777,216 bytes fit 64 bits.
#[tactic(auto, using(std::proofs::lemmas::Bool::Decides::nat_tests, crate::proofs::block_map::Words::blocks_entry, crate::proofs::block_map::Words::bytes_entry, crate::proofs::block_map::Words::blocks_end, crate::proofs::block_map::Words::bytes_end, crate::proofs::block_map::Words::has_zero_end, crate::proofs::block_map::Words::zero_size, crate::proofs::block_map::Words::nonzero_size, crate::proofs::block_map::Words::product_fits))]
fn totals_fault(words: &[u32], len: u64, protected: u64) -> bool
    requires { (length words.now % 2 ≡ 0) × (length words.now ≤ 2 * max_entries) × (len ≤ max_length) }
    ensures { result ≡ (has_zero words.now || (nat_lt max_blocks (blocks words.now) || (not (bytes words.now == len) || nat_lt (blocks words.now) protected))) }
{
    let mut blocks_so_far: u64 = 0;
    let mut bytes_so_far: u64 = 0;
    for i in 0..words.len() / 2 {
        let count = u64::from(words[2 * i]);
        let size = count * u64::from(words[2 * i + 1]);
        if size == 0 || MAX_LENGTH < size {
            return true;
        }
        blocks_so_far += count;
        bytes_so_far += size;
    }
    MAX_BLOCKS < blocks_so_far || bytes_so_far != len || blocks_so_far < protected
}
