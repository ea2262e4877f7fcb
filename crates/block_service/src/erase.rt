// Erase lists, and the byte of an erase.
ghost use Rattle.std.specs.Prelude.{not, ◌&&◌, [], ◌∷◌, List, ℕ, ◌≡◌, ◌+◌, ◌*◌, ◌/◌, eqb, leb, length, get_or};
ghost use Rattle.common.specs.Refusal.{refusal_of};
ghost use Rattle.common.specs.Refusals.{first_refusal, row};
ghost use Rattle.block_service.specs.Access.{erased_byte};
ghost use Rattle.block_service.specs.Erase.{good_list, reaches, list_words, judged_list};

use common::Refusal;
use numbers::u64_at;
use volume::attributes::{ERASE_POLARITY, is_set};

// The word that ends an erase list, where a first block would stand.
pub const END_OF_LIST: u64 = 0xFFFFFFFFFFFFFFFF;

// An erase list: pairs of words of 64 bits, which are read where they stand.
pub trait EraseList: Copy {
    ghost words: { Self → List ℕ };

    // The number of whole pairs.
    fn pairs(self) -> usize
        ensures { result ≡ length (words self) / 2 };

    // Pair j: a first block and a count. A word past the end is 0.
    fn pair(self, j: usize) -> (u64, u64)
        ensures { (result.0 ≡ get_or (words self) (2 * j) 0) × (result.1 ≡ get_or (words self) (2 * j + 1) 0) };
}

// A list that comes as words.
#[derive(Clone, Copy)]
pub struct Words<'a>(pub &'a [u64]);

impl<'a> EraseList for Words<'a> {
    ghost words = { λ list. list.0.now };

    fn pairs(self) -> usize {
        self.0.len() / 2
    }

    fn pair(self, j: usize) -> (u64, u64) {
        let words = self.0;
        if j < words.len() / 2 {
            return (words[2 * j], words[2 * j + 1]);
        }
        if j == words.len() / 2 && words.len() % 2 == 1 {
            return (words[2 * j], 0);
        }
        (0, 0)
    }
}

// A list that comes as bytes, eight to a word, the lowest first. A part word at the end is ignored.
#[derive(Clone, Copy)]
pub struct ByteWords<'a>(pub &'a [u8]);

impl<'a> EraseList for ByteWords<'a> {
    ghost words = { λ list. list_words list.0.now };

    fn pairs(self) -> usize {
        self.0.len() / 16
    }

    fn pair(self, j: usize) -> (u64, u64) {
        let bytes = self.0;
        if j < bytes.len() / 16 {
            let pair = &bytes[16 * j..16 * j + 16];
            return (u64_at(pair, 0), u64_at(pair, 8));
        }
        if j == bytes.len() / 16 && 8 <= bytes.len() % 16 {
            return (u64_at(&bytes[16 * j..16 * j + 8], 0), 0);
        }
        (0, 0)
    }
}

// The refusals of an erase list for so many blocks: 2 where it has no terminator or a pair before it does not fit, then 15
// where a pair names a protected block. One pass over the list.
pub(crate) fn list_refusal<L: EraseList>(total: u64, protected: u64, list: L) -> Result<(), Refusal>
    ensures { refusal_of result
        ≡ first_refusal (row (not (good_list total (L.words list))) 2 ∷ row (reaches protected (L.words list)) 15 ∷ []) }
{
    if list_reaches(total, protected, list)? {
        return Err(Refusal::AccessDenied);
    }
    Ok(())
}

// Whether a good list names a protected block. Refused with 2 where the list is bad, whatever it names.
#[tactic(auto, using(crate::proofs::erase::Lists::bad_shown))]
pub(crate) fn list_reaches<L: EraseList>(
    total: u64,
    protected: u64,
    list: L,
) -> Result<bool, Refusal>
    ensures { result ≡ judged_list (good_list total (L.words list)) (reaches protected (L.words list)) }
{
    let pairs = list.pairs();
    let mut reached = false;
    for j in 0..pairs {
        let (first, count) = list.pair(j);
        if first == END_OF_LIST {
            return Ok(reached);
        }
        if !pair_fits(total, first, count) {
            return Err(Refusal::InvalidParameter);
        }
        if protected < first + count {
            reached = true;
        }
    }
    // A last word that has no count beside it may be the terminator.
    let (last, _) = list.pair(pairs);
    if last == END_OF_LIST {
        Ok(reached)
    } else {
        Err(Refusal::InvalidParameter)
    }
}

// Whether a pair of first block and count names blocks, and only such as are there. The sum of the two is never formed, so
// that it cannot wrap.
fn pair_fits(total: u64, first: u64, count: u64) -> bool
    ensures { result ≡ (not (eqb count 0) && leb (first + count) total) }
{
    0 < count && first < total && count <= total - first
}

// The byte whose every bit has the erase value.
#[tactic(auto, unfolding(crate::specs::Access::erased_byte))]
pub(crate) fn erased_byte(attributes: u32) -> u8
    ensures { result ≡ erased_byte attributes }
{
    if is_set(attributes, ERASE_POLARITY) {
        0xFF
    } else {
        0x00
    }
}
