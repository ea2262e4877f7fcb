// Where a volume's blocks lie.
ghost use Rattle.std.specs.Prelude.{◌≡◌, ◌+◌, ◌*◌, ◌≤◌, ◌<◌, ◌∷◌, length, drop, IfOk};
ghost use Rattle.common.specs.Refusal.{refusal_of};
ghost use Rattle.common.specs.Refusals.{first_refusal};
ghost use Rattle.volume.specs.BlockMap.{blocks, max_length, max_blocks};
ghost use Rattle.block_service.specs.Blocks.{place, place_of, place_refusals, equal_blocks, first_byte};

use common::Refusal;

// The place of a block: its map entry, the byte of the volume at which it starts, its length, and the
// number of blocks from it to the end of its entry, itself included.
#[derive(Clone, Copy, Debug, PartialEq, Eq)]
pub struct BlockPlace {
    pub entry: usize,
    pub start: usize,
    pub len: usize,
    pub left: usize,
}

// The place of a block in a map of a volume of which so many bytes are lent: the first entry that holds it settles it. Refused with 5
// where the entries up to the block's, or all where none holds it, have more bytes than are lent, and with 2 where none holds it. No
// sum passes the lent bytes.
#[tactic(auto, using(crate::proofs::blocks::Runs::search_turns), unfolding(crate::specs::Blocks::place, common::specs::Refusals::first_refusal))]
pub(crate) fn find_place(words: &[u32], lent: usize, block: u64) -> Result<BlockPlace, Refusal>
    ensures refused { refusal_of result ≡ first_refusal (place_refusals words.now block lent) }
    ensures found { IfOk result (λ found. place_of found ≡ place words.now block) }
    ensures within { IfOk result (λ found. found.start + found.len ≤ lent) }
{
    // The lent bytes past those of the entries before the one at hand.
    let mut room = lent;
    let mut rest = block as usize;
    // Document 01 names this form: the scan leaves from inside by break, with the entry and the block's start.
    // The block is asked before the bytes of its entry, which both ways test: that saves a move at each entry.
    'scan: {
        for entry in 0..words.len() / 2 {
            let count = words[2 * entry] as usize;
            let len = words[2 * entry + 1] as usize;
            if rest < count {
                if room < count * len {
                    break 'scan Err(Refusal::BufferTooSmall);
                }
                break 'scan Ok(BlockPlace {
                    entry,
                    start: lent - room + rest * len,
                    len,
                    left: count - rest,
                });
            }
            let size = count * len;
            if room < size {
                break 'scan Err(Refusal::BufferTooSmall);
            }
            room -= size;
            rest -= count;
        }
        Err(Refusal::InvalidParameter)
    }
}

// The number of blocks of a place's length with which the entries after its own begin: those of the entries before the first
// of another length. The bound of the words is asked here and by what calls this: words are lent as a slice, which holds no invariant.
#[tactic(auto, using(crate::proofs::blocks::Runs::equal_turns))]
pub(crate) fn equal_blocks(words: &[u32], place: &BlockPlace) -> usize
    requires in_bounds { 2 * place.now.entry + 1 < length words.now }
    requires words_bound { blocks words.now ≤ max_blocks }
    ensures { result ≡ equal_blocks (drop (2 * (place.now.entry + 1)) words.now) place.now.len }
{
    let mut count = 0;
    for i in place.entry + 1..words.len() / 2 {
        if words[2 * i + 1] as usize != place.len {
            break;
        }
        count += words[2 * i] as usize;
    }
    count
}

// The end of a run of blocks of which the first has a place: the run goes on through the entries after the place's own.
#[tactic(auto, using(crate::proofs::blocks::Runs::end_turns))]
pub(crate) fn run_end(words: &[u32], place: &BlockPlace, count: usize) -> usize
    requires in_bounds { 2 * place.now.entry + 1 < length words.now }
    requires count_bound { place.now.start + first_byte (place.now.left ∷ place.now.len ∷ drop (2 * (place.now.entry + 1)) words.now) count ≤ max_length }
    ensures { result ≡ place.now.start + first_byte (place.now.left ∷ place.now.len ∷ drop (2 * (place.now.entry + 1)) words.now) count }
{
    if count <= place.left {
        return place.start + count * place.len;
    }
    let mut end = place.start + place.left * place.len;
    let mut rest = count - place.left;
    // Counted by the entry before the next: so a search that ends in the place keeps no second number for this loop.
    for before in place.entry..words.len() / 2 - 1 {
        let next = before + 1;
        let n = rest.min(words[2 * next] as usize);
        end += n * words[2 * next + 1] as usize;
        rest -= n;
        if rest == 0 {
            break;
        }
    }
    end
}
