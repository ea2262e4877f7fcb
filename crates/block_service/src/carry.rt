// Carrying a job of an erase list on: of the bytes of the blocks that the list names, in the order that the list first names them, those
// of one portion are stored.
ghost use Rattle.std.specs.Prelude.{true, false, ◌≡◌, ℕ, ◌+◌, ◌-◌, ◌*◌, ◌≤◌, ◌<◌, length, get_or, drop};
ghost use Rattle.volume.specs.BlockMap.{blocks, bytes, max_length, max_blocks};
ghost use Rattle.block_service.specs.Erase.{good_list};
ghost use Rattle.block_service.specs.Blocks.{first_byte};
ghost use Rattle.block_service.specs.Carry.{filled, Carried, names_first, Rest, FrontDone};
ghost use Rattle.block_service.specs.Order.{up_from, firsts, named_blocks, bytes_of, erase_order, part};
ghost use Rattle.block_service.specs.Marks.{marked};

use crate::blocks::{find_place, run_end};
use crate::erase::{END_OF_LIST, EraseList};
use crate::marks::Marks;
use std::ops::Range;

// What is stored: the value, in the bytes numbered from `from` on and below `to` in the order.
#[derive(Clone, Copy)]
pub(crate) struct Portion {
    pub value: u8,
    pub from: usize,
    pub to: usize,
}

impl Portion {
    // Of the bytes of a run, which have the numbers from `at` on in the order, stores those of the portion: one fill.
    fn store(self, volume: &mut [u8], run: Range<usize>, at: usize)
        requires { (run.start ≤ run.end) × (run.end ≤ length volume.old) }
        ensures { volume.new ≡ filled self.value (part (self.from - at) (self.to - at) (up_from run.start (run.end - run.start))) volume.old }
    {
        let skip = self.from.saturating_sub(at);
        let stop = self.to.saturating_sub(at).min(run.end - run.start);
        if skip < stop {
            let start = run.start + skip;
            let end = run.start + stop;
            volume[start..end].fill(self.value);
        }
    }
}

// Stores the portion's bytes of the order of a good list, and answers how many bytes the order has; of a portion from 0 to 0 it stores
// nothing and counts, which is one walk more and no other. One pass over the list, with a map scan for each run of blocks not named before; where a pair starts before the
// end of an earlier one, a second pass over the pairs before it, and the marks of `Walk::rest`.
pub(crate) fn carry_list<L: EraseList>(
    words: &[u32],
    volume: &mut [u8],
    list: L,
    portion: Portion,
) -> usize
    requires words_bound { (bytes words.now ≤ max_length) × (blocks words.now ≤ max_blocks) }
    requires words_in_bounds { bytes words.now ≤ length volume.old }
    requires list_value { good_list (blocks words.now) (L.words list) ≡ true }
    ensures { (result ≡ length (erase_order words.now (L.words list)))
        × (volume.new ≡ filled portion.value (part portion.from portion.to (erase_order words.now (L.words list))) volume.old) }
{
    let mut walk = Walk {
        words,
        volume,
        portion,
        at: 0,
    };
    let pairs = walk.front(list);
    let (first, _) = list.pair(pairs);
    if first == END_OF_LIST {
        return walk.at;
    }
    walk.rest(list, pairs);
    walk.at
}

// The bytes of `count` blocks from the first on, in a volume of which so many bytes are lent: one map scan.
fn run_bytes(words: &[u32], lent: usize, first: usize, count: usize) -> Range<usize>
    requires words_bound { bytes words.now ≤ max_length }
    requires words_in_bounds { bytes words.now ≤ lent }
    requires count_nonzero { (0 < count) × (first + count ≤ blocks words.now) }
    ensures { (result.start ≡ first_byte words.now first) × (result.end ≡ first_byte words.now (first + count)) }
{
    let Ok(place) = find_place(words, lent, first as u64) else {
        return 0..0;
    };
    place.start..run_end(words, &place, count)
}

// Marks the blocks that the list's first `pairs` pairs name.
fn mark_front<L: EraseList>(marks: &mut Marks, list: L, pairs: usize)
    requires marks_none { (x : ℕ) → marked marks.old.words x ≡ false }
    requires pairs_in_bounds { (2 * pairs ≤ length (L.words list)) × ((j : ℕ) → j < pairs → get_or (L.words list) (2 * j) 0 + get_or (L.words list) (2 * j + 1) 0 ≤ 65536) }
    ensures { (x : ℕ) → marked marks.new.words x ≡ names_first pairs (L.words list) x }
{
    for j in 0..pairs {
        let (first, count) = list.pair(j);
        marks.mark(first as usize, (first + count) as usize);
    }
}

// A walk over the blocks of a map that a list names: it stores the portion's bytes of them in the volume, and `at` is the number of the
// next byte in the order. Each method says that the words, the portion and the volume are the old ones: what a struct that holds a lent slice
// must say of it, and no invariant, which speaks of one moment.
#[derive(Drop)]
struct Walk<'a> {
    words: &'a [u32],
    volume: &'a mut [u8],
    portion: Portion,
    at: usize,
    ghost words_bound: { (bytes words.now ≤ max_length) × (blocks words.now ≤ max_blocks) },
    ghost words_in_bounds: { bytes words.now ≤ length volume.now },
}

impl<'a> Walk<'a> {
    // Walks over a good list's first pairs, up to the terminator or to a pair that starts before the end of an earlier one, and answers
    // how many: these name no block twice, and no marks are needed.
    fn front<L: EraseList>(&mut self, list: L) -> usize
        requires at_start { self.old.at ≡ 0 }
        requires list_value { good_list (blocks self.old.words.now) (L.words list) ≡ true }
        ensures same_reference { self.new.volume.ghost_name ≡ self.old.volume.ghost_name }
        ensures same_words { self.new.words ≡ self.old.words }
        ensures same_portion { self.new.portion ≡ self.old.portion }
        ensures walked { let w = self.old in
            FrontDone w.words.now w.portion.value w.portion.from w.portion.to (L.words list) w.volume.now self.new.at result self.new.volume.now }
    {
        let n = list.pairs();
        let mut high = 0;
        for j in 0..n {
            let (first, count) = list.pair(j);
            if first == END_OF_LIST || first < high {
                return j;
            }
            self.run(first as usize, count as usize);
            high = first + count;
        }
        n
    }

    // Walks over the rest of a list, from its pair number `pairs` on, with a mark for each block that was named: 8 KiB, which a list that
    // goes upward does not use.
    fn rest<L: EraseList>(&mut self, list: L, pairs: usize)
        requires pairs_in_bounds { (2 * pairs ≤ length (L.words list)) × (good_list (blocks self.old.words.now) (drop (2 * pairs) (L.words list)) ≡ true) }
        requires by_index { (j : ℕ) → j < pairs → get_or (L.words list) (2 * j) 0 + get_or (L.words list) (2 * j + 1) 0 ≤ 65536 }
        requires tail_bound { self.old.at + length (bytes_of self.old.words.now (firsts (names_first pairs (L.words list)) (named_blocks (drop (2 * pairs) (L.words list))))) ≤ max_length }
        ensures same_reference { self.new.volume.ghost_name ≡ self.old.volume.ghost_name }
        ensures walked { let w = self.old in
            Rest w.words.now w.portion.value w.portion.from w.portion.to w.at (names_first pairs (L.words list)) (L.words list) (2 * pairs) w.volume.now self.new.at self.new.volume.now }
    {
        let mut marks = Marks::new();
        mark_front(&mut marks, list, pairs);
        self.pairs(&mut marks, list, pairs);
    }

    // Walks over a list's pairs from pair number `pairs` on, with the blocks marked that those before it name.
    fn pairs<L: EraseList>(&mut self, marks: &mut Marks, list: L, pairs: usize)
        requires pairs_in_bounds { (2 * pairs ≤ length (L.words list)) × (good_list (blocks self.old.words.now) (drop (2 * pairs) (L.words list)) ≡ true) }
        requires tail_bound { self.old.at + length (bytes_of self.old.words.now (firsts (marked marks.old.words) (named_blocks (drop (2 * pairs) (L.words list))))) ≤ max_length }
        ensures same_reference { self.new.volume.ghost_name ≡ self.old.volume.ghost_name }
        ensures walked { let w = self.old in
            Rest w.words.now w.portion.value w.portion.from w.portion.to w.at (marked marks.old.words) (L.words list) (2 * pairs) w.volume.now self.new.at self.new.volume.now }
    {
        for j in pairs..list.pairs() {
            let (first, count) = list.pair(j);
            if first == END_OF_LIST {
                return;
            }
            self.pair(marks, first as usize, count as usize);
        }
    }

    // Walks over a pair's blocks.
    fn pair(&mut self, marks: &mut Marks, first: usize, count: usize)
        requires count_bound { (first + count ≤ blocks self.old.words.now) × (self.old.at ≤ max_length) }
        ensures same_reference { self.new.volume.ghost_name ≡ self.old.volume.ghost_name }
        ensures same_words { self.new.words ≡ self.old.words }
        ensures same_portion { self.new.portion ≡ self.old.portion }
        ensures walked { let w = self.old in
            Carried w.words.now w.portion.value w.portion.from w.portion.to w.at (marked marks.old.words) (up_from first count) w.volume.now self.new.at self.new.volume.now (marked marks.new.words) }
    {
        let e = first + count;
        let mut b = first;
        // No `for`: a turn walks over a run of blocks.
        while b < e {
            b = self.step(marks, b, e);
        }
    }

    // Walks over one or more blocks from block b on, not past block e, and answers the next block: a run that was not named before is
    // stored and marked, a run that was is passed over.
    fn step(&mut self, marks: &mut Marks, b: usize, e: usize) -> usize
        requires b_lt_e { (b < e) × (e ≤ blocks self.old.words.now) × (self.old.at ≤ 2 * max_length) }
        ensures same_reference { self.new.volume.ghost_name ≡ self.old.volume.ghost_name }
        ensures same_words { self.new.words ≡ self.old.words }
        ensures same_portion { self.new.portion ≡ self.old.portion }
        ensures next { (b < result) × (result ≤ e) }
        ensures walked { let w = self.old in
            Carried w.words.now w.portion.value w.portion.from w.portion.to w.at (marked marks.old.words) (up_from b (result - b)) w.volume.now self.new.at self.new.volume.now (marked marks.new.words) }
    {
        let t = marks.alike_end(b, e, false);
        if b < t {
            self.run(b, t - b);
            marks.mark(b, t);
            return t;
        }
        marks.alike_end(b, e, true)
    }

    // Walks over a run of blocks that were not named before.
    fn run(&mut self, first: usize, count: usize)
        requires count_nonzero { (0 < count) × (first + count ≤ blocks self.old.words.now) }
        requires at_bound { self.old.at ≤ 2 * max_length }
        ensures same_reference { self.new.volume.ghost_name ≡ self.old.volume.ghost_name }
        ensures same_words { self.new.words ≡ self.old.words }
        ensures same_portion { self.new.portion ≡ self.old.portion }
        ensures told { self.new.at ≡ self.old.at + length (bytes_of self.old.words.now (up_from first count)) }
        ensures stored { let w = self.old in
            self.new.volume.now ≡ filled w.portion.value (part (w.portion.from - w.at) (w.portion.to - w.at) (bytes_of w.words.now (up_from first count))) w.volume.now }
    {
        let run = run_bytes(self.words, self.volume.len(), first, count);
        let len = run.end - run.start;
        self.portion.store(self.volume, run, self.at);
        self.at += len;
    }
}
