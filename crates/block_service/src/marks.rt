// Which blocks of a volume were named: a bit a block, 64 to a word, for the 65,536 blocks that a volume has at most.
ghost use Rattle.std.specs.Prelude.{not, cond, false, ◌&&◌, ◌||◌, ◌≡◌, ℕ, ◌+◌, ◌-◌, ◌≤◌, ◌<◌, leb, ltb};
ghost use Rattle.block_service.specs.Marks.{marked};

// The marks of a volume's blocks: 8 KiB.
#[derive(Drop)]
pub(crate) struct Marks {
    words: [u64; 1024],
}

impl Marks {
    // No block is marked.
    pub(crate) fn new() -> Marks
        ensures { (x : ℕ) → marked result.words x ≡ false }
    {
        Marks { words: [0; 1024] }
    }

    // The first block from block b on whose mark is not `want`, or block e where there is none before it.
    pub(crate) fn alike_end(&self, b: usize, e: usize, want: bool) -> usize
        requires { (b ≤ e) × (e ≤ 65536) }
        ensures { (b ≤ result) × (result ≤ e) × ((x : ℕ) → b ≤ x → x < result → marked self.now.words x ≡ want) × (result < e → marked self.now.words result ≡ not want) }
    {
        let mut i = b;
        // No `for`: a turn passes over 64 blocks or over 1.
        while i < e {
            let n = self.alike_step(i, e, want);
            if n == 0 {
                return i;
            }
            i += n;
        }
        e
    }

    // Marks the blocks from block b up to block e.
    pub(crate) fn mark(&mut self, b: usize, e: usize)
        requires { (b ≤ e) × (e ≤ 65536) }
        ensures { (x : ℕ) → marked self.new.words x ≡ (leb b x && ltb x e || marked self.old.words x) }
    {
        let mut i = b;
        // No `for`: a turn marks 64 blocks or 1.
        while i < e {
            i += self.mark_step(i, e);
        }
    }

    // How many blocks from block i on, not past block e, one look finds marked, or where `want` is false not marked: 64 that fill a word, 1, or 0.
    fn alike_step(&self, i: usize, e: usize, want: bool) -> usize
        requires { (i < e) × (e ≤ 65536) }
        ensures { (result ≤ e - i) × ((x : ℕ) → i ≤ x → x < i + result → marked self.now.words x ≡ want) × (result ≡ 0 → marked self.now.words i ≡ not want) }
    {
        if i % 64 == 0 && 64 <= e - i && self.words[i / 64] == full_word(want) {
            return 64;
        }
        if self.is_marked(i) == want {
            return 1;
        }
        0
    }

    // Marks blocks from block i on, not past block e, and answers how many: 64 that fill a word, or 1.
    fn mark_step(&mut self, i: usize, e: usize) -> usize
        requires { (i < e) × (e ≤ 65536) }
        ensures { (0 < result) × (result ≤ e - i) × ((x : ℕ) → marked self.new.words x ≡ (leb i x && ltb x (i + result) || marked self.old.words x)) }
    {
        if i % 64 == 0 && 64 <= e - i {
            self.words[i / 64] = u64::MAX;
            return 64;
        }
        self.words[i / 64] |= 1 << (i % 64);
        1
    }

    // Whether block x is marked.
    #[tactic(auto, unfolding(crate::specs::Marks::marked))]
    fn is_marked(&self, x: usize) -> bool
        requires { x < 65536 }
        ensures { result ≡ marked self.now.words x }
    {
        (self.words[x / 64] >> (x % 64)) % 2 == 1
    }
}

// The word of 64 blocks that are all marked, or all not.
fn full_word(want: bool) -> u64
    ensures { result ≡ cond want 0xFFFFFFFFFFFFFFFF 0 }
{
    if want { u64::MAX } else { 0 }
}
