// Where in the file a receiver is, and what comes next there.
ghost use Rattle.std.specs.Prelude.{◌≡◌, ◌<◌, ◌≤◌};
ghost use Rattle.receiver.specs.Place.{entered, onwards, padding, place_of};
ghost use Rattle.receiver.specs.Receiver.{padding_step};
ghost use Rattle.receiver.specs.Steps.{body_place, body_used};

use common::Refusal;

// The bytes that a section has at the least.
const COMMON_HEADER: usize = 4;

// The levels of a walk, the outer stream the first.
pub const LEVELS: usize = 8;

// What comes next: the rest of a section's header, of which so many bytes are there; so many bytes up to
// a section's contents or, where they are not searched, its end; so many bytes of padding; nothing; more
// bytes than were announced came; or a fault was found, and what comes does not matter. The fault is a
// number and no `Refusal`: a caller may make a receiver with any, and the finish answers it.
#[derive(Clone, Copy, Debug, PartialEq, Eq)]
pub enum Phase {
    Header(usize),
    Body(usize),
    Padding(usize),
    Complete,
    Exceeded,
    Refused(u16),
}

// What follows a section in the stream that holds it: padding, and the bytes behind that.
#[derive(Clone, Copy, Debug, PartialEq, Eq)]
pub struct Level {
    pub left: usize,
    pub pad: usize,
}

// `at` is a byte of the file and `left` the bytes from there to the end of the stream that it is in: the
// first byte of the section whose header comes next; in a body, of its contents, a stream that is empty
// where they are not searched; in padding, of what follows it. `levels` has what follows each of the
// `depth` sections that are entered: an array with a depth, since the project uses no heap. That the depth is at most 8 is asked below and
// is no invariant: the fields are public, and a receiver of any depth is answered (`is_sound`).
#[derive(Clone, Copy, Debug, PartialEq, Eq)]
pub struct Place {
    pub phase: Phase,
    pub at: usize,
    pub left: usize,
    pub depth: usize,
    pub levels: [Level; LEVELS],
}

impl Place {
    // Once every byte before byte `at` came: at the end of a stream what follows the section that it is
    // in, and so on outwards; else a section, or 201.
    #[tactic(auto, unfolding(crate::specs::Place::arrived, crate::specs::Place::started))]
    #[inline(always)]
    pub(crate) fn arrive(&mut self)
        requires { self.old.depth ≤ 8 }
        ensures { place_of self.new ≡ onwards (place_of self.old) }
    {
        // Each turn goes out of a section that ends here.
        while self.left == 0 {
            if self.depth == 0 {
                self.phase = Phase::Complete;
                return;
            }
            self.depth -= 1;
            let outer = self.levels[self.depth];
            self.left = outer.left;
            if outer.pad != 0 {
                self.at = self.at.wrapping_add(outer.pad);
                self.phase = Phase::Padding(outer.pad);
                return;
            }
        }
        self.phase = if self.left < COMMON_HEADER {
            Phase::Refused(Refusal::SectionCut.number())
        } else {
            Phase::Header(0)
        };
    }

    // Enters the section at byte `at`, of `size` bytes, of which `have` came: its contents, from its byte
    // `from` on, are a stream of their own, which is empty where they are not searched.
    #[tactic(auto, unfolding(crate::specs::Place::entered))]
    #[inline(always)]
    pub(crate) fn enter(&mut self, size: usize, from: usize, have: usize)
        requires { self.old.depth < 8 }
        ensures { place_of self.new ≡ entered (place_of self.old) size from have }
    {
        let behind = self.left.saturating_sub(size);
        let pad = padding(size, behind);
        self.levels[self.depth] = Level {
            left: behind - pad,
            pad,
        };
        self.depth += 1;
        self.at = self.at.wrapping_add(from);
        self.left = size.saturating_sub(from);
        if from <= have {
            self.arrive();
        } else {
            self.phase = Phase::Body(from - have);
        }
    }

    // In a body of which n bytes are to come, with `there` bytes of the portion left: how many of them it
    // takes.
    #[tactic(auto, unfolding(crate::specs::Steps::body_place, crate::specs::Steps::body_used))]
    #[inline(always)]
    pub(crate) fn pass_body(&mut self, n: usize, there: usize) -> usize
        requires { self.old.depth ≤ 8 }
        ensures place { place_of self.new ≡ body_place (place_of self.old) n there }
        ensures used { result ≡ body_used n there }
    {
        if there < n {
            self.phase = Phase::Body(n - there);
            return there;
        }
        self.arrive();
        n.max(1)
    }

    // One byte more of padding of which n bytes are to come.
    #[tactic(auto, unfolding(crate::specs::Receiver::padding_step, crate::specs::Receiver::passed))]
    #[inline(always)]
    pub(crate) fn pass_padding(&mut self, n: usize, byte: u8)
        requires { self.old.depth ≤ 8 }
        ensures { place_of self.new ≡ padding_step (place_of self.old) n byte }
    {
        if byte != 0 {
            self.phase = Phase::Refused(Refusal::NonzeroPadding.number());
        } else if n <= 1 {
            self.arrive();
        } else {
            self.phase = Phase::Padding(n - 1);
        }
    }
}

// The padding after a section of `size` bytes, of which the stream that holds it has `behind` more.
#[tactic(auto, unfolding(crate::specs::Place::padding))]
fn padding(size: usize, behind: usize) -> usize
    ensures value { result ≡ padding size behind }
    ensures within { result ≤ behind }
{
    behind.min((4 - size % 4) % 4)
}
