// The walk through a section stream and the holders in it.
ghost use Rattle.std.specs.Prelude.{◌≡◌, ◌+◌, ◌-◌, ◌≤◌, ◌<◌, ◌^◌, true, false, length, MatchResult};
ghost use Rattle.common.specs.declared.refusal.Refusal.TheVariants.{NonzeroPadding};
ghost use Rattle.sections.specs.Walk.{aligned as aligned_of, walk, zeros};
ghost use Rattle.sections.specs.Seek.{run, carried, walked};
ghost use Rattle.sections.specs.declared.walk.Walk.TheVariants.{Ended};

use crate::header::{Mode, Section, read_section};
use crate::search::Part;
use common::refusal::Refusal;

// Sections start on multiples of this, counted from the start of the stream that holds them.
const ALIGNMENT: usize = 4;

// How a walk came to its end without a fault: at the end of its stream, or at the section wanted.
#[derive(Clone, Copy, Debug, PartialEq, Eq)]
pub(crate) enum Walk {
    Ended,
    Stopped,
}

// The section that a walk looks for: one of a type that has `left` sections of that type before it, and
// whether the walk stops there: one word, asked at that section alone. A closure in its place would hold `left` and `found` through the
// recursion, and its contract would be that of `visit`. `found` is its part, once it is met.
#[derive(Clone, Copy, Debug, PartialEq, Eq)]
pub(crate) struct Wanted {
    pub(crate) section_type: u8,
    pub(crate) left: u64,
    pub(crate) stops: bool,
    pub(crate) found: Option<Part>,
}

impl Wanted {
    ghost use Rattle.sections.specs.declared.walk.Walk.TheVariants.{Ended};
    ghost use Rattle.sections.specs.Seek.{visited, carried};

    // At a section of a stream that starts at byte `base` of the outer one: whether the walk stops there.
    #[tactic(auto, unfolding(crate::specs::Seek::visited), using(crate::proofs::walk::Carried::visit_other, crate::proofs::walk::Carried::visit_after))]
    fn visit(&mut self, section: &Section, base: usize) -> Walk
        requires { (base + section.now.first < 2 ^ 64) × (base + section.now.end < 2 ^ 64) }
        ensures same { self.new.section_type ≡ self.old.section_type }
        ensures visited { carried result self.new
            ≡ visited self.old.section_type (carried Ended self.old) section.now.section_type (base + section.now.first) (base + section.now.end) }
    {
        if section.section_type != self.section_type || self.found.is_some() {
            return Walk::Ended;
        }
        if self.left > 0 {
            self.left -= 1;
            return Walk::Ended;
        }
        self.found = Some(Part {
            first: base + section.first,
            end: base + section.end,
        });
        if self.stops {
            Walk::Stopped
        } else {
            Walk::Ended
        }
    }
}

// Walks a stream that starts at byte `base` of the outer one, with `below` levels left below it, up to its
// end, or up to the section wanted where it stops there, or up to its first fault, which is answered. What
// it carries along is lent to it (docs/DECISIONS.md, 69 and 73). One pass: each section is read once, and the
// calls are as deep as the levels.
pub(crate) fn walk_stream(
    mode: Mode,
    s: &[u8],
    base: usize,
    below: u64,
    wanted: &mut Wanted,
) -> Result<Walk, Refusal>
    requires { base + length s.now < 2 ^ 63 }
    ensures same { wanted.new.section_type ≡ wanted.old.section_type }
    ensures walked { walked result wanted.new ≡ run wanted.old.section_type (carried Ended wanted.old) (walk mode below s.now base) }
{
    let mut at = 0;
    // Each turn goes on to the start after the section that it read.
    while at < s.len() {
        let section = read_section(mode, s, at)?;
        match section.contents {
            None => {
                if let Walk::Stopped = wanted.visit(&section, base) {
                    return Ok(Walk::Stopped);
                }
            }
            Some(from) => {
                if below == 0 {
                    return Err(Refusal::TooDeep);
                }
                // A holder before its children.
                if let Walk::Stopped = wanted.visit(&section, base) {
                    return Ok(Walk::Stopped);
                }
                let contents = &s[from..section.end];
                if let Walk::Stopped = walk_stream(
                    mode,
                    contents,
                    base + from,
                    below - 1,
                    wanted,
                )? {
                    return Ok(Walk::Stopped);
                }
                // Where it ends the stream, no padding follows.
                if s.len() == section.end {
                    return Ok(Walk::Ended);
                }
            }
        }
        at = next_start(s, section.end)?;
    }
    Ok(Walk::Ended)
}

// The start after a section that ends at byte `end`, or 207 where a byte of its padding is not zero. Padding
// cut off by the stream's end is fine.
fn next_start(s: &[u8], end: usize) -> Result<usize, Refusal>
    requires { (end ≤ length s.now) × (length s.now < 2 ^ 63) }
    ensures { MatchResult result
        (λ next. (next ≡ aligned_of end) × (zeros s.now end (next - end) ≡ true))
        (λ refusal. (refusal ≡ NonzeroPadding) × (zeros s.now end (aligned_of end - end) ≡ false)) }
{
    let next = aligned(end);
    if s[end..].iter().take(next - end).all(|&byte| byte == 0) {
        Ok(next)
    } else {
        Err(Refusal::NonzeroPadding)
    }
}

// The first multiple of 4 from n on.
pub(crate) fn aligned(n: usize) -> usize
    requires { n < 2 ^ 63 }
    ensures { result ≡ aligned_of n }
{
    n.next_multiple_of(ALIGNMENT)
}
