// The sections that a receiver met.
ghost use Rattle.std.specs.Prelude.{◌≡◌};
ghost use Rattle.receiver.specs.Tally.{tally_of, visited};

use sections::search::Part;

// How many sections were met; how many of the type wanted are still to be passed; and, once it is met,
// the part of the one wanted.
#[derive(Clone, Copy, Debug, PartialEq, Eq)]
pub struct Tally {
    pub count: u64,
    pub before: u64,
    pub part: Option<Part>,
}

impl Tally {
    // At a section of a type that shows `part`.
    #[tactic(auto, unfolding(crate::specs::Tally::visited))]
    pub(crate) fn visit(&mut self, want: u8, section_type: u8, part: Part)
        ensures { tally_of self.new ≡ visited (tally_of self.old) want section_type part.first part.end }
    {
        self.count = self.count.wrapping_add(1);
        if section_type == want && self.part.is_none() {
            if self.before == 0 {
                self.part = Some(part);
            } else {
                self.before -= 1;
            }
        }
    }
}
