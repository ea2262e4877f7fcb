// The calls of a receiver: the announcement, a portion, the finish, and the fault found so far.
ghost use Rattle.std.specs.Prelude.{◌≡◌, ◌<◌, ◌≤◌, true, length, replicate, IfSome};
ghost use Rattle.common.specs.Refusal.{number};
ghost use Rattle.sections.specs.Partial.{partial_answer};
ghost use Rattle.receiver.specs.Receiver.{announced, announced_by, announcement_answer, announce_of, fault_answer, fault_of, finish_of, portion_of, received_answer, receiver_of, refused_by, sound};
ghost use Rattle.receiver.specs.Receiver.{begun, looked, met as met_of, refused as refused_of, stepped};
ghost use Rattle.receiver.specs.Place.{Complete, Header as HeaderOf, placed};
ghost use Rattle.receiver.specs.Steps.{header_bytes, Taken};

use crate::place::{LEVELS, Level, Phase, Place};
use crate::tally::Tally;
use common::Refusal;
use sections::header::{Mode, Section};
use sections::partial::{LONGEST_HEADER, own_fields, read_partial};
use sections::search::Part;

// The state between portions: what is wanted, what was met, where it is in the file, and the bytes that
// came of a header that is not whole yet, zero behind them: an array, and the phase says how many, since the project uses no heap.
#[derive(Clone, Copy, Debug, PartialEq, Eq)]
pub struct Receiver {
    pub mode: Mode,
    pub want: u8,
    pub tally: Tally,
    pub place: Place,
    pub header: [u8; LONGEST_HEADER],
}

// What the finish answers: the number of sections on the full walk, and the part of the section wanted.
#[derive(Clone, Copy, Debug, PartialEq, Eq)]
pub struct Received {
    pub count: u64,
    pub part: Part,
}

impl Receiver {
    // Announces a file of `total` bytes, in which the section of a type is wanted that has `instance`
    // sections of that type before it on the walk. A file that is too long is refused with 206; a
    // caller that goes on nevertheless does so with `refused`.
    #[tactic(auto, unfolding(crate::specs::Receiver::announced, crate::specs::Receiver::announce_of))]
    pub fn announce(
        mode: Mode,
        section_type: u8,
        instance: u64,
        total: usize,
    ) -> Result<Receiver, Refusal>
        ensures answer { announcement_answer result ≡ announce_of mode total }
        ensures receiver { announced_by result ≡ announced mode section_type instance total }
    {
        if mode.stream_limit() < total {
            return Err(Refusal::StreamTooLong);
        }
        let mut new = Receiver::begun(mode, section_type, instance, total);
        new.place.arrive();
        Ok(new)
    }

    // A receiver in which a fault was found, and that holds nothing else: whatever comes, the finish
    // answers this fault.
    pub fn refused(refusal: Refusal) -> Receiver
        ensures { receiver_of result ≡ refused_by (number refusal) }
    {
        let mut new = Receiver::begun(Mode::Framework, 0, 0, 0);
        new.place.phase = Phase::Refused(refusal.number());
        new
    }

    // Takes the next portion, of any length. The bodies of sections that are not opened are passed over,
    // not looked at. Linear in the bytes.
    #[tactic(auto, using(crate::proofs::receiver::Fed::fed_end), unfolding(crate::specs::Receiver::portion_of))]
    pub fn receive(&mut self, portion: &[u8])
        ensures { receiver_of self.new ≡ portion_of (receiver_of self.old) portion.now }
    {
        if !self.is_sound() {
            return;
        }
        let mut rest = portion;
        // Each turn takes as many bytes as its step answers.
        while !rest.is_empty() {
            let used = self.step(rest);
            rest = &rest[used..];
        }
    }

    // Ends the file: the number of its sections with the part of the one wanted; or the fault that was
    // found first, 208 where more or fewer bytes came than were announced, or 14. A fault is a number, as in `Phase`.
    #[tactic(auto, unfolding(crate::specs::Receiver::finish_of, crate::specs::Receiver::tally_answer))]
    pub fn finish(&self) -> Result<Received, u16>
        ensures { received_answer result ≡ finish_of (receiver_of self.now) }
    {
        match self.place.phase {
            Phase::Header(_) | Phase::Body(_) | Phase::Padding(_) | Phase::Exceeded => Err(
                Refusal::WrongTotal.number(),
            ),
            Phase::Complete => {
                let part = self.tally.part.ok_or(Refusal::NotFound.number())?;
                Ok(Received {
                    count: self.tally.count,
                    part,
                })
            }
            Phase::Refused(fault) => Err(fault),
        }
    }

    // The fault that was found so far, if there is one: the finish then answers it, whatever comes. The number 0, which no fault has, is none.
    #[tactic(auto, unfolding(crate::specs::Receiver::fault_of))]
    pub fn fault(&self) -> Option<u16>
        ensures number { fault_answer result ≡ fault_of (receiver_of self.now) }
        ensures none { IfSome result (λ fault. 0 < fault) }
    {
        match self.place.phase {
            Phase::Refused(0) => None,
            Phase::Refused(fault) => Some(fault),
            _ => None,
        }
    }

    // A receiver that met nothing yet, at the first of `total` bytes.
    fn begun(mode: Mode, want: u8, instance: u64, total: usize) -> Receiver
        ensures { let none = replicate 8 0 in receiver_of result ≡ begun mode want instance (placed Complete 0 total 0 none none) }
    {
        Receiver {
            mode,
            want,
            tally: Tally {
                count: 0,
                before: instance,
                part: None,
            },
            place: Place {
                phase: Phase::Complete,
                at: 0,
                left: total,
                depth: 0,
                levels: [Level { left: 0, pad: 0 }; LEVELS],
            },
            header: [0; LONGEST_HEADER],
        }
    }

    // Whether its places lie in its arrays.
    #[tactic(auto, unfolding(crate::specs::Receiver::sound))]
    fn is_sound(&self) -> bool
        ensures { result ≡ sound (receiver_of self.now) }
    {
        let held = match self.place.phase {
            Phase::Header(have) => have,
            _ => 0,
        };
        self.place.depth <= LEVELS && held < LONGEST_HEADER
    }

    // Takes the first of these bytes, as far as they are taken at once, and answers how many: a header
    // where 28 bytes are there, with what is there of the body behind it, or one byte of a header; a body,
    // or what is there of it; one byte of padding; all that does not matter. It and most of what it calls
    // are marked to be compiled into `receive`: a section goes through memory at each call that is left.
    #[inline(always)]
    fn step(&mut self, bytes: &[u8]) -> usize
        requires { (sound (receiver_of self.old) ≡ true) × (0 < length bytes.now) }
        ensures { Taken (receiver_of self.old) bytes.now (receiver_of self.new) result }
    {
        match self.place.phase {
            Phase::Header(0) if LONGEST_HEADER <= bytes.len() => self.whole_header(bytes),
            Phase::Header(have) => {
                self.header_byte(have, bytes[0]);
                1
            }
            Phase::Body(n) => self.place.pass_body(n, bytes.len()),
            Phase::Padding(n) => {
                self.place.pass_padding(n, bytes[0]);
                1
            }
            Phase::Complete => {
                self.place.phase = Phase::Exceeded;
                bytes.len()
            }
            Phase::Exceeded | Phase::Refused(_) => bytes.len(),
        }
    }

    // A header of which no byte is held, at the start of these bytes, and of the body after it what is
    // there.
    #[inline(always)]
    fn whole_header(&mut self, bytes: &[u8]) -> usize
        requires { (sound (receiver_of self.old) ≡ true) × ((receiver_of self.old).place.phase ≡ HeaderOf 0) × (28 ≤ length bytes.now) }
        ensures { Taken (receiver_of self.old) bytes.now (receiver_of self.new) result }
    {
        let header = bytes.first_chunk().unwrap();
        let look = read_partial(self.mode, header, LONGEST_HEADER, self.place.left);
        let used = header_bytes(&look);
        self.look(used, look);
        match self.place.phase {
            Phase::Body(n) if used < bytes.len() => {
                used + self.place.pass_body(n, bytes.len() - used)
            }
            _ => used,
        }
    }

    // One byte more of a header of which `have` bytes are held.
    #[tactic(auto, unfolding(crate::specs::Receiver::stepped))]
    #[inline(always)]
    fn header_byte(&mut self, have: usize, byte: u8)
        requires { (self.old.place.depth ≤ 8) × (have < 28) }
        ensures { receiver_of self.new ≡ stepped (HeaderOf have) (receiver_of self.old) byte }
    {
        self.header[have] = byte;
        let look = read_partial(self.mode, &self.header, have + 1, self.place.left);
        self.look(have + 1, look);
    }

    // With `have` bytes of a header, which `header` holds, by what they say. It holds none afterwards,
    // unless more are to come. The contents of a section are a level of their own, and those that are
    // searched have sections, for which one more is kept.
    #[tactic(auto, unfolding(crate::specs::Receiver::looked, sections::specs::Partial::partial_answer, sections::specs::Partial::decided))]
    #[inline(always)]
    fn look(&mut self, have: usize, look: Result<Option<Section>, Refusal>)
        requires { self.old.place.depth ≤ 8 }
        ensures { receiver_of self.new ≡ looked (receiver_of self.old) self.old.header have (partial_answer look) }
    {
        match look {
            Ok(None) => self.place.phase = Phase::Header(have),
            Ok(Some(section)) => match section.contents {
                Some(from) if self.place.depth + 1 < LEVELS => self.meet(section, from, have),
                None if self.place.depth < LEVELS => self.meet(section, section.end, have),
                _ => self.refuse(Refusal::TooDeep),
            },
            Err(refusal) => self.refuse(refusal),
        }
    }

    // With a fault found in a header.
    fn refuse(&mut self, refusal: Refusal)
        ensures { receiver_of self.new ≡ refused_of (receiver_of self.old) (number refusal) }
    {
        self.header = [0; LONGEST_HEADER];
        self.place.phase = Phase::Refused(refusal.number());
    }

    // At a section whose contents, or its end where they are not searched, are from `from` on, in places
    // counted from its first byte; `have` bytes of it came.
    #[tactic(auto, unfolding(crate::specs::Receiver::met))]
    #[inline(always)]
    fn meet(&mut self, section: Section, from: usize, have: usize)
        requires { self.old.place.depth < 8 }
        ensures { receiver_of self.new ≡ met_of (receiver_of self.old) section.section_type section.first from section.end have }
    {
        self.header = [0; LONGEST_HEADER];
        let at = self.place.at;
        let part = Part {
            first: at.wrapping_add(section.first),
            end: at.wrapping_add(section.end),
        };
        self.tally.visit(self.want, section.section_type, part);
        self.place.enter(section.end, from, have);
    }
}

// How many bytes a header takes that was found whole.
#[tactic(auto, unfolding(crate::specs::Steps::header_bytes, sections::specs::Partial::partial_answer, sections::specs::Partial::decided))]
fn header_bytes(look: &Result<Option<Section>, Refusal>) -> usize
    ensures { result ≡ header_bytes (partial_answer look.now) }
{
    match look {
        Ok(Some(section)) => section.first.wrapping_add(own_fields(section.section_type)),
        _ => 1,
    }
}
