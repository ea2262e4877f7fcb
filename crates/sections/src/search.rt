// Searching a section stream for a type and an instance, and for the first section of a type.
ghost use Rattle.std.specs.Prelude.{◌≡◌};
ghost use Rattle.sections.specs.Search.{found_answer, search_of, search_first_of};
ghost use Rattle.sections.specs.Seek.{seek_answer, run, carried};
ghost use Rattle.sections.specs.Walk.{stream_walk};
ghost use Rattle.sections.specs.declared.walk.Walk.TheVariants.{Ended};

use crate::header::Mode;
use crate::walk::{Wanted, walk_stream};
use common::refusal::Refusal;

// The levels below the outer stream.
const LEVELS_BELOW: u64 = 7;

// The part of a lent stream that a section shows, after its header.
#[derive(Clone, Copy, Debug, PartialEq, Eq)]
pub struct Part {
    pub first: usize,
    pub end: usize,
}

// The section of a type that has `instance` sections of that type before it on the walk, holders
// before their children. A fault anywhere in the stream is answered instead, the first that the walk
// meets, 201 to 207; and NotFound where there is no such section. Any byte may be asked for, and any
// instance. One pass over the stream.
#[tactic(auto, using(crate::proofs::search::Shown::search_from))]
pub fn search(mode: Mode, stream: &[u8], section_type: u8, instance: u64) -> Result<Part, Refusal>
    ensures { found_answer result ≡ search_of mode stream.now section_type instance }
{
    let wanted = Wanted {
        section_type,
        left: instance,
        stops: false,
        found: None,
    };
    sought(mode, stream, wanted)
}

// The first section of a type on the walk, without walking the rest: what comes after its own header
// is not read, neither its children nor its padding. The answer is its part; or the fault that comes
// before it or is its own; or, where no section has the type, any fault, and else NotFound. Any byte may
// be asked for. One pass, up to that section. Two public calls over one `sought`.
#[tactic(auto, using(crate::proofs::walk::Carried::run_first))]
pub fn search_first(mode: Mode, stream: &[u8], section_type: u8) -> Result<Part, Refusal>
    ensures { found_answer result ≡ search_first_of mode stream.now section_type }
{
    let wanted = Wanted {
        section_type,
        left: 0,
        stops: true,
        found: None,
    };
    sought(mode, stream, wanted)
}

// What the walk comes to: the part of the section wanted, where it stopped there or met it.
#[tactic(auto, using(crate::proofs::search::Shown::sought_206, crate::proofs::search::Shown::sought_end, crate::proofs::search::Shown::sought_fault))]
fn sought(mode: Mode, stream: &[u8], mut wanted: Wanted) -> Result<Part, Refusal>
    ensures { found_answer result ≡ seek_answer (run wanted.section_type (carried Ended wanted) (stream_walk mode stream.now)) }
{
    if mode.stream_limit() < stream.len() {
        return Err(Refusal::StreamTooLong);
    }
    walk_stream(mode, stream, 0, LEVELS_BELOW, &mut wanted)?;
    wanted.found.ok_or(Refusal::NotFound)
}
