// Firmware volumes of two editions, the Framework's (version 0.9, header revision 1) and Platform Initialization's (revision 2), the lower layer: opening
// a volume, writing a volume header, the entries of an extended header, and the state that opening answers. The block service over that state is the crate `block_service`.
//
// Every public function answers every input and has no `requires`. A refusal carries the number of document 01 or 02,
// and changes no lent byte.
#![tactic(auto)]

pub mod attributes;
pub mod block_map;
pub mod extended_entry;
mod extended_header;
pub mod header;
pub mod header_writer;
pub mod state;

pub use crate::extended_entry::{ExtEntry, ext_entry};
pub use crate::header::{open_volume, word_sum};
pub use crate::header_writer::{Edition, write_header};
pub use crate::state::State;
