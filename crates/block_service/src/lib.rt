// Firmware volumes of two editions, the upper layer: the block service, over the state that opening a volume answers
// and the volume bytes that the caller lends.
//
// Every public function answers every input and has no `requires`. A refusal carries document 01's number,
// and changes no lent byte and no state. `blocks` and `carry` are public modules without a public function, so that crates above can cite
// their laws.
#![tactic(auto)]

mod access;
pub mod blocks;
pub mod carry;
pub mod erase;
pub mod jobs;
pub mod judged;
mod lent;
mod marks;
pub mod service;

pub use crate::erase::{ByteWords, END_OF_LIST, EraseList, Words};
pub use crate::jobs::{Progress, accept_erase, carry_erase, erase_blocks};
pub use crate::judged::{write_judged, write_refusal};
pub use crate::service::{
    BlockSize, Moved, get_attributes, get_block_size, get_physical_address, protect_blocks, read,
    set_attributes, write,
};
