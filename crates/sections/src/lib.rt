// Section streams (002), in Framework mode or in that of the PI edition: the types of sections, reading
// a section header, and one of which only the first bytes came, the walk through a stream and its
// holders, searching a stream, the first section of a type without the rest, and appending a leaf.
//
// No public function here has a `requires`: whatever the bytes are, the answer is a value or one of
// document 01's refusals. `header` has the mode, which the caller chooses, with the limit of a stream, and
// what a section header says; `walk` has no public function, and is public also so that crates above can
// cite its laws. `partial` is for a crate that takes a stream in portions.
#![tactic(auto)]

pub mod append;
pub mod header;
pub mod partial;
pub mod search;
pub mod types;
pub mod walk;
