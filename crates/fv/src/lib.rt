// Entry points for C, as a loader calls them (document 02, m): plain numbers and byte ranges, the state packed into 304 bytes that the caller lends. include/fv.h
// declares them.
//
// Each returns a number: 0, 4 for short, or the refusal's. Each answers what the inner call answers over the unpacked state, whatever the bytes are, and
// says what every range that it may store in holds afterwards; a refusal leaves all of them, but one of a list of writes, which stores how far the list came. A range is a
// slice here, and a pointer and a length in C.
#![tactic(auto)]

mod answer;
pub mod dependency_calls;
pub mod job_calls;
pub mod order_calls;
mod packed;
pub mod section_calls;
pub mod volume_calls;
