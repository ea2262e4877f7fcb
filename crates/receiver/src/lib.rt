// A section stream that comes in portions, cut anywhere, and is searched while it comes, in a state of
// fixed size. `receiver` has the calls: a file is announced, each portion is given to the receiver in
// turn, and at the end it is asked. `place` has where in the file a receiver is, and `tally` the sections
// that it met.
//
// No public function here has a `requires`: a receiver that no announcement led to is answered too, as
// the definitions say; only where one led to it does the answer say something of a file.
#![tactic(auto)]

pub mod place;
pub mod receiver;
pub mod tally;

pub use crate::receiver::{Received, Receiver};
