// What a call is refused with: one error for all crates. The definitions and laws that they share are in specs/ and proofs/.
#![tactic(auto)]

pub mod refusal;

pub use crate::refusal::Refusal;
