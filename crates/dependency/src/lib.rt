// Dependency expressions of UEFI's firmware management protocol (004; document 02, k): whether an image suits the firmware that
// is installed. A reader and a writer of single opcodes (`opcodes`), the test of an expression (`validation`), and its evaluation
// against a table of installed firmware (`evaluation`, `installed`).
//
// No public function here has a `requires`: whatever the bytes, the room and the table are, the answer is a value or a refusal with
// one of document 02's numbers.
#![tactic(auto)]

pub mod evaluation;
mod installed;
pub mod opcodes;
pub mod validation;

pub use crate::evaluation::evaluate;
pub use crate::opcodes::{Opcode, Read, read_opcode, write_opcode};
pub use crate::validation::validate;
