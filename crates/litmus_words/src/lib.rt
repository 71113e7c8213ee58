//! The words of an instruction: opcodes, and operands one by one. Read specs/Words.antt first, then
//! specs/Machine.antt.
#![tactic(auto)]

mod opcode;
mod operand;

pub use opcode::{DataOpcode, Opcode, Want, opcode_of};
pub use operand::{Pending, is_int, is_register};
