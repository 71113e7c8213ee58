//! Litmus tests of Power: their readers and their printer. Read litmus_grammar/specs/Grammar.antt
//! first (the texts and their meanings), then specs/Faults.antt (what a refusal says).
//! specs/PartReading.antt and specs/InitReading.antt say which part of a test each token leads to;
//! litmus_grammar has the machine itself.
#![tactic(auto)]

mod draft;
mod fault;
mod init;
mod parts;
mod read;
mod reader;

pub use fault::LitmusFault;
pub use litmus_laws::laws;
pub use litmus_printing::{print_condition, print_test, put_place, put_value};
pub use litmus_tokens::LitmusRule;
pub use read::{read_cond, read_init, read_locations, read_test, read_thread};
pub use text_values::{
    BranchCondition, Condition, Connective, Fence, InitEntry, Instruction, Name, Operation, Place,
    Proposition, Quantifier, Register, Step, Test, Thread, Value,
};
