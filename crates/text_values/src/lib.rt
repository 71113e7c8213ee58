//! What the readers of tests and of models share, and what they make.
//!
//! - Names, blanks, lines, strings, comments, numbers and the limit of length: read
//!   specs/Layout.antt first. Other crates cite proofs/Separated.antt, which says that a list
//!   printed part by part is the list with a separator between its parts.
//! - Litmus tests of Power as values: threads, instructions, initial values, conditions. Read
//!   specs/TestValue.antt first: it says what a test means, without its layout in memory.
//! - Models in the cat language as values. Read specs/ModelValue.antt first: it says what an item
//!   and an expression mean. Other crates cite proofs/Arguments.antt. The predefined names stand in
//!   `predefined_names`.
#![tactic(auto)]

mod instruction;
mod layout;
mod letters;
mod model;
mod name;
mod put;
mod same;
mod test;

pub use instruction::{BranchCondition, Fence, Instruction, Operation, Register};
pub use layout::{comment_length, is_blank, line_length, quoted_length};
pub use letters::{byte_at, is_digit, is_letter, is_word};
pub use model::{
    Binding, Check, CheckWord, Expression, Infix, Item, MAX_PARAMETERS, ModelText, Postfix,
    ShownExpression,
};
pub use name::Name;
pub use predefined_names::{PREDEFINED, PREDEFINED_COUNT, Predefined};
pub use put::{put_between, put_bytes, put_decimal};
pub use same::{are_same_names, is_same_label};
pub use test::{
    Condition, Connective, InitEntry, Place, Proposition, Quantifier, Step, Test, Thread, Value,
};

/// The greatest length of a text, in bytes.
pub const MAX_BYTES: usize = 65_536;
