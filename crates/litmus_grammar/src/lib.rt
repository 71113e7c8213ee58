//! The grammar of litmus tests of Power, with a reader that goes from token to token, on plain
//! data. Read specs/Grammar.antt first, then specs/Texts.antt (what a text means, and where it is
//! at fault). `laws` says that the reader of specs/TextMachine.antt reads that grammar; litmus_ppc
//! cites it.
#![tactic(auto)]

pub mod laws;
mod parts;

pub use parts::{InitExpectation, InitStep, ItemExpectation, TextKind};
