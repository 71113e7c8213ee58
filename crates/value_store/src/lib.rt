//! Values that threads share, each shown by a token in place of a copy. Read `specs/Tokens` first:
//! what a clause sees of a token. Others may cite `Store::see` (a token shows its value for good)
//! and `Store::is_one` (two tokens of one index show one value).
#![tactic(auto)]

mod fault;
mod store;
mod token;

pub use fault::StoreFault;
pub use store::{MAX_VALUES, Opened, Store};
pub use token::{StoreName, Token};
