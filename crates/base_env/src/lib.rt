//! All predefined names of one execution, as plain data (the herd7 manual, chapter on cat; Alglave,
//! Maranget and Tautschnig, Herding Cats, TOPLAS 36(2), 2014). Read specs/Environment.antt:
//! `IsEnvironment` says what each field is.
#![tactic(auto)]

mod env;

pub use env::{BaseEnv, base};
