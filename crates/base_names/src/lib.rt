//! The predefined names of a model, as sets of events and relations over a candidate execution
//! (the herd7 manual, chapter on cat; Alglave, Maranget and Tautschnig, Herding Cats, TOPLAS
//! 36(2), 2014). Read specs/Names and specs/Candidate first: what each name is.
#![tactic(auto)]

mod changing;
mod fixed;
mod names;
mod reordering;
mod sets;

pub use names::Base;
