//! Tests under models, evaluated from nothing. Orders of stores that a check refuses alone are not
//! tried with those of other locations, nor with what the loads read: what is said is what all
//! candidates say.
//!
//! Read `FromScratch` of from_scratch first, what `eval_cell` gives; then specs/Rows, which orders
//! are left out.
#![tactic(auto)]

mod cell;
mod cut;
mod rows;
mod tried;

pub use cell::{eval_cell, eval_row, eval_suite};
