//! The printed texts of litmus tests of Power. Read specs/Printing.antt first; litmus_laws has the
//! law that a printed test is read as the test that was printed.
#![tactic(auto)]

mod print;
mod print_table;

pub use print::{fence_name, print_condition, put_place, put_value};
pub use print_table::print_test;
