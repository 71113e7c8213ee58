//! The printed texts of models in the cat language. Read specs/Printing.antt first; cat_laws has
//! the law that a printed model is read as the model that was printed.
#![tactic(auto)]

mod print;

pub use print::{print_item, print_model};
