//! Values of tests whose parts are known.

use std::io;
use text_values::{Connective, Register};

/// Prints the number of the last register, and how tightly each connective binds.
pub fn show<R: Print>(rt: &R) -> io::Result<()> {
    let number = Register::new(31).number();
    let and = Connective::And.level();
    let or = Connective::Or.level();
    let implies = Connective::Implies.level();
    println!(rt; "register 31 is {number}; levels {and} {or} {implies}")
}
