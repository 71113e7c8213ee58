//! Applies the operations of `bit_relations` to known relations and sets, and prints how many pairs
//! or events each result has, and a number that depends on each of them. `tests/plain-relations`, a
//! plain program over sets of pairs, prints what is wanted.

mod chains;
mod cycles;
mod digest;
mod operations;
mod packed;
mod random;

use std::io;

/// Prints what the operations give, then closures of chains, columns, and cycles.
pub fn show_all<R: Print + AllocGlobal>(rt: &R) -> io::Result<()> {
    operations::show(rt)?;
    chains::show(rt)?;
    packed::show(rt)?;
    cycles::show(rt)
}
