//! Stores and benches over a small instance, a sheet of numbers. Read `specs/Sheet` first: what a
//! sheet means. What stores take is printed, then each line of `benches.txt` with its answer, and
//! then how a walk of random events compares with evaluation from nothing, and how many nodes
//! claims and edits ask for.

mod answer;
mod cases;
mod lists;
pub mod nodes;
mod play;
pub mod rows;
pub mod sheet;
pub mod sheet_cells;
mod stores;
mod visits;
mod walk;

use std::io;
use std::rt::Files;
use std::sync::Wait;

/// Prints what stores take, the answers to the lines, the walk, and what claims and edits ask for.
pub fn show_all<R: Files + Print + AllocGlobal + Wait>(rt: &R) -> io::Result<()> {
    println!(rt; "# Stores")?;
    stores::show(rt)?;
    println!(rt; "# Benches")?;
    cases::show(rt)?;
    println!(rt; "# A walk")?;
    walk::show(rt)?;
    println!(rt; "# What claims and edits ask for")?;
    visits::show(rt)
}
