//! Tries the layers under evaluation. First the operations on relations; then what the files of
//! cases ask, each line printed with its answer: the readers and the printers, the edits of texts,
//! the parts of a bench after edits, the semantics of tests, and benches over a small instance.
//! Each begins with a line that names it.
#![tactic(auto)]

pub mod benches;
mod parts;
mod readers;
mod relations;
mod semantics;
mod texts;

use std::io;
use std::rt::Files;
use std::sync::Wait;

/// Prints an answer, or that it is no text.
fn print_answer<R: Print>(rt: &R, answer: Vec<u8>) -> io::Result<()> {
    match String::from_utf8(answer) {
        Ok(answer) => println!(rt; "{answer}"),
        Err(_) => println!(rt; "no text"),
    }
}

/// Prints the answers of all layers.
pub fn show_all<R: Files + Print + AllocGlobal + Wait>(rt: &R) -> io::Result<()> {
    println!(rt; "# Relations")?;
    relations::show_all(rt)?;
    println!(rt; "# Readers and printers")?;
    readers::show_all(rt)?;
    println!(rt; "# Edits of texts")?;
    texts::show_all(rt)?;
    println!(rt; "# Parts after edits")?;
    parts::show_all(rt)?;
    println!(rt; "# Semantics of tests")?;
    semantics::show_all(rt)?;
    benches::show_all(rt)
}
