//! Prints what is known beforehand, as the file `stdout` has it: evaluations of known tests, inputs
//! with a known answer, the words of the rules, what `docs/USING.md` shows of files, and reasons
//! and drawings. Each of these parts begins with a line that names it. Behind them it asks the
//! evaluator what a table of questions asks, evaluates from sources and to sinks of bytes that
//! fail, and prints reports, logs and lines for programs of outcomes that are made up.
#![tactic(auto)]

mod bindings;
mod cases;
mod cells;
mod examples;
mod explanations;
mod inputs;
mod logs;
mod nodes;
mod outcomes;
mod records;
mod reports;
mod rules;
mod streams;
mod told;
mod using;
mod values;

use std::rt::Files;
use std::{fs, io};

/// Prints the parts that begin with a line that names them.
fn show_examples<R: Files + Print + AllocGlobal>(rt: &R) -> io::Result<()> {
    println!(rt; "# Known evaluations")?;
    examples::show_all(rt)?;
    println!(rt; "# Inputs with a known answer")?;
    inputs::show_all(rt)?;
    println!(rt; "# The words of the rules")?;
    rules::show_all(rt)?;
    println!(rt; "# Files as in USING.md")?;
    using::show_all(rt)?;
    println!(rt; "# Reasons and drawings")?;
    explanations::show_all(rt)
}

/// Prints all parts.
pub fn show_all<R: Files + Print + AllocGlobal>(rt: &R) -> io::Result<()> {
    show_examples(rt)?;
    cases::show_all(rt)?;
    let input = fs::read(rt, "MP.txt")?;
    streams::show(rt, &input)?;
    reports::show(rt)?;
    logs::show(rt)?;
    records::show(rt)
}
