//! Asks the readers and the printers of tests and of models what each line of `readers.txt` asks,
//! and prints the line and the answer. The answers that are wanted come from other readers of the
//! formats and from their grammars.

mod models;
mod propositions;
mod tests;
mod values;

use crate::print_answer;
use std::alloc::{AllocError, Global};
use std::rt::Files;
use std::{fs, io};
use tests_cases::text_of;
use text_values::{put_bytes, put_decimal};

/// Appends a refusal of a text: the letter and the number of its rule, and its offset.
pub fn put_refusal(
    answer: &mut Vec<u8>,
    letter: &[u8],
    number: u8,
    offset: usize,
) -> Result<(), AllocError> {
    put_bytes(answer, b"refused ")?;
    put_bytes(answer, letter)?;
    put_decimal(answer, u64::from(number))?;
    put_bytes(answer, b" ")?;
    put_decimal(answer, offset as u64)
}

/// Appends whether two texts are the same.
fn put_comparison(answer: &mut Vec<u8>, one: &[u8], other: &[u8]) -> Result<(), AllocError> {
    let word = if one == other {
        b"the same".as_slice()
    } else {
        b"another"
    };
    put_bytes(answer, word)
}

/// Appends the answer to a question about a text.
fn put_answer(
    alloc: Global,
    answer: &mut Vec<u8>,
    question: &str,
    text: &[u8],
) -> Result<(), AllocError> {
    match question {
        "proposition" => propositions::put_meaning(alloc, answer, text),
        "long proposition" => propositions::put_outcome(alloc, answer, text),
        "model" => models::put_count(alloc, answer, text),
        "item" => models::put_item(alloc, answer, text),
        "printed model" => models::put_printed(alloc, answer, text),
        "cuts of a model" => models::put_cuts(alloc, answer, text),
        _ => tests::put_answer(alloc, answer, question, text),
    }
}

fn show<R: Print + AllocGlobal>(rt: &R, line: &str) -> io::Result<()> {
    if let Some((question, written)) = line.split_once(" | ") {
        let text = text_of(rt.alloc(), written)?;
        let mut answer = Vec::new(rt.alloc());
        put_answer(rt.alloc(), &mut answer, question, &text)?;
        println!(rt; "{line}")?;
        print_answer(rt, answer)?;
    }
    Ok(())
}

/// Asks each question of the file.
pub fn show_all<R: Files + Print + AllocGlobal>(rt: &R) -> io::Result<()> {
    values::show(rt)?;
    let list = fs::read_to_string(rt, "readers.txt")?;
    for line in list.lines() {
        show(rt, line)?;
    }
    Ok(())
}
