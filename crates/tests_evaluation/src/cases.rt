//! Asks the evaluator what each line of `models.txt` asks, and prints the line and the answer. The
//! answers that are wanted were worked out by hand.

use crate::{bindings, cells, nodes, outcomes, streams, told, values};
use std::alloc::{AllocError, Global};
use std::rt::Files;
use std::{fs, io};
use tests_cases::text_of;
use text_values::put_bytes;

/// Appends `true` or `false`.
pub fn put_bool(answer: &mut Vec<u8>, holds: bool) -> Result<(), AllocError> {
    let word = if holds { b"true".as_slice() } else { b"false" };
    put_bytes(answer, word)
}

/// Appends the answer to a question about a text.
fn put_answer(
    alloc: Global,
    answer: &mut Vec<u8>,
    question: &str,
    text: &[u8],
) -> Result<(), AllocError> {
    if let Some(model) = question.strip_prefix("cell under ") {
        return cells::put_cell(alloc, answer, model.as_bytes(), text);
    }
    if let Some(model) = question.strip_prefix("nodes under ") {
        return nodes::put_nodes(alloc, answer, model.as_bytes(), text);
    }
    if let Some(words) = question.strip_prefix("outcome") {
        return outcomes::put_outcome(alloc, answer, words, text);
    }
    match question {
        "values" => values::put_values(alloc, answer, text),
        "holds" => values::put_holds(alloc, answer, text),
        "words" => cells::put_form(alloc, answer, text),
        "told" => told::put_told(alloc, answer, text),
        _ => bindings::put_answer(alloc, answer, question, text),
    }
}

fn show<R: Print + AllocGlobal>(rt: &R, line: &str) -> io::Result<()> {
    if let Some((question, written)) = line.split_once(" | ") {
        println!(rt; "{line}")?;
        let text = text_of(rt.alloc(), written)?;
        if question == "stream" {
            return streams::show_answer(rt, &text);
        }
        let mut answer = Vec::new(rt.alloc());
        put_answer(rt.alloc(), &mut answer, question, &text)?;
        match String::from_utf8(answer) {
            Ok(answer) => println!(rt; "{answer}")?,
            Err(_) => println!(rt; "no text")?,
        }
    }
    Ok(())
}

/// Answers each question.
pub fn show_all<R: Files + Print + AllocGlobal>(rt: &R) -> io::Result<()> {
    let list = fs::read_to_string(rt, "models.txt")?;
    for line in list.lines() {
        show(rt, line)?;
    }
    Ok(())
}
