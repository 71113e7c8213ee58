//! Evaluates each test of `examples.txt` under its model, and prints the whole log or the line that
//! tells the outcome. Then compares the models that the bench's library holds as constants with
//! their files.

use command_answers::eval;
use from_scratch::fixtures;
use std::alloc::{AllocError, Global};
use std::rt::Files;
use std::{fs, io};

/// A line of the list: a model, a test, and whether the whole log is printed.
#[derive(Drop)]
struct Example<'a> {
    model: &'a str,
    test: &'a str,
    whole: bool,
}

/// The example that a line names, if it names one.
fn example_of(line: &str) -> Option<Example<'_>> {
    let mut words = line.split_whitespace();
    let model = words.next()?;
    let test = words.next()?;
    let kind = words.next()?;
    Some(Example {
        model,
        test,
        whole: kind == "whole",
    })
}

/// Whether a line tells the outcome.
fn tells_outcome(line: &str) -> bool {
    line.starts_with("Observation ") || line.starts_with("Refused ")
}

fn put_line(text: &mut String, line: &str) -> Result<(), AllocError> {
    text.push_str(line)?;
    text.push_str("\n")
}

/// The lines of a log that are printed.
fn printed(alloc: Global, log: &str, whole: bool) -> Result<String, AllocError> {
    let mut text = String::new(alloc);
    for line in log.lines() {
        if whole || tells_outcome(line) {
            put_line(&mut text, line)?;
        }
    }
    Ok(text)
}

/// The log of a test under a model, or why there is none.
fn log_of(alloc: Global, model: &[u8], test: &[u8]) -> Result<String, AllocError> {
    match eval(alloc, model, test) {
        Ok(log) => match String::from_utf8(log) {
            Ok(text) => Ok(text),
            Err(_) => String::from_str(alloc, "no text\n"),
        },
        Err(fault) => format!(in alloc; "Refused {fault}\n"),
    }
}

fn show<R: Files + Print + AllocGlobal>(rt: &R, example: &Example<'_>) -> io::Result<()> {
    let alloc = rt.alloc();
    let model_name = example.model;
    let test_name = example.test;
    let model_path = format!(in alloc; "{model_name}.cat")?;
    let test_path = format!(in alloc; "{test_name}.litmus")?;
    let model = fs::read(rt, model_path.as_str())?;
    let test = fs::read(rt, test_path.as_str())?;
    let log = log_of(alloc, &model, &test)?;
    let text = printed(alloc, log.as_str(), example.whole)?;
    println!(rt; "== {test_name} under {model_name}")?;
    rt.print(text)
}

fn show_constant<R: Files + Print + AllocGlobal>(
    rt: &R,
    model_name: &str,
    text: &[u8],
) -> io::Result<()> {
    let path = format!(in rt.alloc(); "{model_name}.cat")?;
    let file = fs::read(rt, path.as_str())?;
    let word = if file.as_slice() == text {
        "the same as"
    } else {
        "another text than"
    };
    println!(rt; "== {path}: {word} the constant")
}

/// Evaluates each example, and compares each constant with its file.
pub fn show_all<R: Files + Print + AllocGlobal>(rt: &R) -> io::Result<()> {
    let list = fs::read_to_string(rt, "examples.txt")?;
    for line in list.lines() {
        if let Some(example) = example_of(line) {
            show(rt, &example)?;
        }
    }
    show_constant(rt, "sc", fixtures::SC)?;
    show_constant(rt, "coherence", fixtures::COHERENCE)?;
    show_constant(rt, "power", fixtures::POWER)
}
