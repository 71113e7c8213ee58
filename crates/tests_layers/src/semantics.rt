//! Asks the semantics of tests what each line of `semantics.txt` asks, and prints the line and the
//! answer. The answers that are wanted were worked out by hand.

mod environments;
mod runs;
mod spaces;

use crate::print_answer;
use litmus_ppc::{Test, read_test};
use std::alloc::{AllocError, Global};
use std::rt::Files;
use std::{fs, io};
use tests_cases::text_of;
use text_values::{put_between, put_bytes, put_decimal};

/// Appends a number of a list, behind a blank if it is not the first.
fn put_item(answer: &mut Vec<u8>, index: usize, number: usize) -> Result<(), AllocError> {
    put_between(answer, b" ", index)?;
    put_decimal(answer, number as u64)
}

/// Appends pairs of events, or `none`.
fn put_pairs(answer: &mut Vec<u8>, pairs: &[(usize, usize)]) -> Result<(), AllocError> {
    for (index, (from, to)) in pairs.iter().enumerate() {
        put_item(answer, index, *from)?;
        put_bytes(answer, b"-")?;
        put_decimal(answer, *to as u64)?;
    }
    if pairs.is_empty() {
        put_bytes(answer, b"none")?;
    }
    Ok(())
}

/// Appends the answer to a question about a test.
fn put_answer(
    alloc: Global,
    answer: &mut Vec<u8>,
    question: &str,
    test: &Test,
) -> Result<(), AllocError> {
    if let Some((name, index)) = question.split_once(" in ") {
        let index = index.parse::<usize>().unwrap_or(0);
        return spaces::put_candidate(alloc, answer, test, name, index);
    }
    if let Some(location) = question.strip_prefix("rows at ") {
        let location = location.parse::<usize>().unwrap_or(0);
        return spaces::put_first_rows(alloc, answer, test, location);
    }
    match question {
        "domain" => runs::put_domain(alloc, answer, test),
        "values" => runs::put_values(alloc, answer, test),
        "last run" => runs::put_last_run(alloc, answer, test),
        "links" => runs::put_links(alloc, answer, test),
        "candidates" => spaces::put_count(alloc, answer, test),
        "parts" => spaces::put_parts(alloc, answer, test),
        _ => put_bytes(answer, b"no such question"),
    }
}

fn show<R: Print + AllocGlobal>(rt: &R, line: &str) -> io::Result<()> {
    if let Some((question, written)) = line.split_once(" | ") {
        println!(rt; "{line}")?;
        let text = text_of(rt.alloc(), written)?;
        let mut answer = Vec::new(rt.alloc());
        match read_test(rt.alloc(), &text) {
            Ok(test) => put_answer(rt.alloc(), &mut answer, question, &test)?,
            Err(_) => put_bytes(&mut answer, b"no test")?,
        }
        print_answer(rt, answer)?;
    }
    Ok(())
}

/// Asks each question of the file.
pub fn show_all<R: Files + Print + AllocGlobal>(rt: &R) -> io::Result<()> {
    let list = fs::read_to_string(rt, "semantics.txt")?;
    for line in list.lines() {
        show(rt, line)?;
    }
    Ok(())
}
