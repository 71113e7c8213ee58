//! Tests and their parts as `litmus_ppc` reads and prints them; a part is one of a test of one
//! thread.

use crate::readers::{put_comparison, put_refusal};
use litmus_ppc::*;
use std::alloc::{AllocError, Global};
use text_values::{put_bytes, put_decimal};

/// Appends whether a text is read, or its refusal.
fn put_outcome<T: Drop>(
    answer: &mut Vec<u8>,
    outcome: Result<T, LitmusFault>,
) -> Result<(), AllocError> {
    match outcome {
        Ok(_) => put_bytes(answer, b"read"),
        Err(fault) => put_fault(answer, fault),
    }
}

fn put_fault(answer: &mut Vec<u8>, fault: LitmusFault) -> Result<(), AllocError> {
    match fault {
        LitmusFault::Refused { rule, offset } => put_refusal(answer, b"L", rule.number(), offset),
        LitmusFault::OutOfMemory(_) => Err(AllocError),
    }
}

/// Appends how many steps a thread has.
fn put_steps(alloc: Global, answer: &mut Vec<u8>, text: &[u8]) -> Result<(), AllocError> {
    match read_thread(alloc, text) {
        Ok(thread) => put_decimal(answer, thread.steps.len() as u64),
        Err(fault) => put_fault(answer, fault),
    }
}

/// Appends the printed test, without its last line feed.
fn put_printed(alloc: Global, answer: &mut Vec<u8>, text: &[u8]) -> Result<(), AllocError> {
    match read_test(alloc, text) {
        Ok(test) => put_line(answer, &print_test(alloc, &test)?),
        Err(fault) => put_fault(answer, fault),
    }
}

fn put_line(answer: &mut Vec<u8>, text: &[u8]) -> Result<(), AllocError> {
    put_bytes(answer, text.strip_suffix(b"\n").unwrap_or(text))
}

/// Appends the printed condition.
fn put_condition(alloc: Global, answer: &mut Vec<u8>, text: &[u8]) -> Result<(), AllocError> {
    match read_cond(alloc, text, 1) {
        Ok(condition) => put_bytes(answer, &print_condition(alloc, &condition)?),
        Err(fault) => put_fault(answer, fault),
    }
}

/// Appends whether a printed test reads as the test that was printed.
fn put_again(alloc: Global, answer: &mut Vec<u8>, text: &[u8]) -> Result<(), AllocError> {
    match read_test(alloc, text) {
        Ok(test) => {
            let printed = print_test(alloc, &test)?;
            let mut again = Vec::new(alloc);
            put_printed(alloc, &mut again, &printed)?;
            again.push(b'\n')?;
            put_comparison(answer, &again, &printed)
        }
        Err(fault) => put_fault(answer, fault),
    }
}

/// A letter for the number of a refusal: `C` for 12, and else its digit.
fn number_letter(rule: LitmusRule) -> u8 {
    match rule.number() {
        12 => b'C',
        number => b'0' + number.min(9),
    }
}

/// The number of a text's refusal as a letter, and how far before its end that stands, at most 9,
/// as a digit. Both are `.` for a test.
fn cut_letters(alloc: Global, text: &[u8]) -> Result<(u8, u8), AllocError> {
    match read_test(alloc, text) {
        Ok(_) => Ok((b'.', b'.')),
        Err(LitmusFault::Refused { rule, offset }) => {
            let before = text.len().saturating_sub(offset);
            Ok((number_letter(rule), b'0' + before.min(9) as u8))
        }
        Err(LitmusFault::OutOfMemory(_)) => Err(AllocError),
    }
}

/// Appends what each front of a text is read as: a line of the numbers and one of the offsets.
fn put_cuts(alloc: Global, answer: &mut Vec<u8>, text: &[u8]) -> Result<(), AllocError> {
    let mut offsets = Vec::new(alloc);
    for count in 0..text.len() {
        let (number, offset) = cut_letters(alloc, &text[..count])?;
        answer.push(number)?;
        offsets.push(offset)?;
    }
    let (number, offset) = cut_letters(alloc, text)?;
    answer.push(number)?;
    offsets.push(offset)?;
    answer.push(b'\n')?;
    put_bytes(answer, &offsets)
}

/// Where a text is refused, and past its end where it is read.
fn offset_of(alloc: Global, text: &[u8]) -> usize {
    match read_test(alloc, text) {
        Err(LitmusFault::Refused { offset, .. }) => offset,
        _ => usize::MAX,
    }
}

/// Whether what stands before the offset of a text's refusal begins a test: alone it is one, or it
/// ends too early, at its end.
fn begins_test(alloc: Global, text: &[u8]) -> bool {
    let offset = offset_of(alloc, text);
    if offset > text.len() {
        return true;
    }
    let end = offset_of(alloc, &text[..offset]);
    end == offset || end == usize::MAX
}

fn put_fronts(alloc: Global, answer: &mut Vec<u8>, text: &[u8]) -> Result<(), AllocError> {
    for count in 0..text.len() {
        if !begins_test(alloc, &text[..count]) {
            put_bytes(answer, b"not at ")?;
            return put_decimal(answer, count as u64);
        }
    }
    put_bytes(answer, b"each begins a test")
}

/// Appends the answer to a question about a text.
pub fn put_answer(
    alloc: Global,
    answer: &mut Vec<u8>,
    question: &str,
    text: &[u8],
) -> Result<(), AllocError> {
    match question {
        "test" => put_outcome(answer, read_test(alloc, text)),
        "thread" => put_outcome(answer, read_thread(alloc, text)),
        "init" => put_outcome(answer, read_init(alloc, text, 1)),
        "condition" => put_outcome(answer, read_cond(alloc, text, 1)),
        "locations" => put_outcome(answer, read_locations(alloc, text, 1)),
        "steps of a thread" => put_steps(alloc, answer, text),
        "printed test" => put_printed(alloc, answer, text),
        "printed condition" => put_condition(alloc, answer, text),
        "test printed twice" => put_again(alloc, answer, text),
        "cuts of a test" => put_cuts(alloc, answer, text),
        "fronts of a test" => put_fronts(alloc, answer, text),
        _ => put_bytes(answer, b"no such question"),
    }
}
