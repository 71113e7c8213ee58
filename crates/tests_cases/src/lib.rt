//! Tables of cases: each line is a question, ` | ` and a text. What several tests use stands beside
//! them: `edits` by their words, and the `streams` of the program.
//!
//! In a text `%` begins what is no plain letter: `%n` is a line feed, `%#233;` the byte 233,
//! `%*65:ab` is `ab` 65 times and `%+65:ab` the line `ab` 65 times, each up to the next `%`, and
//! `%.` is nothing.
#![tactic(auto)]

pub mod edits;
pub mod streams;

use std::alloc::{AllocError, Global};

/// Appends a unit and what ends it a number of times.
fn put_times(text: &mut Vec<u8>, count: usize, unit: &[u8], end: &[u8]) -> Result<(), AllocError> {
    for _ in 0..count {
        text.extend_from_slice(unit)?;
        text.extend_from_slice(end)?;
    }
    Ok(())
}

/// Appends what `COUNT:UNIT` spells, each unit with what ends it behind.
fn put_repeated(text: &mut Vec<u8>, spelled: &str, end: &[u8]) -> Result<(), AllocError> {
    if let Some((count, unit)) = spelled.split_once(':') {
        let count = count.parse::<usize>().unwrap_or(0);
        put_times(text, count, unit.as_bytes(), end)?;
    }
    Ok(())
}

/// Appends what `NUMBER;REST` spells.
fn put_byte(text: &mut Vec<u8>, spelled: &str) -> Result<(), AllocError> {
    if let Some((number, rest)) = spelled.split_once(';') {
        text.push(number.parse::<u8>().unwrap_or(b'?'))?;
        text.extend_from_slice(rest.as_bytes())?;
    }
    Ok(())
}

/// Appends what stands behind a `%`, up to the next.
fn put_piece(text: &mut Vec<u8>, piece: &str) -> Result<(), AllocError> {
    if let Some(rest) = piece.strip_prefix('n') {
        text.push(b'\n')?;
        return text.extend_from_slice(rest.as_bytes());
    }
    if let Some(rest) = piece.strip_prefix('.') {
        return text.extend_from_slice(rest.as_bytes());
    }
    if let Some(spelled) = piece.strip_prefix('#') {
        return put_byte(text, spelled);
    }
    if let Some(spelled) = piece.strip_prefix('*') {
        return put_repeated(text, spelled, b"");
    }
    if let Some(spelled) = piece.strip_prefix('+') {
        return put_repeated(text, spelled, b"\n");
    }
    Ok(())
}

/// The bytes that a text of a table spells. Errors: want of memory.
pub fn text_of(alloc: Global, written: &str) -> Result<Vec<u8>, AllocError> {
    let mut text = Vec::new(alloc);
    let mut is_first = true;
    for piece in written.split('%') {
        if is_first {
            text.extend_from_slice(piece.as_bytes())?;
        } else {
            put_piece(&mut text, piece)?;
        }
        is_first = false;
    }
    Ok(text)
}
