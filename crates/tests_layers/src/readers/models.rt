//! Models and their items as `cat_syntax` reads and prints them.

use crate::readers::put_refusal;
use cat_syntax::{CatFault, CatRule, print_model, read_item, read_model};
use std::alloc::{AllocError, Global};
use text_values::{put_bytes, put_decimal};

fn put_fault(answer: &mut Vec<u8>, fault: CatFault) -> Result<(), AllocError> {
    match fault {
        CatFault::Refused { rule, offset } => put_refusal(answer, b"C", rule.number(), offset),
        CatFault::OutOfMemory(error) => Err(error),
    }
}

/// Appends how many items a model has.
pub fn put_count(alloc: Global, answer: &mut Vec<u8>, text: &[u8]) -> Result<(), AllocError> {
    match read_model(alloc, text) {
        Ok(model) => {
            put_bytes(answer, b"read ")?;
            put_decimal(answer, model.items.len() as u64)?;
            put_bytes(answer, b" items")
        }
        Err(fault) => put_fault(answer, fault),
    }
}

/// Appends the printed item.
pub fn put_item(alloc: Global, answer: &mut Vec<u8>, text: &[u8]) -> Result<(), AllocError> {
    match read_item(alloc, text) {
        Ok(item) => put_bytes(answer, &cat_syntax::print_item(alloc, &item)?),
        Err(fault) => put_fault(answer, fault),
    }
}

/// The text that is printed for a model, or its refusal.
fn printed(alloc: Global, text: &[u8]) -> Result<Vec<u8>, AllocError> {
    match read_model(alloc, text) {
        Ok(model) => print_model(alloc, &model),
        Err(fault) => {
            let mut answer = Vec::new(alloc);
            put_fault(&mut answer, fault)?;
            Ok(answer)
        }
    }
}

/// Appends the printed model, without its last line feed, and whether it is printed otherwise once
/// it is read again.
pub fn put_printed(alloc: Global, answer: &mut Vec<u8>, text: &[u8]) -> Result<(), AllocError> {
    let once = printed(alloc, text)?;
    let twice = printed(alloc, &once)?;
    put_bytes(answer, once.strip_suffix(b"\n").unwrap_or(&once))?;
    if once.as_slice() != twice.as_slice() {
        put_bytes(answer, b"\nprinted otherwise")?;
    }
    Ok(())
}

/// What a text is read as: `.` for a model, and else a letter for how far before its end the
/// refusal stands, `A` for the end itself.
fn cut_letter(alloc: Global, text: &[u8]) -> Result<u8, AllocError> {
    match read_model(alloc, text) {
        Ok(_) => Ok(b'.'),
        Err(CatFault::Refused { rule, offset }) => {
            let before = text.len().saturating_sub(offset);
            if rule == CatRule::Syntax && offset <= text.len() && before < 26 {
                Ok(b'A' + before as u8)
            } else {
                Ok(b'?')
            }
        }
        Err(CatFault::OutOfMemory(error)) => Err(error),
    }
}

/// Appends what each front of a text is read as.
pub fn put_cuts(alloc: Global, answer: &mut Vec<u8>, text: &[u8]) -> Result<(), AllocError> {
    for count in 0..text.len() {
        answer.push(cut_letter(alloc, &text[..count])?)?;
    }
    answer.push(cut_letter(alloc, text)?)?;
    Ok(())
}
