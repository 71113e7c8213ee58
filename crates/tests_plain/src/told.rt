//! What an outcome is told as, for both evaluators.

use std::alloc::{AllocError, Global};
use text_values::{put_bytes, put_decimal};

/// A model with the fault of this number, or a test that is refused by this one.
pub fn told_number(alloc: Global, letter: &[u8], number: u8) -> Result<Vec<u8>, AllocError> {
    let mut text = Vec::from_slice(alloc, letter)?;
    put_decimal(&mut text, u64::from(number))?;
    Ok(text)
}

/// Puts how many kept executions end in the state before it, and whether the proposition holds.
pub fn put_count(text: &mut Vec<u8>, count: u64, holds: bool) -> Result<(), AllocError> {
    put_bytes(text, b" ")?;
    put_decimal(text, count)?;
    if holds {
        put_bytes(text, b" holds")?;
    }
    put_bytes(text, b" | ")
}

/// Puts the witnesses, the Observation and the verdict.
pub fn put_verdict(
    text: &mut Vec<u8>,
    positive: u64,
    negative: u64,
    observation: &[u8],
    ok: bool,
) -> Result<(), AllocError> {
    put_decimal(text, positive)?;
    put_bytes(text, b" ")?;
    put_decimal(text, negative)?;
    put_bytes(text, b" ")?;
    put_bytes(text, observation)?;
    if ok {
        put_bytes(text, b" Ok")
    } else {
        put_bytes(text, b" No")
    }
}

/// Puts a flag that is raised.
pub fn put_flag(text: &mut Vec<u8>, name: &[u8]) -> Result<(), AllocError> {
    put_bytes(text, b" flag ")?;
    put_bytes(text, name)
}
