//! The words of a line.

ghost use Rattle.std.specs.Prelude.{◌≡◌, ◌≤◌, ◌++◌, ◌∷◌, [], length, IfOk, OnOk, Some, None};
ghost use Rattle.std.specs.List.{position_or_len};
ghost use Rattle.text_values.specs.Letters.{is_digit};
ghost use Rattle.session_script.specs.Words.{is_gap, words_of, with_digit, word_number};

use crate::request::ScriptText;
use std::alloc::{AllocError, Global};
use text_values::{is_digit, put_bytes};

// Whether the byte parts words.
#[tactic(auto, unfolding(crate::specs::Words::is_gap))]
fn is_gap(byte: u8) -> bool
    ensures { result ≡ is_gap byte }
{
    byte == b' ' || byte == b'\t'
}

// The number of bytes before the first gap.
fn word_length(bytes: &[u8]) -> usize
    ensures value { result ≡ position_or_len is_gap bytes.now }
    ensures within { result ≤ length bytes.now }
{
    for i in 0..bytes.len() {
        if is_gap(bytes[i]) {
            return i;
        }
    }
    bytes.len()
}

fn push_word(words: &mut Vec<ScriptText>, alloc: Global, word: &[u8]) -> Result<(), AllocError>
    ensures { OnOk result (words.new.items ≡ words.old.items ++ word.now ∷ []) }
{
    words.push(ScriptText::new(Vec::from_slice(alloc, word)?))?;
    Ok(())
}

/// The words of a line, which spaces and tabs part. Errors: out of memory.
pub(crate) fn words_of(alloc: Global, line: &[u8]) -> Result<Vec<ScriptText>, AllocError>
    ensures { IfOk result (λ words. words.items ≡ words_of line.now) }
{
    let mut words = Vec::new(alloc);
    let mut start = 0;
    while start < line.len() {
        let length = word_length(&line[start..]);
        if length == 0 {
            start += 1;
        } else {
            push_word(&mut words, alloc, &line[start..start + length])?;
            start += length;
        }
    }
    Ok(words)
}

/// These words, with a blank between two. Errors: out of memory.
pub(crate) fn joined(alloc: Global, words: &[ScriptText]) -> Result<Vec<u8>, AllocError> {
    let mut line = Vec::new(alloc);
    for word in words {
        if !line.is_empty() {
            line.push(b' ')?;
        }
        put_bytes(&mut line, word.as_bytes())?;
    }
    Ok(line)
}

// The number that goes on with this byte, if it is a digit and the number is below 2^64.
fn with_digit(number: u64, byte: u8) -> Option<u64>
    ensures { result ≡ with_digit number byte }
{
    if !is_digit(byte) {
        return None;
    }
    match number.checked_mul(10) {
        Some(tens) => tens.checked_add(u64::from(byte - b'0')),
        None => None,
    }
}

/// The number below 2^64 that the digits of a word make, 0 where it has none; none where it has
/// other bytes or makes more.
pub fn number_of(word: &[u8]) -> Option<u64>
    ensures { result ≡ word_number word.now }
{
    let mut number = 0;
    for byte in word {
        match with_digit(number, *byte) {
            Some(more) => number = more,
            None => return None,
        }
    }
    Some(number)
}
