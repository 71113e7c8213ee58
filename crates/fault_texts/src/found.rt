//! What stands at an offset.

ghost use Rattle.std.specs.Prelude.{◌≡◌, ◌≤◌, ◌++◌, OnOk, length, map};
ghost use Rattle.std.specs.List.{position_or_len};
ghost use Rattle.fault_texts.specs.Lines.{shown_byte, blank_below, is_word_byte, ends_word, quoted, found_text};

use std::alloc::AllocError;
use text_values::{is_digit, is_letter, put_bytes};

/// The most bytes that are shown of a line before an offset, behind it, and of a word.
pub const MOST_SHOWN: usize = 100;

fn shown_byte(byte: u8) -> u8
    ensures { result ≡ shown_byte byte }
{
    if byte == b'\t' || (b' ' <= byte && byte < 127) {
        byte
    } else {
        b'?'
    }
}

fn blank_below(byte: u8) -> u8
    ensures { result ≡ blank_below byte }
{
    if byte == b'\t' { b'\t' } else { b' ' }
}

/// Appends bytes as they are shown: one that is neither printable ASCII nor a tab as a question
/// mark. Errors: out of memory.
pub fn put_shown(text: &mut Vec<u8>, bytes: &[u8]) -> Result<(), AllocError>
    ensures { OnOk result (text.new.items ≡ text.old.items ++ map shown_byte bytes.now) }
{
    for byte in bytes {
        text.push(shown_byte(*byte))?;
    }
    Ok(())
}

/// Appends a tab for each tab of the bytes, and a blank for each other byte. Errors: out of memory.
pub fn put_blanks(text: &mut Vec<u8>, bytes: &[u8]) -> Result<(), AllocError>
    ensures { OnOk result (text.new.items ≡ text.old.items ++ map blank_below bytes.now) }
{
    for byte in bytes {
        text.push(blank_below(*byte))?;
    }
    Ok(())
}

fn is_word_byte(byte: u8) -> bool
    ensures { result ≡ is_word_byte byte }
{
    is_letter(byte) || is_digit(byte) || byte == b'_'
}

fn word_length(rest: &[u8]) -> usize
    ensures value { result ≡ position_or_len ends_word rest.now }
    ensures within { result ≤ length rest.now }
{
    for (i, byte) in rest.iter().enumerate() {
        if !is_word_byte(*byte) {
            return i;
        }
    }
    rest.len()
}

fn put_quoted(text: &mut Vec<u8>, word: &[u8]) -> Result<(), AllocError>
    ensures { OnOk result (text.new.items ≡ text.old.items ++ quoted word.now) }
{
    put_bytes(text, b"`")?;
    put_shown(text, word)?;
    put_bytes(text, b"`")
}

/// Appends what stands at the start of these bytes: the end, or a word or a byte. Errors: out of
/// memory.
pub fn put_found(text: &mut Vec<u8>, rest: &[u8]) -> Result<(), AllocError>
    ensures { OnOk result (text.new.items ≡ text.old.items ++ found_text rest.now) }
{
    if rest.is_empty() {
        return put_bytes(text, b"the end of the text");
    }
    if rest[0] == b'\n' {
        return put_bytes(text, b"the end of the line");
    }
    let length = word_length(rest).min(MOST_SHOWN).max(1);
    put_quoted(text, &rest[..length])
}
