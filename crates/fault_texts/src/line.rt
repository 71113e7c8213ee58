//! The lines of a refused text.

ghost use Rattle.std.specs.Prelude.{◌≡◌, ◌++◌, OnOk};
ghost use Rattle.fault_texts.specs.Lines.{line_before, line_behind, picture, rule_said, what_is_found, fault_lines};

use crate::found::{MOST_SHOWN, put_blanks, put_found, put_shown};
use crate::position::{count_behind, put_position};
use std::alloc::AllocError;
use text_values::{line_length, put_bytes, put_decimal};

fn line_before(prefix: &[u8]) -> &[u8]
    ensures { result.now ≡ line_before prefix.now }
{
    let length = count_behind(prefix, b'\n').min(MOST_SHOWN);
    &prefix[prefix.len() - length..]
}

fn line_behind(rest: &[u8]) -> &[u8]
    ensures { result.now ≡ line_behind rest.now }
{
    let length = line_length(rest).min(MOST_SHOWN);
    &rest[..length]
}

#[tactic(auto, unfolding(crate::specs::Lines::picture))]
fn put_picture(lines: &mut Vec<u8>, prefix: &[u8], rest: &[u8]) -> Result<(), AllocError>
    ensures { OnOk result (lines.new.items ≡ lines.old.items ++ picture prefix.now rest.now) }
{
    let before = line_before(prefix);
    put_shown(lines, before)?;
    put_shown(lines, line_behind(rest))?;
    put_bytes(lines, b"\n")?;
    put_blanks(lines, before)?;
    put_bytes(lines, b"^\n")
}

/// Appends the letter and the number of a rule, and its words. Errors: out of memory.
pub fn put_rule(lines: &mut Vec<u8>, letter: u8, number: u8, words: &[u8]) -> Result<(), AllocError>
    ensures { OnOk result (lines.new.items ≡ lines.old.items ++ rule_said letter number words.now) }
{
    lines.push(letter)?;
    put_decimal(lines, u64::from(number))?;
    put_bytes(lines, b" ")?;
    put_bytes(lines, words)
}

#[tactic(auto, unfolding(crate::specs::Lines::what_is_found))]
fn put_what_is_found(lines: &mut Vec<u8>, rest: &[u8], offset: usize) -> Result<(), AllocError>
    ensures { OnOk result (lines.new.items ≡ lines.old.items ++ what_is_found rest.now offset) }
{
    put_bytes(lines, b", found ")?;
    put_found(lines, rest)?;
    put_bytes(lines, b" at byte ")?;
    put_decimal(lines, offset as u64)?;
    put_bytes(lines, b"\n")
}

/// Appends what is told of a text that is refused at an offset: the path and the position, the
/// letter and the number of the rule with its words, what is found there, and the line with a mark
/// below the byte. Errors: out of memory.
#[tactic(auto, unfolding(crate::specs::Lines::fault_lines))]
pub fn put_fault_lines(
    lines: &mut Vec<u8>,
    path: &[u8],
    text: &[u8],
    letter: u8,
    number: u8,
    words: &[u8],
    offset: usize,
) -> Result<(), AllocError>
    ensures { OnOk result (lines.new.items
        ≡ lines.old.items ++ fault_lines path.now text.now letter number words.now offset) }
{
    let (prefix, rest) = text.split_at(offset.min(text.len()));
    put_position(lines, path, text, offset)?;
    put_rule(lines, letter, number, words)?;
    put_what_is_found(lines, rest, offset)?;
    put_picture(lines, prefix, rest)
}
