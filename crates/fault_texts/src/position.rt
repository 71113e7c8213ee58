//! The line and the column of a byte.

ghost use Rattle.std.specs.Prelude.{◌≡◌, ◌≤◌, ◌++◌, OnOk, length};
ghost use Rattle.fault_texts.specs.Positions.{count_behind, line_number, column_number, position_label};
ghost use Rattle.text_values.specs.Layout.{is_line_end};
ghost use Rattle.std.specs.List.{filter};

use std::alloc::AllocError;
use text_values::{put_bytes, put_decimal};

/// How many bytes stand behind the last `sign`, or all where there is none.
pub fn count_behind(bytes: &[u8], sign: u8) -> usize
    ensures value { result ≡ count_behind sign bytes.now }
    ensures within { result ≤ length bytes.now }
{
    let mut count = 0;
    for byte in bytes {
        if *byte == sign {
            count = 0;
        } else {
            count += 1;
        }
    }
    count
}

fn count_line_ends(bytes: &[u8]) -> usize
    ensures value { result ≡ length (filter is_line_end bytes.now) }
    ensures within { result ≤ length bytes.now }
{
    let mut count = 0;
    for byte in bytes {
        if *byte == b'\n' {
            count += 1;
        }
    }
    count
}

#[tactic(auto, unfolding(crate::specs::Positions::position_label))]
fn put_label(text: &mut Vec<u8>, path: &[u8], line: u64, column: u64) -> Result<(), AllocError>
    ensures { OnOk result (text.new.items ≡ text.old.items ++ position_label path.now line column) }
{
    put_bytes(text, path)?;
    put_bytes(text, b":")?;
    put_decimal(text, line)?;
    put_bytes(text, b":")?;
    put_decimal(text, column)?;
    put_bytes(text, b": ")
}

/// A line and a column of a text, both from 1, the column in bytes.
#[derive(Clone, Copy, Debug, PartialEq, Eq)]
pub struct Position {
    /// The line.
    pub line: u64,
    /// The column.
    pub column: u64,
}

/// Where an offset of a text is; behind its end, where that is.
pub fn position_of(text: &[u8], offset: usize) -> Position
    ensures line { result.line ≡ line_number text.now offset }
    ensures column { result.column ≡ column_number text.now offset }
{
    let end = offset.min(text.len());
    let before = &text[..end];
    Position {
        line: count_line_ends(before) as u64 + 1,
        column: count_behind(before, b'\n') as u64 + 1,
    }
}

/// Appends a path and the line and the column of an offset of a text, both from 1, the column in
/// bytes. Errors: out of memory.
pub fn put_position(
    lines: &mut Vec<u8>,
    path: &[u8],
    text: &[u8],
    offset: usize,
) -> Result<(), AllocError>
    ensures { OnOk result (lines.new.items
        ≡ lines.old.items
        ++ position_label path.now (line_number text.now offset)
        (column_number text.now offset)) }
{
    let position = position_of(text, offset);
    put_label(lines, path, position.line, position.column)
}
