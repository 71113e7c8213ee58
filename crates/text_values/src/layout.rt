//! Blanks, lines, strings and comments.

ghost use Rattle.std.specs.Prelude.{◌≡◌, ◌<◌, ◌≤◌, length, IfSome};
ghost use Rattle.std.specs.List.{position_or_len};
ghost use Rattle.text_values.specs.Layout.{is_blank, is_line_end, quoted_from, comment_from, comment_of};

use crate::letters::byte_at;
use memchr::memchr;

/// Whether a byte is a space, a tab or a carriage return. A line feed is none of them.
pub fn is_blank(byte: u8) -> bool
    ensures { result ≡ is_blank byte }
{
    byte == b' ' || byte == b'\t' || byte == b'\r'
}

/// The number of bytes before the first line feed, or of all bytes if there is no line feed.
pub fn line_length(bytes: &[u8]) -> usize
    ensures value { result ≡ position_or_len is_line_end bytes.now }
    ensures within { result ≤ length bytes.now }
{
    match memchr(b'\n', bytes) {
        Some(at) => at,
        None => bytes.len(),
    }
}

/// The length of the string that the bytes begin with, in bytes, with both of its quotes; `None` if
/// the string does not end. The first byte counts as the opening `"`, whatever it is.
pub fn quoted_length(bytes: &[u8]) -> Option<usize>
    ensures value { result ≡ quoted_from bytes.now }
    ensures within { IfSome result (λ n. (2 ≤ n) × (n ≤ length bytes.now)) }
{
    if bytes.is_empty() {
        return None;
    }
    match memchr(b'"', &bytes[1..]) {
        Some(at) => Some(at + 2),
        None => None,
    }
}

// The number of bytes from behind the opening `(*` to the end of the comment.
fn open_comment(bytes: &[u8]) -> Option<usize>
    ensures value { result ≡ comment_from 0 1 0 bytes.now }
    ensures within { IfSome result (λ n. n ≤ length bytes.now) }
{
    let mut skip = false;
    let mut depth: usize = 1;
    for i in 0..bytes.len() {
        let byte = bytes[i];
        let next = byte_at(bytes, i + 1);
        if skip {
            skip = false;
        } else if byte == b'*' && next == b')' {
            if depth == 1 {
                return Some(i + 2);
            }
            depth -= 1;
            skip = true;
        } else if byte == b'(' && next == b'*' {
            depth += 1;
            skip = true;
        }
    }
    None
}

/// The length of the comment that the bytes begin with, in bytes, with its `(*` and its `*)`;
/// `None` if the comment does not end. Comments nest. The first two bytes count as the opening
/// `(*`, whatever they are.
pub fn comment_length(bytes: &[u8]) -> Option<usize>
    ensures value { result ≡ comment_of bytes.now }
    ensures within { IfSome result (λ n. (2 ≤ n) × (n ≤ length bytes.now)) }
{
    if bytes.len() < 2 {
        return None;
    }
    match open_comment(&bytes[2..]) {
        Some(n) => Some(n + 2),
        None => None,
    }
}
