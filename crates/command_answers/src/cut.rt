//! A model and a test in one input.

ghost use Rattle.std.specs.Prelude.{◌≡◌, ◌≢◌, ℕ, ◌+◌, ◌<◌, ◌≤◌, length, slice_index};
ghost use Rattle.command_answers.specs.Cut.{IsInputCut};

use text_values::line_length;

// Where the line that begins at `start` ends.
fn line_end(bytes: &[u8], start: usize) -> usize
    requires { start < length bytes.now }
    ensures low { start ≤ result }
    ensures high { result ≤ length bytes.now }
    ensures inside { (k : ℕ) → start ≤ k → k < result → slice_index bytes.now k ≢ 10 }
    ensures ends { result < length bytes.now → slice_index bytes.now result ≡ 10 }
{
    let line = line_length(&bytes[start..]);
    start + line
}

/// The bytes before the first line that is exactly `.`, and those after it: all and none where
/// there is no such line.
pub fn cut_at_dot(bytes: &[u8]) -> (&[u8], &[u8])
    ensures { IsInputCut bytes.now result.0.now result.1.now }
{
    let mut start = 0;
    while start < bytes.len() {
        let end = line_end(bytes, start);
        if end == start + 1 && bytes[start] == b'.' {
            let after = (end + 1).min(bytes.len());
            return (&bytes[..start], &bytes[after..]);
        }
        start = end + 1;
    }
    (bytes, &[])
}
