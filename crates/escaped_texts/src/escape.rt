//! A text of anyone, as it stands in a page.

ghost use Rattle.std.specs.Prelude.{◌≡◌, ◌++◌, OnOk};
ghost use Rattle.escaped_texts.specs.Escaped.{escaped_byte, escaped};

use std::alloc::AllocError;

#[tactic(auto, unfolding(crate::specs::Escaped::escaped_byte))]
fn put_escaped_byte(text: &mut Vec<u8>, byte: u8) -> Result<(), AllocError>
    ensures { OnOk result (text.new.items ≡ text.old.items ++ escaped_byte byte) }
{
    match byte {
        b'&' => text.extend_from_slice(b"&amp;"),
        b'<' => text.extend_from_slice(b"&lt;"),
        b'>' => text.extend_from_slice(b"&gt;"),
        b'"' => text.extend_from_slice(b"&quot;"),
        b'\'' => text.extend_from_slice(b"&#39;"),
        b'\t' | b'\n' | 32..=126 => text.extend_from_slice(&[byte]),
        _ => text.extend_from_slice(b"?"),
    }
}

/// Appends a text for a place between tags or in the value of an attribute: `&`, `<`, `>` and both
/// quotes as entities, and a byte that is neither printable ASCII nor a tab nor a line feed as `?`.
/// Errors: want of memory.
pub fn put_escaped(text: &mut Vec<u8>, bytes: &[u8]) -> Result<(), AllocError>
    ensures { OnOk result (text.new.items ≡ text.old.items ++ escaped bytes.now) }
{
    for byte in bytes {
        put_escaped_byte(text, *byte)?;
    }
    Ok(())
}
