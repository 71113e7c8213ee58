//! Fields.

ghost use Rattle.std.specs.Prelude.{◌≡◌, ◌++◌, OnOk};
ghost use Rattle.escaped_texts.specs.Fields.{field_byte, field_text};

use std::alloc::AllocError;

#[tactic(auto, unfolding(crate::specs::Fields::field_byte))]
fn put_field_byte(text: &mut Vec<u8>, byte: u8) -> Result<(), AllocError>
    ensures { OnOk result (text.new.items ≡ text.old.items ++ field_byte byte) }
{
    match byte {
        b'\\' => text.extend_from_slice(b"\\\\"),
        b'\t' => text.extend_from_slice(b"\\t"),
        b'\n' => text.extend_from_slice(b"\\n"),
        b'\r' => text.extend_from_slice(b"\\r"),
        _ => text.extend_from_slice(&[byte]),
    }
}

/// Appends a field: a backslash, a tab, a line feed and a carriage return as `\\`, `\t`, `\n` and
/// `\r`, every other byte as it is. Errors: want of memory.
pub fn put_field(text: &mut Vec<u8>, bytes: &[u8]) -> Result<(), AllocError>
    ensures { OnOk result (text.new.items ≡ text.old.items ++ field_text bytes.now) }
{
    for byte in bytes {
        put_field_byte(text, *byte)?;
    }
    Ok(())
}
