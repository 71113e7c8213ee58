//! Strings.

ghost use Rattle.std.specs.Prelude.{◌≡◌, ◌<◌, ◌++◌, ◌∷◌, [], OnOk};
ghost use Rattle.std.specs.List.{flat_map};
ghost use Rattle.escaped_texts.specs.Strings.{hex_digit, string_byte, string_text};

use std::alloc::AllocError;

fn hex_digit(n: u8) -> u8
    requires { n < 16 }
    ensures { result ≡ hex_digit n }
{
    if n < 10 { b'0' + n } else { b'a' + (n - 10) }
}

#[tactic(auto, unfolding(crate::specs::Strings::string_byte))]
fn put_string_byte(text: &mut Vec<u8>, byte: u8) -> Result<(), AllocError>
    ensures { OnOk result (text.new.items ≡ text.old.items ++ string_byte byte) }
{
    match byte {
        b'"' | b'\\' => text.extend_from_slice(&[b'\\', byte]),
        32..=126 => text.extend_from_slice(&[byte]),
        _ => {
            text.extend_from_slice(b"\\u00")?;
            text.extend_from_slice(&[hex_digit(byte / 16), hex_digit(byte % 16)])
        }
    }
}

fn put_string_bytes(text: &mut Vec<u8>, bytes: &[u8]) -> Result<(), AllocError>
    ensures { OnOk result (text.new.items ≡ text.old.items ++ flat_map string_byte bytes.now) }
{
    for byte in bytes {
        put_string_byte(text, *byte)?;
    }
    Ok(())
}

/// Appends a string of these bytes: a quote and a backslash behind a backslash, and each byte that
/// is not printable ASCII as `\u00` and two digits. So a byte over 126 is the character of that
/// number, whatever encoding the bytes are in. Errors: want of memory.
#[tactic(auto, unfolding(crate::specs::Strings::string_text))]
pub fn put_string(text: &mut Vec<u8>, bytes: &[u8]) -> Result<(), AllocError>
    ensures { OnOk result (text.new.items ≡ text.old.items ++ string_text bytes.now) }
{
    text.extend_from_slice(b"\"")?;
    put_string_bytes(text, bytes)?;
    text.extend_from_slice(b"\"")
}
