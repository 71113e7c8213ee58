//! Appends numbers, bytes and separators to a text.

ghost use Rattle.std.specs.Prelude.{◌≡◌, ◌++◌, decimal, OnOk};
ghost use Rattle.text_values.specs.Joined.{separation};

use itoa::Buffer;
use std::alloc::AllocError;

/// Appends the decimal digits of a number, with no leading zero. Errors: out of memory.
pub fn put_decimal(text: &mut Vec<u8>, n: u64) -> Result<(), AllocError>
    ensures { OnOk result (text.new.items ≡ text.old.items ++ decimal n) }
{
    let mut buffer = Buffer::new();
    text.extend_from_slice(buffer.format(n).as_bytes())
}

/// Appends bytes. Errors: out of memory.
pub fn put_bytes(text: &mut Vec<u8>, bytes: &[u8]) -> Result<(), AllocError>
    ensures { OnOk result (text.new.items ≡ text.old.items ++ bytes.now) }
{
    text.extend_from_slice(bytes)
}

/// Appends the separator that stands before the part of this index in a list: nothing before the
/// first part (index 0), `separator` before each later one. Errors: out of memory.
pub fn put_between(text: &mut Vec<u8>, separator: &[u8], index: usize) -> Result<(), AllocError>
    ensures { OnOk result (text.new.items ≡ text.old.items ++ separation separator.now index) }
{
    if index == 0 {
        Ok(())
    } else {
        put_bytes(text, separator)
    }
}
