//! Bytes of a text: letters, digits, and the byte at an index.

ghost use Rattle.std.specs.Prelude.{◌≡◌, ◌<◌, length, slice_index};
ghost use Rattle.std.specs.Str.{bytes_eq};
ghost use Rattle.text_values.specs.Letters.{is_letter, is_digit};

/// Whether a byte is an ASCII letter.
pub fn is_letter(byte: u8) -> bool
    ensures { result ≡ is_letter byte }
{
    (b'A' <= byte && byte <= b'Z') || (b'a' <= byte && byte <= b'z')
}

/// Whether a byte is a decimal digit.
pub fn is_digit(byte: u8) -> bool
    ensures { result ≡ is_digit byte }
{
    b'0' <= byte && byte <= b'9'
}

/// The byte at an index, or 0 past the end.
pub fn byte_at(bytes: &[u8], index: usize) -> u8
    ensures value { result ≡ slice_index bytes.now index }
    ensures within { 0 < result → index < length bytes.now }
{
    if index < bytes.len() { bytes[index] } else { 0 }
}

/// Whether a text is this word. Lengths and first bytes are compared where it is called, as most
/// words differ there.
#[inline(always)]
pub fn is_word(text: &[u8], word: &[u8]) -> bool
    ensures { result ≡ bytes_eq text.now word.now }
{
    if text.len() != word.len() {
        return false;
    }
    if byte_at(text, 0) != byte_at(word, 0) {
        return false;
    }
    text == word
}
