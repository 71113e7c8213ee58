//! The meanings of words and of digits.

ghost use Rattle.std.specs.Prelude.{◌≡◌, ◌<◌, min, IfSome};
ghost use Rattle.litmus_tokens.specs.Words.{decimal, int_of, are_digits, is_plain, register_of, is_filter, ends_table, names_column, is_printable, are_printable, is_test_name};

use text_values::is_digit;

/// The number that decimal digits spell, or the greatest `usize` if that number is greater.
pub fn decimal(digits: &[u8]) -> usize
    ensures { result ≡ min (decimal digits.now) 18446744073709551615 }
{
    let mut n: usize = 0;
    for digit in digits {
        n = n
            .saturating_mul(10)
            .saturating_add(usize::from(digit.saturating_sub(b'0')));
    }
    n
}

/// The signed number of 32 bits that a sign and digits spell, or `None` if it does not fit.
pub fn signed_number(is_negative: bool, digits: &[u8]) -> Option<i32>
    ensures { result ≡ int_of is_negative digits.now }
{
    let n = decimal(digits);
    if is_negative {
        if n <= 2_147_483_648 {
            return Some((0 - n as i64) as i32);
        }
        return None;
    }
    if n < 2_147_483_648 {
        Some(n as i32)
    } else {
        None
    }
}

/// The number, from 0 to 31, of the register that a word names: `r0` to `r31` without leading
/// zeros.
pub fn register_number(word: &[u8]) -> Option<u8>
    ensures value { result ≡ register_of word.now }
    ensures bound { IfSome result (λ n. n < 32) }
{
    match word {
        [b'r', digits @ ..] => {
            let number = decimal(digits);
            if is_plain(digits) && number < 32 {
                Some(number as u8)
            } else {
                None
            }
        }
        _ => None,
    }
}

// Whether these are decimal digits without a leading zero; `0` alone counts.
fn is_plain(digits: &[u8]) -> bool
    ensures { result ≡ is_plain digits.now }
{
    match digits {
        [] => false,
        [first, others @ ..] => are_digits(digits) && (others.is_empty() || *first != b'0'),
    }
}

fn are_digits(bytes: &[u8]) -> bool
    ensures { result ≡ are_digits bytes.now }
{
    for byte in bytes {
        if !is_digit(*byte) {
            return false;
        }
    }
    true
}

/// Whether the word is `filter` or `final`, which begin parts of herd7's format that are not
/// supported.
pub fn is_filter(word: &[u8]) -> bool
    ensures { result ≡ is_filter word.now }
{
    word == b"filter".as_slice() || word == b"final".as_slice()
}

/// Whether the word is the name of the column of this number, as `P0`.
pub fn is_column(word: &[u8], number: usize) -> bool
    ensures { result ≡ names_column number word.now }
{
    match word {
        [b'P', digit] => usize::from(*digit).checked_sub(48) == Some(number),
        _ => false,
    }
}

fn is_printable(byte: u8) -> bool
    ensures { result ≡ is_printable byte }
{
    32 < byte && byte < 127
}

fn are_printable(bytes: &[u8]) -> bool
    ensures { result ≡ are_printable bytes.now }
{
    for byte in bytes {
        if !is_printable(*byte) {
            return false;
        }
    }
    true
}

/// Whether the bytes can name a test: 1 to 255 printable ASCII bytes, none of them a space.
pub fn is_test_name(word: &[u8]) -> bool
    ensures { result ≡ is_test_name word.now }
{
    !word.is_empty() && word.len() <= 255 && are_printable(word)
}

/// Whether the word begins the part behind the table: `locations`, `exists` or `forall`.
pub fn ends_table(word: &[u8]) -> bool
    ensures { result ≡ ends_table word.now }
{
    word == b"locations".as_slice() || word == b"exists".as_slice() || word == b"forall".as_slice()
}
