//! The tokens of a text, by the part that they stand in.

ghost use Rattle.std.specs.Prelude.{◌≡◌, ◌<◌, ◌≤◌, length, take, drop, slice_index, IfOk};
ghost use Rattle.std.specs.List.{position_or_len};
ghost use Rattle.litmus_tokens.specs.Lexer.{is_not_ascii, is_space, ends_raw, is_word_byte, ends_word, ends_digits, begins_comment, gap_from, raw_from, comment_lexeme, raw_lexeme, quoted_lexeme, line_lexeme, word_lexeme, number_lexeme, minus_lexeme, significant, mark_of, sign_lexeme, plain_lexeme, head_lexeme, first_lexeme};
ghost use Rattle.text_values.specs.Layout.{is_line_end, quoted_from, comment_of};

use crate::rule::LitmusRule;
use crate::stage::Stage;
use crate::token::{Mark, Token};
use memchr::memchr;
use std::alloc::{AllocError, Global};
use text_values::{
    Name, byte_at, comment_length, is_blank, is_digit, is_letter, line_length, quoted_length,
};

/// What a text begins with: layout or a token, with its length in bytes.
#[derive(Drop)]
pub enum NextLexeme {
    /// Blanks, line ends or a comment: the length.
    Layout(usize),
    /// A token and its length.
    Lexeme(Token, usize),
}

fn is_word_byte(byte: u8) -> bool
    ensures { result ≡ is_word_byte byte }
{
    is_letter(byte) || is_digit(byte) || byte == b'_'
}

fn is_not_ascii(byte: u8) -> bool
    ensures { result ≡ is_not_ascii byte }
{
    byte >= 128
}

// Whether a byte is a blank or a line end.
fn is_space(byte: u8) -> bool
    ensures { result ≡ is_space byte }
{
    is_blank(byte) || byte == b'\n'
}

// Whether a byte, with the one behind it, ends a word of the two that a text begins with.
fn ends_raw(byte: u8, next: u8) -> bool
    ensures { result ≡ ends_raw byte next }
{
    is_space(byte) || is_not_ascii(byte) || (byte == b'(' && next == b'*')
}

fn begins_comment(text: &[u8]) -> bool
    ensures { result ≡ begins_comment text.now }
{
    byte_at(text, 0) == b'(' && byte_at(text, 1) == b'*'
}

fn word_length(text: &[u8]) -> usize
    ensures value { result ≡ position_or_len ends_word text.now }
    ensures within { result ≤ length text.now }
{
    for (i, byte) in text.iter().enumerate() {
        if !is_word_byte(*byte) {
            return i;
        }
    }
    text.len()
}

fn digits_length(text: &[u8]) -> usize
    ensures value { result ≡ position_or_len ends_digits text.now }
    ensures within { result ≤ length text.now }
{
    for (i, byte) in text.iter().enumerate() {
        if !is_digit(*byte) {
            return i;
        }
    }
    text.len()
}

// How long the text is, up to a byte that is not ASCII.
fn ascii_length(text: &[u8]) -> usize
    ensures value { result ≡ position_or_len is_not_ascii text.now }
    ensures within { result ≤ length text.now }
{
    for (i, byte) in text.iter().enumerate() {
        if is_not_ascii(*byte) {
            return i;
        }
    }
    text.len()
}

// How long a word is that ends before a blank, a line end, a comment or a byte that is not ASCII.
fn raw_length(text: &[u8]) -> usize
    ensures value { result ≡ raw_from 0 text.now }
    ensures within { result ≤ length text.now }
{
    for (i, byte) in text.iter().enumerate() {
        if ends_raw(*byte, byte_at(text, i + 1)) {
            return i;
        }
    }
    text.len()
}

// How many bytes of blanks, line ends and comments the text begins with.
fn gap_length(text: &[u8]) -> usize
    ensures value { result ≡ gap_from 0 0 text.now }
    ensures within { result ≤ length text.now }
{
    let mut gap = 0;
    while gap < text.len() {
        let rest = &text[gap..];
        if is_space(byte_at(rest, 0)) {
            gap += 1;
        } else if begins_comment(rest) {
            match comment_length(rest) {
                Some(n) => gap += n,
                None => return gap,
            }
        } else {
            return gap;
        }
    }
    gap
}

// Digits without the zeros that lead them.
fn significant(digits: &[u8]) -> &[u8]
    ensures { result.now ≡ significant digits.now }
{
    for (i, digit) in digits.iter().enumerate() {
        if *digit != b'0' {
            return &digits[i..];
        }
    }
    &[]
}

fn comment_lexeme(text: &[u8]) -> NextLexeme
    ensures { result ≡ comment_lexeme (length text.now) (comment_of text.now) }
{
    match comment_length(text) {
        Some(n) => NextLexeme::Layout(n),
        None => NextLexeme::Lexeme(Token::Broken(LitmusRule::OpenComment), text.len()),
    }
}

// A word of the two that a text begins with.
fn raw_lexeme(alloc: Global, text: &[u8]) -> Result<NextLexeme, AllocError>
    ensures { IfOk result (λ f. f ≡ raw_lexeme text.now (raw_from 0 text.now)) }
{
    if byte_at(text, 0) == b'\n' {
        return Ok(NextLexeme::Layout(1));
    }
    let n = raw_length(text);
    let word = Name::new(alloc, &text[..n])?;
    Ok(NextLexeme::Lexeme(Token::Word(word), n))
}

fn quoted_lexeme(text: &[u8]) -> NextLexeme
    ensures { result ≡ quoted_lexeme (quoted_from text.now) }
{
    match quoted_length(text) {
        Some(n) => NextLexeme::Lexeme(Token::Text, n),
        None => NextLexeme::Lexeme(Token::Bad, 1),
    }
}

// A line that begins with a letter, which is skipped where it holds an equals sign.
fn line_lexeme(text: &[u8]) -> NextLexeme
    ensures { result ≡ line_lexeme (take (position_or_len is_line_end text.now) text.now) }
{
    let n = line_length(text);
    match memchr(b'=', &text[..n]) {
        Some(_) => NextLexeme::Lexeme(Token::Keyline, ascii_length(&text[..n])),
        None => NextLexeme::Lexeme(Token::Bad, 1),
    }
}

// A word, or a label with its colon where a cell begins.
fn word_lexeme(alloc: Global, stage: Stage, text: &[u8]) -> Result<NextLexeme, AllocError>
    ensures { IfOk result (λ f. f
        ≡ word_lexeme stage text.now (position_or_len ends_word text.now)) }
{
    let n = word_length(text);
    let name = Name::new(alloc, &text[..n])?;
    match stage {
        Stage::CellBegins => {
            let gap = gap_length(&text[n..]);
            if byte_at(text, n + gap) == b':' {
                return Ok(NextLexeme::Lexeme(Token::Label(name), n + gap + 1));
            }
            Ok(NextLexeme::Lexeme(Token::Word(name), n))
        }
        Stage::Header(0) => {
            if name.as_bytes() == b"P8".as_slice() {
                return Ok(NextLexeme::Lexeme(Token::Broken(LitmusRule::TooManyThreads), n));
            }
            Ok(NextLexeme::Lexeme(Token::Word(name), n))
        }
        _ => Ok(NextLexeme::Lexeme(Token::Word(name), n)),
    }
}

fn number_lexeme(alloc: Global, text: &[u8]) -> Result<NextLexeme, AllocError>
    ensures { IfOk result (λ f. f ≡ number_lexeme text.now (position_or_len ends_digits text.now)) }
{
    let n = digits_length(text);
    let digits = Name::new(alloc, significant(&text[..n]))?;
    Ok(NextLexeme::Lexeme(Token::Number(false, digits), n))
}

// A number with its minus sign.
fn minus_lexeme(alloc: Global, text: &[u8]) -> Result<NextLexeme, AllocError>
    requires { 0 < length text.now }
    ensures { IfOk result (λ f. f
        ≡ minus_lexeme (drop 1 text.now) (position_or_len ends_digits (drop 1 text.now))) }
{
    let digits = &text[1..];
    let n = digits_length(digits);
    let digits = Name::new(alloc, significant(&digits[..n]))?;
    Ok(NextLexeme::Lexeme(Token::Number(true, digits), n + 1))
}

fn mark_of(byte: u8) -> Option<Mark>
    ensures { result ≡ mark_of byte }
{
    match byte {
        b'{' => Some(Mark::OpenBrace),
        b'}' => Some(Mark::CloseBrace),
        b'[' => Some(Mark::OpenBracket),
        b']' => Some(Mark::CloseBracket),
        b'(' => Some(Mark::Open),
        b')' => Some(Mark::Close),
        b',' => Some(Mark::Comma),
        b';' => Some(Mark::Semicolon),
        b':' => Some(Mark::Colon),
        b'|' => Some(Mark::Bar),
        b'=' => Some(Mark::Equals),
        b'~' => Some(Mark::Tilde),
        _ => None,
    }
}

fn sign_lexeme(text: &[u8]) -> NextLexeme
    ensures { result ≡ sign_lexeme (slice_index text.now 0) (slice_index text.now 1) }
{
    let first = byte_at(text, 0);
    let next = byte_at(text, 1);
    if first == b'/' && next == b'\\' {
        return NextLexeme::Lexeme(Token::Mark(Mark::And), 2);
    }
    if first == b'\\' && next == b'/' {
        return NextLexeme::Lexeme(Token::Mark(Mark::Or), 2);
    }
    if first == b'=' && next == b'>' {
        return NextLexeme::Lexeme(Token::Mark(Mark::Implies), 2);
    }
    match mark_of(first) {
        Some(mark) => NextLexeme::Lexeme(Token::Mark(mark), 1),
        None => NextLexeme::Lexeme(Token::Bad, 1),
    }
}

fn plain_lexeme(alloc: Global, stage: Stage, text: &[u8]) -> Result<NextLexeme, AllocError>
    requires { 0 < length text.now }
    ensures { IfOk result (λ f. f ≡ plain_lexeme stage text.now) }
{
    let first = byte_at(text, 0);
    if first == b'\n' {
        return Ok(NextLexeme::Layout(1));
    }
    if is_letter(first) || first == b'_' {
        return word_lexeme(alloc, stage, text);
    }
    if is_digit(first) {
        return number_lexeme(alloc, text);
    }
    if first == b'-' && is_digit(byte_at(text, 1)) {
        return minus_lexeme(alloc, text);
    }
    Ok(sign_lexeme(text))
}

// What stands before the init block begins with: a line that is fresh holds nothing but blanks so
// far.
fn head_lexeme(alloc: Global, is_fresh: bool, text: &[u8]) -> Result<NextLexeme, AllocError>
    requires { 0 < length text.now }
    ensures { IfOk result (λ f. f ≡ head_lexeme is_fresh text.now) }
{
    let first = byte_at(text, 0);
    if is_fresh && is_letter(first) {
        return Ok(line_lexeme(text));
    }
    if first == b'"' {
        return Ok(quoted_lexeme(text));
    }
    plain_lexeme(alloc, Stage::Head, text)
}

/// What the text begins with. It depends on the stage, and before the init block on whether the
/// line has only blanks so far. Errors: out of memory.
#[tactic(auto, unfolding(crate::specs::Lexer::first_lexeme))]
pub fn first_lexeme(
    alloc: Global,
    stage: Stage,
    is_fresh: bool,
    text: &[u8],
) -> Result<NextLexeme, AllocError>
    requires { 0 < length text.now }
    ensures { IfOk result (λ f. f ≡ first_lexeme stage is_fresh text.now) }
{
    let first = byte_at(text, 0);
    if is_not_ascii(first) {
        return Ok(NextLexeme::Lexeme(Token::Broken(LitmusRule::NotAscii), 1));
    }
    if is_blank(first) {
        return Ok(NextLexeme::Layout(1));
    }
    if begins_comment(text) {
        return Ok(comment_lexeme(text));
    }
    match stage {
        Stage::Magic | Stage::Title => raw_lexeme(alloc, text),
        Stage::TitleEnd => {
            let token = if first == b'\n' {
                Token::LineEnd
            } else {
                Token::Bad
            };
            Ok(NextLexeme::Lexeme(token, 1))
        }
        Stage::Head => head_lexeme(alloc, is_fresh, text),
        _ => plain_lexeme(alloc, stage, text),
    }
}
