//! Cuts a text into tokens.

ghost use Rattle.std.specs.Prelude.{◌≡◌, ◌<◌, ◌≤◌, length, IfOk};
ghost use Rattle.std.specs.List.{position_or_len};
ghost use Rattle.text_values.specs.Layout.{quoted_from, comment_of};
ghost use Rattle.cat_tokens.specs.Lexer.{is_name_byte, ends_name, is_layout, comment_lexeme, quoted_lexeme, sign_token, sign_lexeme, first_model_lexeme};

use crate::rule::CatRule;
use crate::token::{Mark, Sign, Token};
use crate::words::word_token;
use std::alloc::{AllocError, Global};
use text_values::{
    Name, byte_at, comment_length, is_blank, is_digit, is_letter, line_length, quoted_length,
};

/// What a text begins with: layout or a token, with its length in bytes.
#[derive(Drop)]
pub enum NextLexeme {
    /// Blanks, line ends or a comment: the length.
    Layout(usize),
    /// A token and its length.
    Lexeme(Token, usize),
}

fn is_layout(byte: u8) -> bool
    ensures { result ≡ is_layout byte }
{
    is_blank(byte) || byte == b'\n'
}

fn is_name_byte(byte: u8) -> bool
    ensures { result ≡ is_name_byte byte }
{
    is_letter(byte) || is_digit(byte) || byte == b'_' || byte == b'.' || byte == b'-'
}

fn name_length(text: &[u8]) -> usize
    ensures value { result ≡ position_or_len ends_name text.now }
    ensures within { result ≤ length text.now }
{
    for (i, byte) in text.iter().enumerate() {
        if !is_name_byte(*byte) {
            return i;
        }
    }
    text.len()
}

fn comment(text: &[u8]) -> NextLexeme
    ensures { result ≡ comment_lexeme (length text.now) (comment_of text.now) }
{
    match comment_length(text) {
        Some(n) => NextLexeme::Layout(n),
        None => NextLexeme::Lexeme(Token::Broken(CatRule::Syntax), text.len()),
    }
}

fn quoted(alloc: Global, text: &[u8]) -> Result<NextLexeme, AllocError>
    ensures { IfOk result (λ f. f ≡ quoted_lexeme text.now (quoted_from text.now)) }
{
    match quoted_length(text) {
        Some(n) => Ok(NextLexeme::Lexeme(Token::Quoted(Name::new(alloc, &text[1..n - 1])?), n)),
        None => Ok(NextLexeme::Lexeme(Token::Broken(CatRule::Syntax), text.len())),
    }
}

// The token of one byte.
#[tactic(auto, unfolding(crate::specs::Lexer::sign_token))]
fn sign_token(byte: u8) -> Token
    ensures { result ≡ sign_token byte }
{
    match byte {
        b'|' => Token::Sign(Sign::Bar),
        b';' => Token::Sign(Sign::Semicolon),
        b'\\' => Token::Sign(Sign::Backslash),
        b'&' => Token::Sign(Sign::Ampersand),
        b'+' => Token::Mark(Mark::Plus),
        b'?' => Token::Mark(Mark::Question),
        b'*' => Token::Star,
        b'~' => Token::Tilde,
        b'(' => Token::Open,
        b')' => Token::Close,
        b'[' => Token::OpenSquare,
        b']' => Token::CloseSquare,
        b'{' => Token::OpenBrace,
        b'}' => Token::CloseBrace,
        b'_' => Token::Underscore,
        b'0' => Token::Zero,
        b',' => Token::Comma,
        b'=' => Token::Equals,
        _ => Token::Broken(CatRule::Token),
    }
}

// What a text begins with that is neither a blank nor a word.
fn mark_or_sign(text: &[u8]) -> NextLexeme
    requires { 0 < length text.now }
    ensures { result ≡ sign_lexeme text.now }
{
    let byte = text[0];
    let next = byte_at(text, 1);
    if byte == b'+' && next == b'+' {
        return NextLexeme::Lexeme(Token::Broken(CatRule::Unsupported), 2);
    }
    if byte == b'^' && next == b'-' && byte_at(text, 2) == b'1' {
        return NextLexeme::Lexeme(Token::Mark(Mark::Inverse), 3);
    }
    NextLexeme::Lexeme(sign_token(byte), 1)
}

/// What the text begins with. Errors: out of memory.
#[tactic(auto, unfolding(crate::specs::Lexer::first_model_lexeme))]
pub fn first_lexeme(alloc: Global, text: &[u8]) -> Result<NextLexeme, AllocError>
    requires { 0 < length text.now }
    ensures { IfOk result (λ f. f ≡ first_model_lexeme text.now) }
{
    let byte = text[0];
    let next = byte_at(text, 1);
    if is_layout(byte) {
        return Ok(NextLexeme::Layout(1));
    }
    if is_letter(byte) {
        let n = name_length(text);
        return Ok(NextLexeme::Lexeme(word_token(alloc, &text[..n])?, n));
    }
    if byte == b'/' && next == b'/' {
        return Ok(NextLexeme::Layout(line_length(text)));
    }
    if byte == b'(' && next == b'*' {
        return Ok(comment(text));
    }
    if byte == b'"' {
        return quoted(alloc, text);
    }
    Ok(mark_or_sign(text))
}
