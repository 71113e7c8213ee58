//! The words of the language that are not names.

ghost use Rattle.std.specs.Prelude.{◌≡◌, IfOk};
ghost use Rattle.std.specs.Str.{bytes_eq};
ghost use Rattle.cat_tokens.specs.Words.{item_word, part_word, is_definition_word, is_other_word, word_token};

use crate::rule::CatRule;
use crate::token::Token;
use std::alloc::{AllocError, Global};
use text_values::{CheckWord, Name, byte_at};

// Whether a text has these bytes.
#[inline(never)]
fn has_bytes(text: &[u8], word: &[u8]) -> bool
    ensures { result ≡ bytes_eq text.now word.now }
{
    text == word
}

// Whether a text is this word. Lengths and first bytes are compared where it is called, as most
// words differ there.
#[inline(always)]
fn is_word(text: &[u8], word: &[u8]) -> bool
    ensures { result ≡ bytes_eq text.now word.now }
{
    if text.len() != word.len() {
        return false;
    }
    if byte_at(text, 0) != byte_at(word, 0) {
        return false;
    }
    has_bytes(text, word)
}

// Whether it is a word of definitions that models may not use here.
#[tactic(auto, unfolding(crate::specs::Words::is_definition_word))]
fn is_definition_word(text: &[u8]) -> bool
    ensures { result ≡ is_definition_word text.now }
{
    if is_word(text, b"procedure") {
        return true;
    }
    if is_word(text, b"call") {
        return true;
    }
    if is_word(text, b"enum") {
        return true;
    }
    if is_word(text, b"match") {
        return true;
    }
    if is_word(text, b"try") {
        return true;
    }
    if is_word(text, b"fold") {
        return true;
    }
    if is_word(text, b"fun") {
        return true;
    }
    if is_word(text, b"function") {
        return true;
    }
    if is_word(text, b"instructions") {
        return true;
    }
    false
}

// Whether it is another word that models may not use here.
#[tactic(auto, unfolding(crate::specs::Words::is_other_word))]
fn is_other_word(text: &[u8]) -> bool
    ensures { result ≡ is_other_word text.now }
{
    if is_word(text, b"with") {
        return true;
    }
    if is_word(text, b"from") {
        return true;
    }
    if is_word(text, b"in") {
        return true;
    }
    if is_word(text, b"begin") {
        return true;
    }
    if is_word(text, b"end") {
        return true;
    }
    if is_word(text, b"forall") {
        return true;
    }
    if is_word(text, b"do") {
        return true;
    }
    if is_word(text, b"undefined_unless") {
        return true;
    }
    if is_word(text, b"requires") {
        return true;
    }
    if is_word(text, b"default") {
        return true;
    }
    false
}

// The token of a word that begins an item.
#[tactic(auto, unfolding(crate::specs::Words::item_word))]
fn item_word(text: &[u8]) -> Option<Token>
    ensures { result ≡ item_word text.now }
{
    if is_word(text, b"let") {
        return Some(Token::Let);
    }
    if is_word(text, b"acyclic") {
        return Some(Token::Check(CheckWord::Acyclic));
    }
    if is_word(text, b"irreflexive") {
        return Some(Token::Check(CheckWord::Irreflexive));
    }
    if is_word(text, b"empty") {
        return Some(Token::Check(CheckWord::Empty));
    }
    if is_word(text, b"flag") {
        return Some(Token::Flag);
    }
    if is_word(text, b"show") {
        return Some(Token::Show);
    }
    if is_word(text, b"unshow") {
        return Some(Token::Unshow);
    }
    if is_word(text, b"include") {
        return Some(Token::Include);
    }
    None
}

// The token of a word within an item.
#[tactic(auto, unfolding(crate::specs::Words::part_word))]
fn part_word(text: &[u8]) -> Option<Token>
    ensures { result ≡ part_word text.now }
{
    if is_word(text, b"rec") {
        return Some(Token::Rec);
    }
    if is_word(text, b"and") {
        return Some(Token::And);
    }
    if is_word(text, b"as") {
        return Some(Token::As);
    }
    None
}

/// The token of a word: a keyword, a keyword that is not supported, or a name.
pub fn word_token(alloc: Global, text: &[u8]) -> Result<Token, AllocError>
    ensures { IfOk result (λ t. t ≡ word_token text.now) }
{
    if let Some(token) = item_word(text) {
        return Ok(token);
    }
    if let Some(token) = part_word(text) {
        return Ok(token);
    }
    if is_definition_word(text) || is_other_word(text) {
        return Ok(Token::Broken(CatRule::Unsupported));
    }
    Ok(Token::Name(Name::new(alloc, text)?))
}
