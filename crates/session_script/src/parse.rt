//! What the words of a line ask for.

ghost use Rattle.std.specs.Prelude.{◌≡◌, IfOk, Some};
ghost use Rattle.session_script.specs.Requests.{is_word, word_at, alone, with_name, takes_number, with_number, dropped, with_two, by_count, request_of};
ghost use Rattle.session_script.specs.Words.{word_number};

use crate::request::{Names, Request, ScriptText};
use crate::words::number_of;
use std::alloc::{AllocError, Global};

fn is_word(text: &[u8], word: &str) -> bool
    ensures { result ≡ is_word text.now word.now }
{
    text == word.as_bytes()
}

// The word of this index, or the empty word.
fn word_at(words: &[ScriptText], index: usize) -> &[u8]
    ensures { result.now ≡ word_at words.now index }
{
    match words.get(index) {
        Some(word) => word.as_bytes(),
        None => &[],
    }
}

fn alone(command: &[u8]) -> Option<Request>
    ensures { result ≡ alone command.now }
{
    if is_word(command, "test") {
        Some(Request::PutTest)
    } else {
        None
    }
}

fn with_name(command: &[u8], name: ScriptText) -> Option<Request>
    ensures { result ≡ with_name command.now name }
{
    if is_word(command, "model") {
        Some(Request::PutModel { model: name })
    } else if is_word(command, "init") {
        Some(Request::SetInit { test: name })
    } else if is_word(command, "cond") {
        Some(Request::SetCondition { test: name })
    } else if is_word(command, "locations") {
        Some(Request::SetLocations { test: name })
    } else if is_word(command, "items") {
        Some(Request::Items { model: name })
    } else {
        None
    }
}

fn takes_number(command: &[u8]) -> bool
    ensures { result ≡ takes_number command.now }
{
    is_word(command, "thread")
        || is_word(command, "item")
        || is_word(command, "insert")
        || is_word(command, "remove")
}

fn with_number(command: &[u8], name: ScriptText, number: Option<u64>) -> Option<Request>
    ensures { result ≡ with_number command.now name number }
{
    match number {
        None => None,
        Some(number) => Some(numbered(command, name, number)),
    }
}

fn numbered(command: &[u8], name: ScriptText, number: u64) -> Request
    ensures { Some result ≡ with_number command.now name (Some number) }
{
    if is_word(command, "thread") {
        Request::SetThread {
            test: name,
            thread: number,
        }
    } else if is_word(command, "item") {
        Request::SetItem {
            model: name,
            item: number,
        }
    } else if is_word(command, "insert") {
        Request::InsertItem {
            model: name,
            before: number,
        }
    } else {
        Request::RemoveItem {
            model: name,
            item: number,
        }
    }
}

fn dropped(kind: &[u8], name: ScriptText) -> Option<Request>
    ensures { result ≡ dropped kind.now name }
{
    if is_word(kind, "test") {
        Some(Request::DropTest { test: name })
    } else if is_word(kind, "model") {
        Some(Request::DropModel { model: name })
    } else {
        None
    }
}

fn with_two(command: &[u8], first: ScriptText, second: ScriptText) -> Option<Request>
    ensures { result ≡ with_two command.now first second }
{
    if takes_number(command) {
        with_number(command, first, number_of(second.as_bytes()))
    } else if is_word(command, "drop") {
        dropped(first.as_bytes(), second)
    } else if is_word(command, "show") {
        Some(Request::Show {
            test: first,
            model: second,
        })
    } else if is_word(command, "counts") {
        Some(Request::Counts {
            test: first,
            model: second,
        })
    } else if is_word(command, "diff") {
        Some(Request::Difference { first, second })
    } else {
        None
    }
}

// A copy of the word of this index.
fn copy_at(alloc: Global, words: &[ScriptText], index: usize) -> Result<ScriptText, AllocError>
    ensures { IfOk result (λ t. t ≡ word_at words.now index) }
{
    Ok(ScriptText::new(Vec::from_slice(alloc, word_at(words, index))?))
}

fn by_count(alloc: Global, words: &[ScriptText]) -> Result<Option<Request>, AllocError>
    ensures { IfOk result (λ r. r ≡ by_count words.now) }
{
    let command = word_at(words, 0);
    if words.len() == 1 {
        Ok(alone(command))
    } else if words.len() == 2 {
        Ok(with_name(command, copy_at(alloc, words, 1)?))
    } else if words.len() == 3 {
        let first = copy_at(alloc, words, 1)?;
        let second = copy_at(alloc, words, 2)?;
        Ok(with_two(command, first, second))
    } else {
        Ok(None)
    }
}

fn table(alloc: Global, models: &[ScriptText]) -> Result<Request, AllocError>
    ensures { IfOk result (λ r. r ≡ Request.Table models.now) }
{
    Ok(Request::Table {
        models: Names::copied_from(alloc, models)?,
    })
}

/// What these words ask for, if they are a command. Errors: out of memory.
pub(crate) fn request_of(alloc: Global, words: &[ScriptText]) -> Result<Option<Request>, AllocError>
    ensures { IfOk result (λ r. r ≡ request_of words.now) }
{
    if !is_word(word_at(words, 0), "table") {
        by_count(alloc, words)
    } else if 1 < words.len() {
        Ok(Some(table(alloc, &words[1..])?))
    } else {
        Ok(None)
    }
}
