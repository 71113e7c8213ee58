//! The words behind a command, as options and paths in any order.

ghost use Rattle.std.specs.Prelude.{◌≡◌, None, IfOk, OnOk};
ghost use Rattle.command_line.specs.Words.{borrowed_words, words_of, is_path, with_option, flag_or_number, after_word, no_words, words_given};
ghost use Rattle.command_line.specs.Options.{flag_of};

use crate::option::{
    GivenOption, OptionName, awaiting_of, flag_of, has_option, number_in, numbered, setting_of,
};
use std::alloc::{AllocError, Global};

/// What words say.
#[derive(Drop)]
pub struct GivenWords<'a> {
    /// In the order in which they stand.
    pub options: Vec<GivenOption>,
    /// The option whose number the next word is.
    pub awaiting: Option<OptionName>,
    /// The paths before `--`.
    pub paths: Vec<&'a str>,
    /// The paths behind it.
    pub last_paths: Vec<&'a str>,
}

fn is_path(word: &str) -> bool
    ensures { result ≡ is_path word.now }
{
    let bytes = word.as_bytes();
    !(bytes.len() > 1 && bytes[0] == b'-')
}

// Adds an option, which is unknown where it is there already.
fn add_option(options: &mut Vec<GivenOption>, option: GivenOption) -> Result<(), AllocError>
    ensures { OnOk result (options.new.items ≡ with_option options.old.items option) }
{
    if has_option(options, option.name) {
        options.push(numbered(OptionName::Unknown, None))?;
    } else {
        options.push(option)?;
    }
    Ok(())
}

fn add_flag(given: &mut GivenWords<'_>, word: &str) -> Result<(), AllocError>
    requires { given.old.awaiting ≡ None }
    ensures { OnOk result (words_of given.new
        ≡ flag_or_number (words_of given.old) word.now (flag_of word.now)) }
{
    match flag_of(word) {
        Some(name) => add_option(&mut given.options, GivenOption { name, number: 0 }),
        None => match awaiting_of(word) {
            Some(name) => {
                given.awaiting = Some(name);
                Ok(())
            }
            None => add_option(&mut given.options, setting_of(word)),
        },
    }
}

fn add_word<'a>(given: &mut GivenWords<'a>, word: &'a str) -> Result<(), AllocError>
    ensures { OnOk result (words_of given.new ≡ after_word (words_of given.old) word.now) }
{
    match given.awaiting {
        Some(name) => {
            given.awaiting = None;
            add_option(
                &mut given.options,
                numbered(name, number_in(word.as_bytes())),
            )
        }
        None => {
            if has_option(&given.options, OptionName::Dashes) {
                given.last_paths.push(word)?;
                Ok(())
            } else if is_path(word) {
                given.paths.push(word)?;
                Ok(())
            } else {
                add_flag(given, word)
            }
        }
    }
}

fn no_words<'a>(alloc: Global) -> GivenWords<'a>
    ensures { words_of result ≡ no_words }
{
    GivenWords {
        options: Vec::new(alloc),
        awaiting: None,
        paths: Vec::new(alloc),
        last_paths: Vec::new(alloc),
    }
}

/// What these words say. Errors: want of memory.
pub fn words_given<'a>(alloc: Global, words: &[&'a str]) -> Result<GivenWords<'a>, AllocError>
    ensures { IfOk result (λ g. words_of g ≡ words_given (borrowed_words words.now)) }
{
    let mut given = no_words(alloc);
    for word in words {
        add_word(&mut given, *word)?;
    }
    Ok(given)
}
