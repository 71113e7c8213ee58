//! Files of models and of tests.

ghost use Rattle.std.specs.Prelude.{◌≡◌, OnOk};
ghost use Rattle.command_answers.specs.Files.{file_name, model_stem, AddsFault};

use fault_texts::{count_behind, put_fault_lines, rule_words};
use std::alloc::AllocError;

/// A file of a model or of a test.
#[derive(Drop)]
pub struct TextFile<'a> {
    /// The path by which it was asked for.
    pub path: &'a str,
    /// Its first 65,537 bytes, or all.
    pub text: Vec<u8>,
}

fn file_name(path: &[u8]) -> &[u8]
    ensures { result.now ≡ file_name path.now }
{
    let start = path.len() - count_behind(path, b'/');
    &path[start..]
}

/// The name by which a model of this path is called: the last part of the path, without `.cat`.
pub fn model_stem(path: &[u8]) -> &[u8]
    ensures { result.now ≡ model_stem path.now }
{
    let name = file_name(path);
    match name.strip_suffix(b".cat") {
        Some(stem) => stem,
        None => name,
    }
}

/// Appends the lines of a refused file: its path, the line and the column of the fault, both from
/// 1, the letter and the number of the rule with its words, what is found there, and the line with
/// a mark. Errors: want of memory.
pub fn put_fault(
    lines: &mut Vec<u8>,
    file: &TextFile<'_>,
    letter: u8,
    number: u8,
    offset: usize,
) -> Result<(), AllocError>
    ensures { OnOk result (AddsFault lines.old.items lines.new.items file.now.path.now
        file.now.text.items letter number offset) }
{
    let words = rule_words(letter, number).as_bytes();
    put_fault_lines(
        lines,
        file.path.as_bytes(),
        &file.text,
        letter,
        number,
        words,
        offset,
    )
}
