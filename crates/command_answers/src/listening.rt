//! Who hears of answers, and tells people of refusals and of the faults of models.

use crate::file::TextFile;
use crate::reading::refusal_lines;
use crate::told::model_fault;
use cat_syntax::Item;
use fault_texts::{
    MOST_SHOWN, model_fault_lines, put_fault_lines, put_rule, put_shown, rule_words,
};
use session_answers::{Progress, ProgressListener};
use session_script::number_of;
use std::alloc::{AllocError, Global};
use std::io::Write;
use text_values::{put_bytes, put_decimal};

/// What is said of a command of a session.
#[derive(Clone, Copy)]
pub struct HeardCommand<'h> {
    /// The number of its line in the script, from 1.
    pub line: u64,
    /// What of the line is at fault, if the command is refused for that: the name of a test or of
    /// a model, the number of a thread or of an item, or all its words.
    pub blamed: &'h [u8],
    /// Its text, where it has one.
    pub text: &'h [u8],
}

/// Who hears of answers, and in between how far a table is.
pub trait AnswerListener: ProgressListener {
    /// Hears of a command of a session, and of the answer that was written.
    fn hear(&mut self, command: HeardCommand<'_>, answer: &[u8]);

    /// Hears of the model that the command put or changed of which it heard last: its name, and its
    /// items with their numbers.
    fn hear_model(&mut self, name: &[u8], numbers: &[u64], items: &[Item]);

    /// Hears of a model's and a test's text that were answered, and whether one was refused.
    fn hear_texts(&mut self, model: &[u8], test: &[u8], is_refused: bool);
}

/// Does nothing with what it hears.
#[derive(Drop)]
pub struct NoListener;

impl AnswerListener for NoListener {
    fn hear(&mut self, _command: HeardCommand<'_>, _answer: &[u8]) {}

    fn hear_model(&mut self, _name: &[u8], _numbers: &[u64], _items: &[Item]) {}

    fn hear_texts(&mut self, _model: &[u8], _test: &[u8], _is_refused: bool) {}
}

impl ProgressListener for NoListener {
    fn is_due(&mut self) -> bool {
        false
    }

    fn hear_progress(&mut self, _progress: Progress) {}

    fn hear_end(&mut self) {}
}

// What an answer says of a refusal.
#[derive(Clone, Copy)]
struct Refusal {
    letter: u8,
    number: u8,
    offset: Option<usize>,
}

fn small_number(word: &[u8]) -> u8 {
    match number_of(word) {
        Some(number) if number < 256 => number as u8,
        _ => 0,
    }
}

fn offset_in(word: &[u8]) -> Option<usize> {
    match number_of(word) {
        Some(number) => Some(number as usize),
        None => None,
    }
}

// The refusal of which these are the words, behind the letter.
fn refusal_with(letter: u8, words: &[u8]) -> Refusal {
    for i in 0..words.len() {
        if words[i] == b' ' {
            let number = small_number(&words[..i]);
            let offset = offset_in(&words[i + 1..]);
            return Refusal {
                letter,
                number,
                offset,
            };
        }
    }
    let number = small_number(words);
    Refusal {
        letter,
        number,
        offset: None,
    }
}

// The refusal that an answer says, as `refused L9 7`.
fn refusal_in(answer: &[u8]) -> Option<Refusal> {
    let words = match answer.strip_prefix(b"refused ") {
        Some(words) => words,
        None => return None,
    };
    if words.len() < 2 {
        return None;
    }
    Some(refusal_with(words[0], &words[1..words.len() - 1]))
}

// Whether a word of the line is at fault: not where the bench is full or its numbers are spent.
fn blames_word(refusal: Refusal) -> bool {
    refusal.letter == b'Q' || refusal.number < 5
}

// What of a line is at fault, behind the rule: a word, of which at most so much is shown.
fn put_blamed(lines: &mut Vec<u8>, blamed: &[u8], refusal: Refusal) -> Result<(), AllocError> {
    if blamed.is_empty() || !blames_word(refusal) {
        return Ok(());
    }
    put_bytes(lines, b": `")?;
    put_shown(lines, &blamed[..blamed.len().min(MOST_SHOWN)])?;
    put_bytes(lines, b"`")
}

// What is told of a command that is refused for its line.
fn put_refused_line(
    lines: &mut Vec<u8>,
    name: &[u8],
    command: HeardCommand<'_>,
    refusal: Refusal,
) -> Result<(), AllocError> {
    let words = rule_words(refusal.letter, refusal.number).as_bytes();
    put_bytes(lines, name)?;
    put_bytes(lines, b", line ")?;
    put_decimal(lines, command.line)?;
    put_bytes(lines, b": ")?;
    put_rule(lines, refusal.letter, refusal.number, words)?;
    put_blamed(lines, command.blamed, refusal)?;
    put_bytes(lines, b"\n")
}

// What is told of a refusal of the command of that name.
fn put_refused_command(
    lines: &mut Vec<u8>,
    name: &[u8],
    command: HeardCommand<'_>,
    refusal: Refusal,
) -> Result<(), AllocError> {
    let words = rule_words(refusal.letter, refusal.number).as_bytes();
    match refusal.offset {
        Some(offset) => put_fault_lines(
            lines,
            name,
            command.text,
            refusal.letter,
            refusal.number,
            words,
            offset,
        ),
        None => put_refused_line(lines, name, command, refusal),
    }
}

// How the command of that number is called.
fn put_command(lines: &mut Vec<u8>, number: u64) -> Result<(), AllocError> {
    put_bytes(lines, b"command ")?;
    put_decimal(lines, number)
}

// What is told of the command of that number, from 1.
fn told_lines(
    alloc: Global,
    number: u64,
    command: HeardCommand<'_>,
    refusal: Refusal,
) -> Result<Vec<u8>, AllocError> {
    let mut name = Vec::new(alloc);
    put_command(&mut name, number)?;
    let mut lines = Vec::new(alloc);
    put_refused_command(&mut lines, &name, command, refusal)?;
    Ok(lines)
}

// What is told of the fault that the command of that number made, with these lines of the model.
fn made_lines(alloc: Global, number: u64, fault: &[u8]) -> Result<Vec<u8>, AllocError> {
    let mut lines = Vec::new(alloc);
    put_command(&mut lines, number)?;
    put_bytes(&mut lines, b": ")?;
    put_bytes(&mut lines, fault)?;
    Ok(lines)
}

// What is told of a model's and a test's text: the refusal of one, or else the fault of the model.
fn text_lines(
    alloc: Global,
    model: &[u8],
    test: &[u8],
    is_refused: bool,
) -> Result<Vec<u8>, AllocError> {
    let model = TextFile {
        path: "model",
        text: Vec::from_slice(alloc, model)?,
    };
    if !is_refused {
        return model_fault(alloc, &model);
    }
    let test = TextFile {
        path: "test",
        text: Vec::from_slice(alloc, test)?,
    };
    refusal_lines(alloc, &model, &test)
}

/// Tells a writer of refused texts and commands, a command by its number from 1: the rule in words,
/// and where a text is refused its line, or else the line of the script and what is at fault. It
/// tells of the fault of a model too, in a session once
/// when a command makes it. How far a table is, it hands on. What cannot be told is left out.
#[derive(Drop)]
pub struct RefusalTeller<W, P> {
    alloc: Global,
    writer: W,
    progress: P,
    commands: u64,
    // The fault of the model that was put or changed last.
    fault: Vec<u8>,
}

impl<W: Write, P: ProgressListener> RefusalTeller<W, P> {
    /// Has heard of no command.
    pub fn new(alloc: Global, writer: W, progress: P) -> Self {
        RefusalTeller {
            alloc,
            writer,
            progress,
            commands: 0,
            fault: Vec::new(alloc),
        }
    }

    fn tell(&mut self, lines: Result<Vec<u8>, AllocError>) {
        if let Ok(lines) = lines {
            let _ = self.writer.write_all(&lines);
        }
    }
}

impl<W: Write, P: ProgressListener> AnswerListener for RefusalTeller<W, P> {
    fn hear(&mut self, command: HeardCommand<'_>, answer: &[u8]) {
        self.commands = self.commands.saturating_add(1);
        if let Some(refusal) = refusal_in(answer) {
            let lines = told_lines(self.alloc, self.commands, command, refusal);
            self.tell(lines);
        }
    }

    fn hear_model(&mut self, name: &[u8], numbers: &[u64], items: &[Item]) {
        let Ok(fault) = model_fault_lines(self.alloc, name, numbers, items) else {
            return;
        };
        if !fault.is_empty() && fault.as_slice() != self.fault.as_slice() {
            let lines = made_lines(self.alloc, self.commands, &fault);
            self.tell(lines);
        }
        self.fault = fault;
    }

    fn hear_texts(&mut self, model: &[u8], test: &[u8], is_refused: bool) {
        let lines = text_lines(self.alloc, model, test, is_refused);
        self.tell(lines);
    }
}

impl<W: Write, P: ProgressListener> ProgressListener for RefusalTeller<W, P> {
    fn is_due(&mut self) -> bool {
        self.progress.is_due()
    }

    fn hear_progress(&mut self, progress: Progress) {
        self.progress.hear_progress(progress);
    }

    fn hear_end(&mut self) {
        self.progress.hear_end();
    }
}
