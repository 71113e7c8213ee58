//! What is answered to a line: a word, and a number where one belongs to it.

use memo_core::claims::Finish;
use std::io;

/// The answer to a line.
#[derive(Clone, Copy)]
pub struct Answer {
    pub word: &'static str,
    pub number: Option<u64>,
}

/// A word alone.
pub fn told(word: &'static str) -> Answer {
    Answer { word, number: None }
}

/// A word with a number behind it.
pub fn counted(word: &'static str, number: u64) -> Answer {
    Answer {
        word,
        number: Some(number),
    }
}

/// What became of a return.
pub fn finished(finish: &Finish) -> Answer {
    match finish {
        Finish::Unknown => told("unknown"),
        Finish::Stale(None) => told("stale"),
        Finish::Stale(Some(stamp)) => counted("stale", *stamp),
        Finish::Same => told("same"),
        Finish::Stored(_) => told("stored"),
    }
}

/// Prints an answer as a line.
pub fn print_answer<R: Print>(rt: &R, answer: Answer) -> io::Result<()> {
    let word = answer.word;
    match answer.number {
        Some(number) => println!(rt; "{word} {number}"),
        None => println!(rt; "{word}"),
    }
}
