//! Questions, as lines write them.

use bench_texts::Edit;
use cells::events::Event;
use std::alloc::{AllocError, Global};
use tests_cases::{edits, text_of};

/// A question: its words, and the text behind them. In front of it may stand a viewer's number and
/// a colon. The answer to a quiet one is not told.
#[derive(Clone, Copy)]
pub struct Question<'a> {
    pub viewer: usize,
    pub verb: &'a str,
    pub name: &'a str,
    pub number: u64,
    pub last: &'a str,
    pub written: &'a str,
    pub is_quiet: bool,
}

/// The viewer in front of a line, and the rest.
fn viewer_of(line: &str) -> (usize, &str) {
    match line.split_once(": ") {
        Some((viewer, rest)) => match viewer.parse::<usize>() {
            Ok(viewer) => (viewer, rest),
            Err(_) => (0, line),
        },
        None => (0, line),
    }
}

/// The question of a line.
pub fn question_of(line: &str) -> Question<'_> {
    let (viewer, line) = viewer_of(line);
    let (question, written) = line.split_once(" | ").unwrap_or((line, ""));
    let is_quiet = question.starts_with("quietly ");
    let question = question.strip_prefix("quietly ").unwrap_or(question);
    let mut words = question.split(' ');
    let verb = words.next().unwrap_or("");
    let name = words.next().unwrap_or("");
    let last = words.next().unwrap_or("");
    let number = match last.parse::<u64>() {
        Ok(number) => number,
        Err(_) => name.parse::<u64>().unwrap_or(0),
    };
    Question {
        viewer,
        verb,
        name,
        number,
        last,
        written,
        is_quiet,
    }
}

/// The edit that a question asks for.
pub fn edit_of(alloc: Global, question: &Question<'_>) -> Result<Edit, AllocError> {
    let text = text_of(alloc, question.written)?;
    edits::named(
        alloc,
        question.verb,
        question.name.as_bytes(),
        question.number,
        text,
    )
}

/// The event that a question asks for.
fn event_of(alloc: Global, question: &Question<'_>) -> Result<Event<Edit>, AllocError> {
    match question.verb {
        "claim" => Ok(Event::Claim),
        "return" => Ok(Event::Return(question.number)),
        "lose" => Ok(Event::Lose(question.number)),
        "renew" => Ok(Event::Renew),
        _ => Ok(Event::Edit(edit_of(alloc, question)?)),
    }
}

/// The events that questions ask for.
pub fn events_of(
    alloc: Global,
    questions: &[Question<'_>],
) -> Result<Vec<Event<Edit>>, AllocError> {
    let mut events = Vec::new(alloc);
    for question in questions {
        events.push(event_of(alloc, question)?)?;
    }
    Ok(events)
}
