//! One cell of `from_scratch`, and the words of the command line.

use crate::outcomes::put_counts;
use cat_syntax::{ModelText, read_model};
use command_answers::{Drawn, Form, Pictures, ResultFormat, form_of};
use cut_spaces::{eval_cell, eval_suite};
use litmus_ppc::{Quantifier, Test, read_test};
use std::alloc::{AllocError, Global};
use text_values::{put_bytes, put_decimal};
use verdict::{Outcome, OutcomeResult};

/// Appends an outcome: its kind, its condition, its states and counts.
pub fn put_outcome(answer: &mut Vec<u8>, outcome: &Outcome) -> Result<(), AllocError> {
    let kind = match outcome.kind {
        Quantifier::Exists => b"Exists ".as_slice(),
        Quantifier::NotExists => b"NotExists ",
        Quantifier::Forall => b"Forall ",
    };
    put_bytes(answer, kind)?;
    put_bytes(answer, &outcome.condition)?;
    put_bytes(answer, b"\n")?;
    match &outcome.result {
        OutcomeResult::Evaluated(found) => {
            put_decimal(answer, found.states.len() as u64)?;
            put_bytes(answer, b" states, ")?;
            put_counts(answer, found)
        }
        OutcomeResult::Refused(_) => put_bytes(answer, b"refused"),
    }
}

/// Appends the outcome of a test under a model.
pub fn put_cell(
    alloc: Global,
    answer: &mut Vec<u8>,
    model: &[u8],
    test: &[u8],
) -> Result<(), AllocError> {
    match (read_model(alloc, model), read_test(alloc, test)) {
        (Ok(model), Ok(test)) => put_both(alloc, answer, &test, &model),
        _ => put_bytes(answer, b"refused"),
    }
}

/// Appends the outcome of a test under a model. Where a suite of the test under the model twice has
/// another one, it says so.
fn put_both(
    alloc: Global,
    answer: &mut Vec<u8>,
    test: &Test,
    model: &ModelText,
) -> Result<(), AllocError> {
    let outcome = eval_cell(alloc, test, model)?;
    put_outcome(answer, &outcome)?;
    let rows = eval_suite(alloc, std::slice::from_ref(test), &[model, model])?;
    for row in &rows {
        put_differences(answer, &outcome, row)?;
    }
    Ok(())
}

/// Appends a word for each outcome that is another one.
fn put_differences(
    answer: &mut Vec<u8>,
    outcome: &Outcome,
    others: &[Outcome],
) -> Result<(), AllocError> {
    for other in others {
        if !outcome.is_same(other) {
            put_bytes(answer, b"; a suite differs")?;
        }
    }
    Ok(())
}

/// The words of a text, which single blanks part: between two of them is the empty word.
fn words_of(alloc: Global, text: &str) -> Result<Vec<&str>, AllocError> {
    let mut words = Vec::new(alloc);
    for word in text.split(' ') {
        words.push(word)?;
    }
    Ok(words)
}

fn put_words(answer: &mut Vec<u8>, words: &[&str]) -> Result<(), AllocError> {
    for word in words {
        put_bytes(answer, b" ")?;
        put_bytes(answer, word.as_bytes())?;
    }
    Ok(())
}

fn put_files(
    answer: &mut Vec<u8>,
    command: &[u8],
    models: &[&str],
    tests: &[&str],
) -> Result<(), AllocError> {
    put_bytes(answer, command)?;
    put_words(answer, models)?;
    put_bytes(answer, b" over")?;
    put_words(answer, tests)
}

fn put_script(answer: &mut Vec<u8>, script: Option<&str>) -> Result<(), AllocError> {
    match script {
        Some(path) => {
            put_bytes(answer, b"of ")?;
            put_bytes(answer, path.as_bytes())?;
            put_bytes(answer, b" ")
        }
        None => Ok(()),
    }
}

fn put_flag(answer: &mut Vec<u8>, is_given: bool, name: &[u8]) -> Result<(), AllocError> {
    if is_given {
        put_bytes(answer, name)?;
    }
    Ok(())
}

fn put_drawn(answer: &mut Vec<u8>, drawn: Drawn) -> Result<(), AllocError> {
    match drawn {
        Drawn::Shown => put_bytes(answer, b", shown, "),
        Drawn::Forbidden => put_bytes(answer, b", forbidden, "),
        Drawn::All => put_bytes(answer, b", all, "),
    }
}

fn put_format(answer: &mut Vec<u8>, format: ResultFormat) -> Result<(), AllocError> {
    match format {
        ResultFormat::Plain => Ok(()),
        ResultFormat::Tab => put_bytes(answer, b", tab"),
        ResultFormat::Json => put_bytes(answer, b", json"),
    }
}

fn put_numbered(answer: &mut Vec<u8>, word: &[u8], number: u64) -> Result<(), AllocError> {
    put_bytes(answer, word)?;
    put_decimal(answer, number)
}

fn put_pictures(answer: &mut Vec<u8>, pictures: Pictures) -> Result<(), AllocError> {
    match pictures {
        Pictures::Graphs { most } => put_decimal(answer, most),
        Pictures::Graph { nth } => put_numbered(answer, b"graph ", nth),
        Pictures::Svg { nth } => put_numbered(answer, b"svg ", nth),
        Pictures::Svgs { most } => put_numbered(answer, b"svgs ", most),
    }
}

fn put_asked(answer: &mut Vec<u8>, form: Form<'_>) -> Result<(), AllocError> {
    match form {
        Form::Stream => put_bytes(answer, b"stream"),
        Form::Eval {
            model,
            test,
            is_json,
        } => {
            put_bytes(answer, b"eval ")?;
            put_bytes(answer, model.as_bytes())?;
            put_bytes(answer, b" ")?;
            put_bytes(answer, test.as_bytes())?;
            put_flag(answer, is_json, b", json")
        }
        Form::Table {
            models,
            tests,
            format,
        } => {
            put_files(answer, b"table", &models, &tests)?;
            put_format(answer, format)
        }
        Form::Diff {
            first,
            second,
            tests,
            format,
        } => {
            put_files(answer, b"diff", &[first, second], &tests)?;
            put_format(answer, format)
        }
        Form::Report {
            models,
            tests,
            is_all,
            most,
        } => {
            put_files(answer, b"report", &models, &tests)?;
            put_flag(answer, is_all, b", all")?;
            put_numbered(answer, b", up to ", most)
        }
        Form::Session { script, workers } => {
            put_bytes(answer, b"session ")?;
            put_script(answer, script)?;
            put_numbered(answer, b"with ", workers)
        }
        Form::Why {
            model,
            test,
            is_forbidden,
            is_deep,
        } => {
            put_files(answer, b"why", &[model], &[test])?;
            put_flag(answer, is_forbidden, b", forbidden")?;
            put_flag(answer, is_deep, b", deep")
        }
        Form::Watch {
            models,
            tests,
            workers,
            poll,
        } => {
            put_files(answer, b"watch", &models, &tests)?;
            put_numbered(answer, b" with ", workers)?;
            put_numbered(answer, b" by ", poll)
        }
        Form::Draw {
            model,
            test,
            drawn,
            pictures,
        } => {
            put_files(answer, b"draw", &[model], &[test])?;
            put_drawn(answer, drawn)?;
            put_pictures(answer, pictures)
        }
    }
}

fn put_form_of(alloc: Global, answer: &mut Vec<u8>, words: &[&str]) -> Result<(), AllocError> {
    match form_of(alloc, words) {
        Ok(form) => put_asked(answer, form),
        Err(_) => put_bytes(answer, b"usage"),
    }
}

/// Appends what the words of a text ask for.
pub fn put_form(alloc: Global, answer: &mut Vec<u8>, text: &[u8]) -> Result<(), AllocError> {
    match str::from_utf8(text) {
        Ok(text) => put_form_of(alloc, answer, &words_of(alloc, text)?),
        Err(_) => put_bytes(answer, b"no text"),
    }
}
