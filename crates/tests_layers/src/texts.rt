//! Makes the edits that `texts.txt` lists, one a line, and answers what is asked between them: each
//! line is printed with its answer. The answers that are wanted were written by hand from what each
//! edit is to make.

pub mod answers;

use crate::print_answer;
use bench_texts::{Edit, EditFault, Texts};
use std::alloc::{AllocError, Global};
use std::rt::Files;
use std::{fs, io};
use tests_cases::{edits, text_of};

// Makes an edit, or answers why it is refused.
fn make_edit(alloc: Global, texts: &mut Texts, edit: &Edit, spent: bool) -> Result<(), EditFault> {
    let prepared = texts.prepare_unless_spent(alloc, edit, spent)?;
    texts.commit(prepared);
    Ok(())
}

// Makes an edit whose number is not spent, or answers why it is refused.
fn make(alloc: Global, texts: &mut Texts, edit: Edit) -> Result<(), EditFault> {
    let prepared = texts.prepare(alloc, edit)?;
    texts.commit(prepared);
    Ok(())
}

// Puts so many tests, named T0, T1 and so on, and answers as the last one is answered.
fn put_tests(alloc: Global, texts: &mut Texts, count: u64) -> Result<(), EditFault> {
    for number in 0..count {
        make(alloc, texts, edits::small_test(alloc, number)?)?;
    }
    Ok(())
}

// Puts so many models of one item, named M0, M1 and so on, and answers as the last one is answered.
fn put_models(alloc: Global, texts: &mut Texts, count: u64, text: &[u8]) -> Result<(), EditFault> {
    for number in 0..count {
        make(alloc, texts, edits::small_model(alloc, number, text)?)?;
    }
    Ok(())
}

// Answers an edit or a question about the texts.
fn answer_line(
    alloc: Global,
    texts: &mut Texts,
    answer: &mut Vec<u8>,
    question: &str,
    text: Vec<u8>,
) -> Result<(), AllocError> {
    let mut words = question.split(' ');
    let verb = words.next().unwrap_or("");
    let name = words.next().unwrap_or("");
    let number = words.next().unwrap_or("").parse::<u64>().unwrap_or(0);
    let made = match verb {
        "names" => return answers::put_names(answer, texts),
        "items" => return answers::put_items(alloc, answer, texts, name.as_bytes()),
        "printed" => return answers::put_printed(alloc, answer, texts, name.as_bytes()),
        "show" => return answers::put_test(alloc, answer, texts, name.as_bytes()),
        "reading" => return answers::put_reading(answer, texts, name.as_bytes()),
        "tests" => put_tests(alloc, texts, name.parse::<u64>().unwrap_or(0)),
        "models" => put_models(alloc, texts, name.parse::<u64>().unwrap_or(0), &text),
        "spent" => {
            let edit = edits::named(alloc, "test", name.as_bytes(), number, text)?;
            make_edit(alloc, texts, &edit, true)
        }
        _ => {
            let edit = edits::named(alloc, verb, name.as_bytes(), number, text)?;
            make_edit(alloc, texts, &edit, false)
        }
    };
    answers::put_result(answer, made)
}

fn show<R: Print + AllocGlobal>(rt: &R, texts: &mut Texts, line: &str) -> io::Result<()> {
    let (question, written) = line.split_once(" | ").unwrap_or((line, ""));
    let text = text_of(rt.alloc(), written)?;
    let mut answer = Vec::new(rt.alloc());
    answer_line(rt.alloc(), texts, &mut answer, question, text)?;
    println!(rt; "{line}")?;
    print_answer(rt, answer)
}

/// Makes each edit of the file, and answers each question.
pub fn show_all<R: Files + Print + AllocGlobal>(rt: &R) -> io::Result<()> {
    let list = fs::read_to_string(rt, "texts.txt")?;
    let mut texts = Texts::new(rt.alloc());
    for line in list.lines() {
        if line == "fresh bench" {
            texts = Texts::new(rt.alloc());
            println!(rt; "{line}")?;
        } else {
            show(rt, &mut texts, line)?;
        }
    }
    Ok(())
}
