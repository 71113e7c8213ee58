//! Runs each input of the list `inputs.txt` through the call that the program makes of its standard
//! input, and prints a line for each: its name, whether the answer is the one that is wanted, how
//! many lines it has, and the last of them.

use command_answers::{MemorySink, MemorySource, SessionFault, eval_stream};
use std::rt::Files;
use std::{fs, io};

/// How an input is answered: the bytes, and whether a text was refused.
#[derive(Drop)]
struct Answer {
    text: Vec<u8>,
    is_refused: bool,
}

fn answer_to<R: AllocGlobal>(rt: &R, input: &[u8]) -> Result<Answer, SessionFault> {
    let mut source = MemorySource::failing_at(input, None);
    let mut sink = MemorySink::failing_at(Vec::new(rt.alloc()), None);
    let is_refused = eval_stream(rt, &mut source, &mut sink)?;
    match Vec::from_slice(rt.alloc(), sink.as_bytes()) {
        Ok(text) => Ok(Answer { text, is_refused }),
        Err(_) => Err(SessionFault::Memory),
    }
}

/// Whether this is the wanted answer. A text was refused where the answer begins so.
fn is_wanted(answer: &Answer, wanted: &[u8]) -> bool {
    answer.text.as_slice() == wanted && answer.is_refused == wanted.starts_with(b"refused ")
}

fn show<R: Files + Print + AllocGlobal>(rt: &R, name: &str) -> io::Result<()> {
    let input_path = format!(in rt.alloc(); "inputs/{name}.in")?;
    let wanted_path = format!(in rt.alloc(); "inputs/{name}.out")?;
    let input = fs::read(rt, input_path.as_str())?;
    let wanted = fs::read(rt, wanted_path.as_str())?;
    let answer = match answer_to(rt, &input) {
        Ok(answer) => answer,
        Err(fault) => return println!(rt; "{name}: fault: {fault}"),
    };
    let word = if is_wanted(&answer, &wanted) {
        "as wanted"
    } else {
        "DIFFERS"
    };
    let text = match String::from_utf8(answer.text) {
        Ok(text) => text,
        Err(_) => return println!(rt; "{name}: DIFFERS: not UTF-8"),
    };
    let count = text.lines().count();
    let last = text.lines().last().unwrap_or("");
    println!(rt; "{name}: {word}, {count} lines: {last}")
}

/// Answers each input.
pub fn show_all<R: Files + Print + AllocGlobal>(rt: &R) -> io::Result<()> {
    let names = fs::read_to_string(rt, "inputs/inputs.txt")?;
    for name in names.lines() {
        show(rt, name)?;
    }
    Ok(())
}
