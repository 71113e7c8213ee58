//! Prints the table, the difference and the refusal over files that `docs/USING.md` shows.

use command_answers::{
    NoListener, Report, TextFile, difference_report, refusal_lines, table_report,
};
use std::rt::Files;
use std::{fs, io};

const MODELS: &[&str] = &["sc.cat", "power.cat"];

const TESTS: &[&str] = &["MP.litmus", "MP+lwsync+addr.litmus", "R+lwsync+sync.litmus"];

const COMPARED: &[&str] = &["MP.litmus", "MP+lwsync+addr.litmus"];

const REFUSED: &[&str] = &["MP.litmus"];

/// The files of these paths.
fn files<'a, R: Files + AllocGlobal>(rt: &R, paths: &[&'a str]) -> io::Result<Vec<TextFile<'a>>> {
    let mut files = Vec::new(rt.alloc());
    for path in paths {
        let text = fs::read(rt, *path)?;
        files.push(TextFile { path: *path, text })?;
    }
    Ok(files)
}

fn show<R: Print + AllocGlobal>(rt: &R, text: Vec<u8>) -> io::Result<()> {
    match String::from_utf8(text) {
        Ok(text) => print!(rt; "{text}"),
        Err(_) => println!(rt; "no text"),
    }
}

fn show_report<R: Print + AllocGlobal>(rt: &R, report: Report) -> io::Result<()> {
    show(rt, report.text)?;
    show(rt, report.faults)
}

/// Prints a table of three tests, the difference of two models over two of them, and what is told
/// of a test that is given as a model.
pub fn show_all<R: Files + Print + AllocGlobal>(rt: &R) -> io::Result<()> {
    let models = files(rt, MODELS)?;
    let tests = files(rt, TESTS)?;
    show_report(
        rt,
        table_report(rt.alloc(), &models, &tests, &mut NoListener)?,
    )?;
    let tests = files(rt, COMPARED)?;
    show_report(
        rt,
        difference_report(rt.alloc(), &models, &tests, &mut NoListener)?,
    )?;
    for file in &files(rt, REFUSED)? {
        show(rt, refusal_lines(rt.alloc(), file, file)?)?;
    }
    Ok(())
}
