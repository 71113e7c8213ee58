//! The program of the tests. Without words it plays each part, behind a line that names the part's
//! crate. Else the first word names the part to play, and those behind it are the part's own.
#![tactic(auto)]

use std::rt::{Clock, Env, Files};
use std::sync::Wait;
use std::thread::Threads;
use std::{env, io};

/// The parts, by the names of their crates.
const PARTS: [&str; 6] = [
    "tests_layers",
    "tests_evaluation",
    "tests_plain",
    "tests_bench",
    "tests_calls",
    "times",
];

/// Plays the part of this name with its words.
fn play<R>(rt: &R, part: &str, words: &[String]) -> io::Result<()>
where
    R: Files + Clock + Print + AllocGlobal + Wait + Threads + Copy + Send + Sync + Drop + 'static,
{
    match part {
        "tests_layers" => tests_layers::show_all(rt),
        "tests_evaluation" => tests_evaluation::show_all(rt),
        "tests_plain" => tests_plain::show_all(rt),
        "tests_bench" if words.is_empty() => tests_bench::show_all(rt),
        "tests_bench" => tests_bench::play_files(rt, words),
        "tests_calls" => tests_calls::show_all(rt),
        "times" => times::show_asked(rt, words),
        _ => println!(rt; "no part has this name"),
    }
}

/// The words, behind the name of the program.
fn words_of<R: Env + AllocGlobal>(rt: &R) -> io::Result<Vec<String>> {
    let mut words = Vec::new(rt.alloc());
    for word in env::args(rt)? {
        words.push(word)?;
    }
    Ok(words)
}

fn run<R>(rt: &R) -> io::Result<()>
where
    R: Files
        + Env
        + Clock
        + Print
        + AllocGlobal
        + Wait
        + Threads
        + Copy
        + Send
        + Sync
        + Drop
        + 'static,
{
    let words = words_of(rt)?;
    if let [_, part, words @ ..] = words.as_slice() {
        return play(rt, part.as_str(), words);
    }
    for part in PARTS {
        println!(rt; "## {part}")?;
        play(rt, part, &[])?;
    }
    Ok(())
}

fn main(rt: HostRuntime) -> io::Result<()> {
    run(&rt)
}
