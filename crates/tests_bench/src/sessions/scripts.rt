//! Runs each script of the list `scripts.txt` through the call that the program makes of its
//! standard input, with 0, 1, 2 and 4 workers, and prints a line for each: its name, whether the
//! output is the one that is wanted with each number of workers, and how many lines it has. The
//! first three are run again from sources and to sinks that fail at each call, and the first cut at
//! each byte.

use crate::sessions::run::{Ending, Setting, is_same, run, with_workers};
use command_answers::SessionFault;
use std::rt::Files;
use std::sync::Wait;
use std::thread::Threads;
use std::{fs, io};

/// The numbers of workers.
const WORKERS: [u64; 4] = [0, 1, 2, 4];

/// A script, and the output that is wanted.
#[derive(Drop)]
struct Case {
    name: String,
    script: Vec<u8>,
    wanted: Vec<u8>,
}

fn case_of<R: Files + AllocGlobal>(rt: &R, name: &str) -> io::Result<Case> {
    let script_path = format!(in rt.alloc(); "scripts/{name}.script")?;
    let wanted_path = format!(in rt.alloc(); "scripts/{name}.out")?;
    let name = format!(in rt.alloc(); "{name}")?;
    let script = fs::read(rt, script_path.as_str())?;
    let wanted = fs::read(rt, wanted_path.as_str())?;
    Ok(Case {
        name,
        script,
        wanted,
    })
}

/// Whether a line of the output refuses a command.
fn has_refusal(output: &[u8]) -> bool {
    let text = match str::from_utf8(output) {
        Ok(text) => text,
        Err(_) => return false,
    };
    for line in text.lines() {
        if line.starts_with("refused ") {
            return true;
        }
    }
    false
}

fn is_wanted(run: &Ending, wanted: &[u8]) -> bool {
    run.output.as_slice() == wanted && run.end == Ok(has_refusal(wanted))
}

fn count_lines(output: &[u8]) -> u64 {
    let mut count = 0u64;
    for byte in output {
        if *byte == b'\n' {
            count = count.saturating_add(1);
        }
    }
    count
}

fn show<R>(rt: &R, case: &Case) -> io::Result<()>
where
    R: AllocGlobal + Print + Wait + Threads + Copy + Drop + Send + Sync + 'static,
{
    let mut word = "as wanted";
    let mut lines = 0;
    for workers in WORKERS {
        let ending = run(rt, &case.script, with_workers(workers))?;
        lines = count_lines(&ending.output);
        if !is_wanted(&ending, &case.wanted) {
            word = "DIFFERS";
        }
    }
    println!(rt; "{}: {word}, {lines} lines", case.name)
}

/// Runs each front of a script with no worker and with one.
fn show_fronts<R>(rt: &R, case: &Case) -> io::Result<()>
where
    R: AllocGlobal + Print + Wait + Threads + Copy + Drop + Send + Sync + 'static,
{
    let mut word = "the same";
    for at in 0..case.script.len() {
        let alone = run(rt, &case.script[..at], with_workers(0))?;
        let helped = run(rt, &case.script[..at], with_workers(1))?;
        if !is_same(&alone, &helped) {
            word = "DIFFERENT";
        }
    }
    println!(rt;
        "{}, cut at each of its {} bytes: {word} with a worker and without",
        case.name,
        case.script.len()
    )
}

fn word_of(end: Result<bool, SessionFault>) -> &'static str {
    match end {
        Ok(false) => "done",
        Ok(true) => "refused",
        Err(SessionFault::Read) => "read",
        Err(SessionFault::Write) => "write",
        Err(SessionFault::Memory) => "memory",
        Err(SessionFault::Shared) => "shared",
    }
}

fn show_cut<R: Print>(rt: &R, case: &Case, run: &Ending, kind: &str, call: u64) -> io::Result<()> {
    let word = word_of(run.end);
    if case.wanted.starts_with(&run.output) {
        println!(rt;
            "{}, {kind} {call} fails: {word}, the first {} bytes",
            case.name,
            run.output.len()
        )
    } else {
        println!(rt; "{}, {kind} {call} fails: {word}, OTHER BYTES", case.name)
    }
}

// Runs a script where a call fails, with no worker and with four.
fn show_failure<R>(rt: &R, case: &Case, setting: Setting, kind: &str, call: u64) -> io::Result<()>
where
    R: AllocGlobal + Print + Wait + Threads + Copy + Drop + Send + Sync + 'static,
{
    let alone = run(rt, &case.script, setting)?;
    let helped = run(
        rt,
        &case.script,
        Setting {
            workers: 4,
            ..setting
        },
    )?;
    if !is_same(&alone, &helped) {
        return println!(rt;
            "{}, {kind} {call} fails: DIFFERENT with workers",
            case.name
        );
    }
    show_cut(rt, case, &alone, kind, call)
}

fn show_failures<R>(rt: &R, case: &Case) -> io::Result<()>
where
    R: AllocGlobal + Print + Wait + Threads + Copy + Drop + Send + Sync + 'static,
{
    for call in 0..5u64 {
        let setting = Setting {
            read: Some(call),
            ..with_workers(0)
        };
        show_failure(rt, case, setting, "read", call)?;
    }
    for call in 0..8u64 {
        let setting = Setting {
            write: Some(call),
            ..with_workers(0)
        };
        show_failure(rt, case, setting, "write", call)?;
    }
    Ok(())
}

fn show_cases<R>(rt: &R, names: &str) -> io::Result<()>
where
    R: AllocGlobal + Files + Print + Wait + Threads + Copy + Drop + Send + Sync + 'static,
{
    for name in names.lines() {
        show(rt, &case_of(rt, name)?)?;
    }
    Ok(())
}

fn show_failing<R>(rt: &R, names: &str) -> io::Result<()>
where
    R: AllocGlobal + Files + Print + Wait + Threads + Copy + Drop + Send + Sync + 'static,
{
    for name in names.lines().take(3) {
        show_failures(rt, &case_of(rt, name)?)?;
    }
    Ok(())
}

fn show_first<R>(rt: &R, names: &str) -> io::Result<()>
where
    R: AllocGlobal + Files + Print + Wait + Threads + Copy + Drop + Send + Sync + 'static,
{
    match names.lines().next() {
        Some(name) => show_fronts(rt, &case_of(rt, name)?),
        None => Ok(()),
    }
}

/// Answers each script, the first three from sources and to sinks that fail, and the first cut at
/// each byte.
pub fn show_all<R>(rt: &R) -> io::Result<()>
where
    R: AllocGlobal + Files + Print + Wait + Threads + Copy + Drop + Send + Sync + 'static,
{
    let names = fs::read_to_string(rt, "scripts/scripts.txt")?;
    show_cases(rt, names.as_str())?;
    show_failing(rt, names.as_str())?;
    show_first(rt, names.as_str())
}
