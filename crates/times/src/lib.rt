//! Prints how long evaluations, benches and desks take, by its words. Without words it prints the
//! forms of its words and what needs no clock: how many jobs settle benches.
#![tactic(auto)]

mod benches;
mod desks;
mod pairs;
mod phases;
mod player;
mod suite;
mod tables;
mod timing;

use std::io;
use std::rt::{Clock, Files};
use std::sync::Wait;
use std::thread::Threads;

/// The forms of the words.
const FORMS: [&str; 3] = [
    "tests times [--phases] MODEL TEST MODEL TEST ..",
    "tests times suite MODEL .. over TEST ..",
    "tests times bench [times|workers]",
];

/// What the words ask for.
#[derive(Clone, Copy)]
enum Asked<'a> {
    /// The forms, and what needs no clock.
    Forms,
    /// How many jobs settle benches, and how many an edit takes.
    Jobs,
    /// How long that takes beside many nodes.
    Benches,
    /// How long desks take by their number of workers.
    Workers,
    /// How long a cell takes where all tests are evaluated under all models.
    Suite(&'a [String]),
    /// How the time of an evaluation is spent, for each pair of a model's file and a test's file.
    Phases(&'a [String]),
    /// How long an evaluation takes, for each pair.
    Pairs(&'a [String]),
}

/// What the words behind `bench` ask for.
fn asked_of_benches(words: &[String]) -> Asked<'_> {
    match words {
        [] => Asked::Jobs,
        [word, ..] => {
            match word.as_str() {
                "times" => Asked::Benches,
                "workers" => Asked::Workers,
                _ => Asked::Forms,
            }
        }
    }
}

/// What the words ask for.
fn asked_by(words: &[String]) -> Asked<'_> {
    let [first, rest @ ..] = words else {
        return Asked::Forms;
    };
    match first.as_str() {
        "bench" => asked_of_benches(rest),
        _ if rest.is_empty() => Asked::Forms,
        "suite" => Asked::Suite(rest),
        "--phases" => Asked::Phases(rest),
        _ => Asked::Pairs(words),
    }
}

/// Prints the forms of the words, and what needs no clock.
fn show_forms<R: Files + Clock + Print + AllocGlobal + Wait>(rt: &R) -> io::Result<()> {
    for form in FORMS {
        println!(rt; "{form}")?;
    }
    benches::show_jobs(rt)
}

/// Prints what is asked for.
fn show<R>(rt: &R, asked: Asked<'_>) -> io::Result<()>
where
    R: Files + Clock + Print + AllocGlobal + Wait + Threads + Copy + Send + Sync + Drop,
{
    match asked {
        Asked::Forms => show_forms(rt),
        Asked::Jobs => benches::show_jobs(rt),
        Asked::Benches => benches::show_times(rt),
        Asked::Workers => benches::show_workers(rt),
        Asked::Suite(paths) => suite::show_all(rt, paths),
        Asked::Phases(paths) => pairs::show_all(rt, paths, true),
        Asked::Pairs(paths) => pairs::show_all(rt, paths, false),
    }
}

/// Prints what the words ask for.
pub fn show_asked<R>(rt: &R, words: &[String]) -> io::Result<()>
where
    R: Files + Clock + Print + AllocGlobal + Wait + Threads + Copy + Send + Sync + Drop,
{
    show(rt, asked_by(words))
}
