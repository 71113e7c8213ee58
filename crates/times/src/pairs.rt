//! How long one evaluation takes of a pair of a model's file and a test's file, and how that time
//! is spent.

use crate::phases::{Evaluation, PHASES, Phase};
use crate::timing::{forget_memory, show_memory, show_microseconds, time_of};
use std::rt::{Clock, Files};
use std::{fs, io};

/// Prints how long the quickest evaluation of a pair takes, and the most memory that is held
/// meanwhile.
fn show<R: Files + Clock + Print + AllocGlobal>(rt: &R, model: &str, test: &str) -> io::Result<()> {
    let model_text = fs::read(rt, model)?;
    let test_text = fs::read(rt, test)?;
    let evaluation = Evaluation {
        phase: Phase::Log,
        model: &model_text,
        test: &test_text,
    };
    forget_memory(rt);
    let timing = time_of(rt, &evaluation)?;
    print!(rt; "{test} under {model}: ")?;
    show_microseconds(rt, timing.least)?;
    show_memory(rt)?;
    let evaluations = timing.turns;
    let microseconds = timing.microseconds;
    println!(rt; " ({evaluations} evaluations in {microseconds} microseconds)")
}

/// Prints for each phase by how much the quickest evaluation takes longer for it.
fn show_phases<R: Files + Clock + Print + AllocGlobal>(
    rt: &R,
    model: &str,
    test: &str,
) -> io::Result<()> {
    let model_text = fs::read(rt, model)?;
    let test_text = fs::read(rt, test)?;
    println!(rt; "{test} under {model}:")?;
    let mut before = 0;
    for phase in PHASES {
        let evaluation = Evaluation {
            phase,
            model: &model_text,
            test: &test_text,
        };
        let least = time_of(rt, &evaluation)?.least;
        print!(rt; "  {}: ", phase.name())?;
        show_microseconds(rt, least.saturating_sub(before))?;
        println!(rt; "")?;
        before = least;
    }
    Ok(())
}

/// Prints how long an evaluation takes of each pair of a model's file and a test's file, or how
/// that time is spent.
pub fn show_all<R: Files + Clock + Print + AllocGlobal>(
    rt: &R,
    paths: &[String],
    by_phases: bool,
) -> io::Result<()> {
    for pair in paths.chunks_exact(2) {
        if let [model, test] = pair {
            if by_phases {
                show_phases(rt, model.as_str(), test.as_str())?;
            } else {
                show(rt, model.as_str(), test.as_str())?;
            }
        }
    }
    Ok(())
}
