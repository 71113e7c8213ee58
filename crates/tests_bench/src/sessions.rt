//! Sessions of a running desk: scripts with a known answer, two workers that must work at once, and
//! a script that does not end. Each part begins with a line that names it.

mod gate;
mod hearing;
pub mod run;
mod scripts;

use bench_workers::NoGate;
use command_answers::{MemorySource, NoListener};
use gate::SharedMeeting;
use hearing::Hearing;
use run::{run_over, with_workers};
use std::io;
use std::rt::Files;
use std::sync::Wait;
use std::thread::Threads;
use tests_cases::streams::{Endless, word_of};

const SMALL: &[u8] =
    b"model sc\nacyclic po|rf|fr|co as sc\n.\ntest\nPPC MP\n{ 0:r2=x; 0:r4=y; 1:r2=y; 1:r4=x; }\nP0 | P1 ;\nli r1,1 | lwz r1,0(r2) ;\nstw r1,0(r2) | lwz r3,0(r4) ;\nli r3,1 | ;\nstw r3,0(r4) | ;\nexists (1:r1=1 /\\ 1:r3=0)\n.\ntest\nPPC CoWR\n{ 0:r2=x; }\nP0 ;\nli r1,1 ;\nstw r1,0(r2) ;\nlwz r3,0(r2) ;\nexists (0:r3=0)\n.\ntable sc\n";

fn last_line(output: &[u8]) -> &str {
    match str::from_utf8(output) {
        Ok(text) => text.lines().last().unwrap_or(""),
        Err(_) => "",
    }
}

/// The first of two workers that begins a job waits until the other has ended one.
fn show_meeting<R>(rt: &R) -> io::Result<()>
where
    R: AllocGlobal + Print + Threads + Wait + Copy + Drop + Send + Sync + 'static,
{
    let gate = SharedMeeting::new(rt.alloc())?;
    let mut source = MemorySource::failing_at(SMALL, None);
    let ending = run_over(rt, &mut source, with_workers(2), &gate, &mut NoListener)?;
    let counts = gate.last_counts(rt);
    let word = if counts.is_missed { "missed" } else { "met" };
    println!(rt;
        "two workers: {}, {}, {word}, {} claims begun, {} ended",
        word_of(ending.end),
        last_line(&ending.output),
        counts.begun,
        counts.ended
    )
}

fn show_endless<R>(rt: &R, workers: u64) -> io::Result<()>
where
    R: AllocGlobal + Print + Threads + Wait + Copy + Drop + Send + Sync + 'static,
{
    let setting = with_workers(workers);
    let ending = run_over(rt, &mut Endless::new(), setting, &NoGate, &mut NoListener)?;
    println!(rt;
        "a script that does not end, {workers} workers: {}, {} bytes",
        word_of(ending.end),
        ending.output.len()
    )
}

/// A listener hears how far the table is before the first jobs, that it ended, and of the one
/// model.
fn show_hearing<R>(rt: &R) -> io::Result<()>
where
    R: AllocGlobal + Print + Threads + Wait + Copy + Drop + Send + Sync + 'static,
{
    let mut hearing = Hearing::new();
    let mut source = MemorySource::failing_at(SMALL, None);
    let ending = run_over(rt, &mut source, with_workers(0), &NoGate, &mut hearing)?;
    println!(rt;
        "a listener: {}, heard {} times, last {} of {} cells, {} tables ended, {} models",
        word_of(ending.end),
        hearing.told,
        hearing.settled,
        hearing.cells,
        hearing.ended,
        hearing.models
    )
}

/// Prints each part.
pub fn show_all<R>(rt: &R) -> io::Result<()>
where
    R: AllocGlobal + Files + Print + Threads + Wait + Copy + Drop + Send + Sync + 'static,
{
    println!(rt; "# Scripts with a known answer")?;
    scripts::show_all(rt)?;
    println!(rt; "# Workers that meet, and a script without an end")?;
    show_meeting(rt)?;
    show_endless(rt, 0)?;
    show_endless(rt, 2)?;
    println!(rt; "# What a listener hears")?;
    show_hearing(rt)
}
