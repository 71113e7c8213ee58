//! An author, workers and viewers in threads of their own. The author makes edits that are drawn
//! from a fixed seed, takes jobs, and loses them, returns them late or returns them twice. Each
//! viewer compares every cell that it sees with the evaluation from nothing of the texts after as
//! many edits as it sees. What is printed is the same whatever the schedule.

ghost use Rattle.std.specs.Thread.{IsSend};

mod author;
mod kept;
mod plan;
mod sight;
pub mod watch;

use crate::desks::{self, Example, Played};
use crate::played::{PlayedDesk, WatchedDesk};
use plan::EDITS;
pub use plan::Plan;
use std::rt::Clock;
use std::sync::Wait;
use std::thread::Threads;
use std::{io, thread};
use watch::Shared;

/// How many workers there are.
pub const WORKERS: u32 = 4;

const VIEWERS: u64 = 8;

/// Starts the viewers, each in a thread of its own, and plays the author. A viewer that does not
/// start is a fault. The desk is named twice, as what threads share and as the author's.
fn play_beside<R, S, D>(rt: &R, seen: &S, desk: &D, viewer: D::Viewer, shared: &Shared)
where
    R: AllocGlobal + Clock + Wait + Threads + Sync,
    S: WatchedDesk,
    D: PlayedDesk,
{
    let alloc = rt.alloc();
    thread::scope(
        thread::scope_env(),
        rt,
        |scope| -> ()
            requires { IsSend D.Done.row }
        {
            for number in 0..VIEWERS {
                let asks = number % 2 == 1;
                let started = scope.spawn(move || seen.watch(rt, alloc, asks, shared));
                if started.is_err() {
                    shared.add(1);
                }
            }
            shared.add(author::write(rt, alloc, desk, viewer, &shared.plan));
            shared.end();
        },
    );
}

/// Plays the author beside the viewers, and tells how many faults were found.
pub fn play<R, D>(rt: &R, desk: &D, viewer: D::Viewer, plan: Plan) -> u64
where
    R: AllocGlobal + Clock + Wait + Threads + Sync,
    D: PlayedDesk,
{
    let shared = Shared::new(plan);
    play_beside(rt, desk, desk, viewer, &shared);
    shared.faults()
}

/// Prints how many faults were found.
pub fn tell<R: Print>(rt: &R, played: Played) -> io::Result<()> {
    match played {
        Ok((answer, _tally)) => {
            let faults = answer?;
            println!(rt; "{EDITS} edits, {WORKERS} workers, {VIEWERS} viewers: {faults} faults")
        }
        Err(word) => println!(rt; "{word}"),
    }
}

/// Plays the plan, and prints how many faults were found.
pub fn show<R>(rt: &R) -> io::Result<()>
where
    R: Print + AllocGlobal + Clock + Wait + Threads + Copy + Send + Sync + Drop,
{
    let plan = plan::planned(rt.alloc())?;
    desks::play(rt, None, Example::Stress(plan))
}
