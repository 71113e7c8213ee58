//! New desks, and what is played at them.

ghost use Rattle.std.specs.Prelude.{◌≡◌};

use crate::meeting::gate::Meeting;
use crate::meeting::{self, Puts, Setting};
use crate::played::PlayedDesk;
use crate::rows;
use crate::stress::{self, Plan};
use bench_instance::StampedTexts;
use bench_texts::{Edit, EditFault};
use bench_workers::{Gate, NoGate, Tally, with_workers};
use board::Board;
use desk::{BoardTexts, Desk, DeskSeed, Naming, OpenedDesk};
use std::alloc::AllocError;
use std::io;
use std::marker::Brand;
use std::rt::Clock;
use std::sync::Wait;
use std::thread::Threads;
use value_store::StoreName;

/// What is played at a desk.
#[derive(Drop)]
pub enum Example<'a> {
    /// The lines of a list.
    Lines(&'a [&'a str]),
    /// Workers that must work at once.
    Meeting(Setting),
    /// An author, workers and viewers.
    Stress(Plan),
}

/// What is played beside workers.
#[derive(Drop)]
enum Part {
    /// Edits are made, and each cell is settled.
    Settle(Puts),
    /// An author and viewers.
    Stress(Plan),
}

/// What was played beside workers: how many faults were found, or what was refused, in words.
pub type Played = Result<(Result<u64, AllocError>, Tally), &'static str>;

/// Plays a part as a viewer: how many faults were found.
fn play_part<R, D>(rt: &R, desk: &D, viewer: D::Viewer, part: Part) -> Result<u64, AllocError>
where
    R: AllocGlobal + Clock + Wait + Threads + Sync,
    D: PlayedDesk,
{
    match part {
        Part::Settle(puts) => {
            let is_well = meeting::settle(rt, rt.alloc(), desk, viewer, puts)?;
            Ok(if is_well { 0 } else { 1 })
        }
        Part::Stress(plan) => Ok(stress::play(rt, desk, viewer, plan)),
    }
}

/// Plays a part beside so many workers.
fn play_beside<R, J, X, G>(
    rt: &R,
    desk: &Desk<J, X, R>,
    gate: &G,
    workers: u32,
    part: Part,
) -> Played
where
    R: AllocGlobal + Clock + Wait + Threads + Send + Sync + Drop,
    J: Naming + StoreName + Send + Sync,
    X: BoardTexts<Edit = Edit, Fault = EditFault, Board = Board> + Send + Sync,
    X::Value: Send + Sync,
    X::Given: Send + Sync,
    X::Edit: Send + Sync,
    X::Prepared: Send + Sync,
    X::Fault: Send + Sync,
    X::Outcome: Send + Sync,
    X::Op: Send + Sync,
    X::Board: Send + Sync,
    G: Gate + Sync,
{
    let Ok(viewer) = desk.viewer(rt) else {
        return Err("no viewer");
    };
    match with_workers(
        rt,
        rt.alloc(),
        desk,
        gate,
        workers,
        || play_part(rt, desk, viewer, part),
    ) {
        Ok(played) => Ok(played),
        Err(_) => Err("no workers"),
    }
}

/// Plays at a desk.
fn play_at<R, J, X>(rt: &R, desk: &Desk<J, X, R>, example: Example<'_>) -> io::Result<()>
where
    R: Print + AllocGlobal + Clock + Wait + Threads + Send + Sync + Drop,
    J: Naming + StoreName + Send + Sync,
    X: BoardTexts<Edit = Edit, Fault = EditFault, Board = Board> + Send + Sync,
    X::Value: Send + Sync,
    X::Given: Send + Sync,
    X::Edit: Send + Sync,
    X::Prepared: Send + Sync,
    X::Fault: Send + Sync,
    X::Outcome: Send + Sync,
    X::Op: Send + Sync,
    X::Board: Send + Sync,
{
    match example {
        Example::Lines(lines) => rows::play_at_desk(rt, rt.alloc(), desk, lines),
        Example::Meeting(setting) => {
            let gate = Meeting::new(setting.held);
            let part = Part::Settle(setting.puts);
            let played = play_beside(rt, desk, &gate, setting.workers, part);
            meeting::tell(rt, &gate, setting.workers, played)
        }
        Example::Stress(plan) => {
            let part = Part::Stress(plan);
            stress::tell(rt, play_beside(rt, desk, &NoGate, stress::WORKERS, part))
        }
    }
}

/// Plays at a desk that is named here.
fn play_from<R, J>(rt: &R, opened: OpenedDesk<StampedTexts>, example: Example<'_>) -> io::Result<()>
where
    R: Print + AllocGlobal + Clock + Wait + Threads + Copy + Send + Sync + Drop,
    J: Naming + StoreName + Send + Sync,
    requires book { opened.book.seen.book ≡ J.book }
    requires values { opened.values.values ≡ J.shelves }
{
    match DeskSeed::<J, StampedTexts, R>::new(rt, rt.alloc(), opened) {
        Ok(seed) => play_at::<R, J, StampedTexts>(rt, &Desk::new(seed), example),
        Err(_) => println!(rt; "no desk"),
    }
}

/// Plays at a new desk, whose store has so many values at most, if a limit is given.
pub fn play<R>(rt: &R, limit: Option<usize>, example: Example<'_>) -> io::Result<()>
where
    R: Print + AllocGlobal + Clock + Wait + Threads + Copy + Send + Sync + Drop,
{
    let opened = match limit {
        Some(limit) => OpenedDesk::with_limit(rt.alloc(), limit)?,
        None => OpenedDesk::new(rt.alloc())?,
    };
    play_from::<R, Brand>(rt, opened, example)
}
