//! Examples of the bench, one thread and many: lists of edits, claims, returns and reads with the
//! answers that were written by hand, a walk by events that are drawn, and desks whose author,
//! workers and viewers are threads of their own. Then what stands over it: sessions, and the
//! watching of files, each part behind a line that names it.
#![tactic(auto)]

mod benches;
mod claimed;
mod claimed_desk;
mod desks;
mod jobs;
mod meeting;
mod numbered;
mod played;
mod rows;
mod sessions;
mod stress;
mod threads;
mod walk;
mod watching;

use std::io;
use std::rt::{Clock, Files};
use std::sync::Wait;
use std::thread::Threads;

/// Plays the lists of some files, each a line a step.
pub fn play_files<R>(rt: &R, paths: &[String]) -> io::Result<()>
where
    R: Files + Clock + Print + AllocGlobal + Wait + Threads + Copy + Send + Sync + Drop,
{
    for path in paths {
        rows::play_file(rt, path)?;
    }
    Ok(())
}

/// Plays all examples.
pub fn show_all<R>(rt: &R) -> io::Result<()>
where
    R: Files + Clock + Print + AllocGlobal + Wait + Threads + Copy + Send + Sync + Drop + 'static,
{
    rows::play_file(rt, "cases.txt")?;
    meeting::show(rt)?;
    walk::show(rt)?;
    stress::show(rt)?;
    sessions::show_all(rt)?;
    println!(rt; "# Watching")?;
    watching::show_all(rt)
}
