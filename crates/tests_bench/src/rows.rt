//! Lists of edits, claims, returns and reads, one a line: each is played at a bench or at a desk,
//! and printed with its answer.

mod bench_play;
mod desk_play;
mod question;
pub mod replies;

use crate::numbered::NumberedBench;
use crate::{benches, desks};
use bench_play::BenchPlay;
pub use desk_play::play_lines as play_at_desk;
use std::alloc::Global;
use std::rt::{Clock, Files};
use std::sync::Wait;
use std::thread::Threads;
use std::{fs, io};

/// What the lines of a list are played at.
#[derive(Clone, Copy)]
enum Fresh {
    /// A bench whose store has so many values at most, if a limit is given.
    Bench(Option<usize>),
    /// A desk whose store has so many values at most, if a limit is given.
    Desk(Option<usize>),
}

/// The limit behind the words that begin a list, if it is given.
fn limit_of(words: &str) -> Option<usize> {
    words.trim().parse::<usize>().ok()
}

/// What a line begins, if it begins a list.
fn fresh_of(line: &str) -> Option<Fresh> {
    if let Some(words) = line.strip_prefix("fresh desk") {
        return Some(Fresh::Desk(limit_of(words)));
    }
    let words = line.strip_prefix("fresh bench")?;
    Some(Fresh::Bench(limit_of(words)))
}

/// Plays the lines of one bench.
pub fn play_at_bench<R: Print + Wait, B: NumberedBench>(
    rt: &R,
    alloc: Global,
    bench: B,
    lines: &[&str],
) -> io::Result<()> {
    let mut play = BenchPlay::new(bench);
    for line in lines {
        println!(rt; "{line}")?;
        let answer = play.answer_line(rt, alloc, line)?;
        rt.print(answer)?;
    }
    Ok(())
}

/// Plays the lines of one list. Lines before the first list are left out.
fn play_list<R>(rt: &R, fresh: Option<Fresh>, lines: &[&str]) -> io::Result<()>
where
    R: Print + AllocGlobal + Clock + Wait + Threads + Copy + Send + Sync + Drop,
{
    match fresh {
        Some(Fresh::Bench(limit)) => benches::play(rt, limit, benches::Example::Lines(lines)),
        Some(Fresh::Desk(limit)) => desks::play(rt, limit, desks::Example::Lines(lines)),
        None => Ok(()),
    }
}

/// The lines of a list so far, and what they are played at, if a list was begun.
#[derive(Drop)]
struct List<'a> {
    fresh: Option<Fresh>,
    lines: Vec<&'a str>,
}

impl<'a> List<'a> {
    /// Plays the lines so far.
    fn play<R>(&self, rt: &R) -> io::Result<()>
    where
        R: Print + AllocGlobal + Clock + Wait + Threads + Copy + Send + Sync + Drop,
    {
        play_list(rt, self.fresh, &self.lines)
    }

    /// Takes the next line of a file. Where it begins a list, the list before it is played.
    fn take<R>(&mut self, rt: &R, line: &'a str) -> io::Result<()>
    where
        R: Print + AllocGlobal + Clock + Wait + Threads + Copy + Send + Sync + Drop,
    {
        let next = fresh_of(line);
        if next.is_none() {
            self.lines.push(line)?;
            return Ok(());
        }
        self.play(rt)?;
        self.lines.clear();
        self.fresh = next;
        println!(rt; "{line}")
    }
}

/// Plays the lists of a text.
fn play_text<R>(rt: &R, text: &str) -> io::Result<()>
where
    R: Print + AllocGlobal + Clock + Wait + Threads + Copy + Send + Sync + Drop,
{
    let mut list = List {
        fresh: None,
        lines: Vec::new(rt.alloc()),
    };
    for line in text.lines() {
        list.take(rt, line)?;
    }
    list.play(rt)
}

/// Plays the lists of a file.
pub fn play_file<R>(rt: &R, path: &str) -> io::Result<()>
where
    R: Files + Print + AllocGlobal + Clock + Wait + Threads + Copy + Send + Sync + Drop,
{
    let text = fs::read_to_string(rt, path)?;
    play_text(rt, text.as_str())
}
