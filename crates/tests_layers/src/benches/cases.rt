//! The parts of `benches.txt`, each behind a line that names it: the lines are played at a bench of
//! their own, and printed with what is answered. The answers that are wanted were worked out by
//! hand.

ghost use Rattle.std.specs.Prelude.{◌≡◌};

use crate::benches::answer::{Answer, print_answer, told};
use crate::benches::lists;
use crate::benches::play::Play;
use crate::benches::sheet::Change;
use cells::bench::Bench;
use std::alloc::Global;
use std::marker::Brand;
use std::rt::Files;
use std::sync::Wait;
use std::{fs, io};
use value_store::{Opened, Store, StoreName};

/// What a line asks: a verb, and the numbers behind it, 0 where there is none.
#[derive(Clone, Copy)]
pub struct Words<'a> {
    pub verb: &'a str,
    pub first: u64,
    pub second: u64,
}

/// The words of a line.
pub fn words_of(line: &str) -> Words<'_> {
    let mut words = line.split(' ');
    Words {
        verb: words.next().unwrap_or(""),
        first: words.next().unwrap_or("").parse::<u64>().unwrap_or(0),
        second: words.next().unwrap_or("").parse::<u64>().unwrap_or(0),
    }
}

/// The edit that a line asks for, if it does.
pub fn change_of(words: Words<'_>) -> Option<Change> {
    match words.verb {
        "put" => Some(Change::Put(words.first, words.second)),
        "remove" => Some(Change::Remove(words.first)),
        "base" => Some(Change::SetBase(words.first)),
        _ => None,
    }
}

fn answer<R: Wait, K: StoreName>(
    rt: &R,
    alloc: Global,
    play: &mut Play<K>,
    words: Words<'_>,
) -> io::Result<Answer> {
    if let Some(change) = change_of(words) {
        return Ok(play.edit(alloc, change));
    }
    match words.verb {
        "claim" => Ok(play.claim(alloc)?),
        "return" => Ok(play.give_back(rt, alloc, words.first)),
        "lose" => Ok(play.lose(words.first)),
        "renew" => {
            play.bench.renew();
            Ok(told("renewed"))
        }
        "settle" => Ok(play.settle(rt, alloc)),
        "show" => Ok(play.shown((words.first % 256) as u8)),
        "all" => Ok(play.all_settled()),
        _ => Ok(told("no such question")),
    }
}

fn play_line<R: Print + Wait, K: StoreName>(
    rt: &R,
    alloc: Global,
    play: &mut Play<K>,
    line: &str,
) -> io::Result<()> {
    println!(rt; "{line}")?;
    if let Some(list) = line.strip_prefix("list ") {
        return lists::play(rt, alloc, &mut play.bench, list);
    }
    let words = words_of(line);
    if words.verb == "twice" {
        let (first, second) = play.give_back_twice(rt, alloc, words.first);
        print_answer(rt, first)?;
        return print_answer(rt, second);
    }
    print_answer(rt, answer(rt, alloc, play, words)?)
}

/// Plays the lines of one part.
fn play_part<R: Print + Wait, K: StoreName>(
    rt: &R,
    alloc: Global,
    opened: Opened<u64>,
    lines: &[&str],
) -> io::Result<()>
    requires { opened.values ≡ K.shelves }
{
    let mut play = Play::new(alloc, Bench::new(alloc, opened.named::<K>())?);
    for line in lines {
        play_line(rt, alloc, &mut play, line)?;
    }
    Ok(())
}

/// Plays the lines of one part at a bench with a store of its own.
fn begin<R: Print + Wait>(rt: &R, alloc: Global, lines: &[&str]) -> io::Result<()> {
    play_part::<R, Brand>(rt, alloc, Store::new(alloc)?, lines)
}

/// Plays each part of the file.
pub fn show<R: Files + Print + AllocGlobal + Wait>(rt: &R) -> io::Result<()> {
    let list = fs::read_to_string(rt, "benches.txt")?;
    let mut lines = Vec::new(rt.alloc());
    for line in list.lines() {
        if line.starts_with("# ") {
            begin(rt, rt.alloc(), &lines)?;
            lines.clear();
            println!(rt; "{line}")?;
        } else {
            lines.push(line)?;
        }
    }
    begin(rt, rt.alloc(), &lines)
}
