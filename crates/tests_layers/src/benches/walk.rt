//! A walk by random events from a fixed seed. After each, what a cell shows is compared with its
//! evaluation from nothing; at the end all is settled, and each cell is compared.

ghost use Rattle.std.specs.Prelude.{◌≡◌};

use crate::benches::play::Play;
use crate::benches::rows::{Row, find_row, put, remove};
use crate::benches::sheet::Change;
use cells::bench::Bench;
use std::alloc::{AllocError, Global};
use std::io;
use std::marker::Brand;
use std::sync::Wait;
use value_store::{Opened, Store, StoreName};

/// How many events there are, and no more jobs are out.
const EVENTS: u64 = 1000;

/// How many names rows have.
const NAMES: u8 = 6;

/// A bench, the rows and the base that its sheet has to have, and how many answers were wrong.
#[derive(Drop)]
struct Walk<K: StoreName> {
    play: Play<K>,
    rows: Vec<Row>,
    base: u64,
    wrong: u64,
}

fn next(seed: u64) -> u64 {
    seed.wrapping_mul(6_364_136_223_846_793_005)
        .wrapping_add(1_442_695_040_888_963_407)
}

/// What a cell is, evaluated from nothing.
fn scratch(rows: &[Row], base: u64, name: u8) -> Option<u64> {
    match find_row(rows, u64::from(name)) {
        Some((_, value)) => Some(value.wrapping_add(base / 10)),
        None => None,
    }
}

impl<K: StoreName> Walk<K> {
    fn note(&mut self, is_right: bool) {
        if !is_right {
            self.wrong = self.wrong.saturating_add(1);
        }
    }

    /// An edit, which the plain rows follow. To remove a row that is not there is refused.
    fn change(&mut self, alloc: Global, change: Change) -> Result<(), AllocError> {
        let is_missing = match change {
            Change::Remove(name) => find_row(&self.rows, name).is_none(),
            _ => false,
        };
        let answer = self.play.edit(alloc, change);
        self.note(answer.number.is_none() == is_missing);
        let Some(number) = answer.number else {
            return Ok(());
        };
        self.rows.reserve(1)?;
        match change {
            Change::Put(name, value) => put(&mut self.rows, name, value, number),
            Change::Remove(name) => remove(&mut self.rows, name),
            Change::SetBase(value) => self.base = value,
        }
        Ok(())
    }

    /// One of the jobs that are kept is run and returned, or lost.
    fn give_back<R: Wait>(&mut self, rt: &R, alloc: Global, pick: usize, is_lost: bool) {
        let Some(claim) = self.play.kept(pick) else {
            return;
        };
        if is_lost {
            self.play.drop_job(claim);
        } else {
            let _answer = self.play.give_back(rt, alloc, claim);
        }
    }

    fn event<R: Wait>(&mut self, rt: &R, alloc: Global, draw: u64) -> Result<(), AllocError> {
        let name = (draw >> 8) % u64::from(NAMES);
        let value = (draw >> 16) % 50;
        match draw % 16 {
            0 | 1 | 2 => self.change(alloc, Change::Put(name, value))?,
            3 => self.change(alloc, Change::Remove(name))?,
            4 => self.change(alloc, Change::SetBase(value))?,
            5 => self.give_back(rt, alloc, name as usize, true),
            6 => {
                if value == 0 {
                    self.play.bench.renew();
                }
            }
            7 | 8 | 9 | 10 | 11 => {
                let _answer = self.play.claim(alloc)?;
            }
            _ => self.give_back(rt, alloc, name as usize, false),
        }
        Ok(())
    }

    /// Compares each cell that shows a value.
    fn check(&mut self) {
        for name in 0..NAMES {
            let wanted = scratch(&self.rows, self.base, name);
            if let Some(value) = self.play.shown(name).number {
                self.note(wanted == Some(value));
            }
        }
    }

    /// Loses all jobs, settles the bench, and compares each cell. True if it is settled.
    fn end<R: Wait>(&mut self, rt: &R, alloc: Global) -> bool {
        for _ in 0..EVENTS {
            self.give_back(rt, alloc, 0, true);
        }
        let settled = self.play.settle(rt, alloc);
        for name in 0..NAMES {
            let wanted = scratch(&self.rows, self.base, name);
            let shown = self.play.shown(name).number;
            self.note(wanted == shown);
        }
        settled.number.is_some()
    }
}

fn take_walk<R: Print + Wait, K: StoreName>(
    rt: &R,
    alloc: Global,
    opened: Opened<u64>,
) -> io::Result<()>
    requires { opened.values ≡ K.shelves }
{
    let bench = Bench::new(alloc, opened.named::<K>())?;
    let mut walk = Walk {
        play: Play::new(alloc, bench),
        rows: Vec::new(alloc),
        base: 0,
        wrong: 0,
    };
    let mut seed = 20_261_123;
    for _ in 0..EVENTS {
        seed = next(seed);
        walk.event(rt, alloc, seed >> 24)?;
        walk.check();
    }
    let is_settled = walk.end(rt, alloc);
    let wrong = walk.wrong;
    println!(rt; "{EVENTS} events, {wrong} wrong answers, settled {is_settled}")
}

/// Walks, and prints how many answers were wrong.
pub fn show<R: Print + AllocGlobal + Wait>(rt: &R) -> io::Result<()> {
    take_walk::<R, Brand>(rt, rt.alloc(), Store::new(rt.alloc())?)
}
