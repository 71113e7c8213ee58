//! A gate that holds claims until others come.

use bench_workers::Gate;
use std::sync::{Mutex, Wait};
use std::thread::yield_now;

/// A claim is not held for more turns than these.
const MOST_TURNS: u32 = 100_000_000;

/// How many of the first claims are held, and until how many have begun and have ended.
#[derive(Clone, Copy)]
pub struct Held {
    pub first: u64,
    pub until_begun: u64,
    pub until_ended: u64,
}

/// How many claims have begun and have ended, and whether one was held to the last turn.
#[derive(Clone, Copy)]
pub struct Counts {
    pub begun: u64,
    pub ended: u64,
    pub is_missed: bool,
}

/// A gate that counts claims and holds the first of them.
#[derive(Drop)]
pub struct Meeting {
    held: Held,
    counts: Mutex<Counts>,
}

impl Meeting {
    /// No claim has begun.
    pub fn new(held: Held) -> Meeting {
        Meeting {
            held,
            counts: Mutex::new(Counts {
                begun: 0,
                ended: 0,
                is_missed: false,
            }),
        }
    }

    /// The counts so far.
    pub fn counts<R: Wait>(&self, rt: &R) -> Counts {
        *self.counts.lock(rt)
    }

    /// The counts once each claim that has begun has ended, or after the last turn.
    pub fn last_counts<R: Wait>(&self, rt: &R) -> Counts {
        for _ in 0..MOST_TURNS {
            let counts = self.counts(rt);
            if counts.ended >= counts.begun {
                return counts;
            }
            yield_now();
        }
        self.counts(rt)
    }

    /// Whether those that a claim waits for have come.
    fn is_open<R: Wait>(&self, rt: &R) -> bool {
        let counts = self.counts(rt);
        counts.begun >= self.held.until_begun && counts.ended >= self.held.until_ended
    }
}

impl Gate for Meeting {
    fn begin<R: Wait>(&self, rt: &R, _claim: u64) {
        let mut counts = self.counts.lock(rt);
        counts.begun = counts.begun.saturating_add(1);
        let is_held = counts.begun <= self.held.first;
        drop(counts);
        if !is_held {
            return;
        }
        for _ in 0..MOST_TURNS {
            if self.is_open(rt) {
                return;
            }
            yield_now();
        }
        self.counts.lock(rt).is_missed = true;
    }

    fn end<R: Wait>(&self, rt: &R, _claim: u64) {
        let mut counts = self.counts.lock(rt);
        counts.ended = counts.ended.saturating_add(1);
    }
}
