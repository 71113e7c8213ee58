//! A walk over a bench by events that are drawn from a fixed seed: edits, claims, returns that come
//! late and again, losses and renewals. After each event every settled cell is compared with the
//! evaluation of the present texts from nothing, and the marks of each used node with the
//! recursion that says what is settled.

pub mod draw;
pub mod mirror;
mod steps;

use crate::benches::{self, Example};
use crate::numbered::NumberedBench;
use mirror::Mirror;
use std::alloc::Global;
use std::io;
use std::sync::Wait;
use steps::Walk;

const EVENTS: u32 = 10_000;

/// Walks over a bench, and prints how many cells differed.
pub fn walk_over<R: Print + Wait, B: NumberedBench>(
    rt: &R,
    alloc: Global,
    bench: B,
) -> io::Result<()> {
    let mut bench = bench;
    let mut mirror = Mirror::new(alloc)?;
    let mut walk = Walk::new();
    for _ in 0..EVENTS {
        walk.step(rt, alloc, &mut bench, &mut mirror)?;
    }
    let differing = walk.differing();
    let unlike = walk.unlike_marks();
    println!(rt; "{EVENTS} events, {differing} cells that differ, {unlike} marks")
}

/// Walks over a bench of tests and models.
pub fn show<R: Print + AllocGlobal + Wait>(rt: &R) -> io::Result<()> {
    benches::play(rt, None, Example::Walk)
}
