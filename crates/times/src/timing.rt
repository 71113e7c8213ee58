//! How long something takes, and how much memory the program holds while it is done.

use std::alloc::Global;
use std::rt::{Clock, Files};
use std::time::Instant;
use std::{fs, io};

/// At most this many turns.
const MOST: u32 = 100_000;

/// Turns are taken until this many microseconds have passed.
const LONG_ENOUGH: u128 = 500_000;

/// What is timed.
pub trait Work {
    /// Does it once.
    fn once(&self, alloc: Global);
}

/// How many turns were taken, in how many microseconds, and how quick the quickest was.
#[derive(Clone, Copy)]
pub struct Timing {
    /// The turns.
    pub turns: u32,
    /// The microseconds of all turns.
    pub microseconds: u128,
    /// The nanoseconds of the quickest turn.
    pub least: u128,
}

/// Does the work again and again until enough time has passed.
pub fn time_of<R: Clock + AllocGlobal, W: Work>(rt: &R, work: &W) -> io::Result<Timing> {
    let start = Instant::now(rt)?;
    let mut before = start.elapsed(rt)?;
    let mut timing = Timing {
        turns: 0,
        microseconds: 0,
        least: u128::MAX,
    };
    for count in 0..MOST {
        work.once(rt.alloc());
        let after = start.elapsed(rt)?;
        let turn = after.as_nanos().saturating_sub(before.as_nanos());
        timing = Timing {
            turns: count + 1,
            microseconds: after.as_micros(),
            least: timing.least.min(turn),
        };
        if timing.microseconds > LONG_ENOUGH {
            return Ok(timing);
        }
        before = after;
    }
    Ok(timing)
}

/// Prints nanoseconds as microseconds with a tenth.
pub fn show_microseconds<R: Print>(rt: &R, nanoseconds: u128) -> io::Result<()> {
    let whole = nanoseconds / 1000;
    let tenths = (nanoseconds % 1000) / 100;
    print!(rt; "{whole}.{tenths} microseconds")
}

/// Where the system is asked to forget the most memory that the program has held, by this digit
/// (Linux).
const FORGET: &str = "/proc/self/clear_refs";

/// Has the system measure the most memory anew, if it can.
pub fn forget_memory<R: Files>(rt: &R) {
    drop(fs::write(rt, FORGET, "5"));
}

/// Where the system tells the most memory that the program has held (Linux).
const STATUS: &str = "/proc/self/status";

/// How the line begins that tells it.
const MOST_MEMORY: &str = "VmHWM:";

/// Prints the most memory that the program has held since the last `forget_memory`, where the
/// system tells it.
pub fn show_memory<R: Files + Print + AllocGlobal>(rt: &R) -> io::Result<()> {
    if let Ok(status) = fs::read_to_string(rt, STATUS) {
        for line in status.as_str().split('\n') {
            if let Some(size) = line.strip_prefix(MOST_MEMORY) {
                let size = size.trim();
                print!(rt; ", {size}")?;
            }
        }
    }
    Ok(())
}
