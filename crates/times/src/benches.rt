//! What is asked of benches and desks. Their model and their test are files of the folder that the
//! program runs in.

use crate::tables::{COUNTED, Size, TIMED};
use crate::{desks, tables};
use std::marker::Brand;
use std::rt::{Clock, Files};
use std::sync::Wait;
use std::thread::Threads;
use std::{fs, io};
use value_store::Store;

/// The model of each bench.
const MODEL: &str = "power.cat";

/// The test of a bench whose jobs are counted.
const COUNTED_TEST: &str = "MP+lwsync+addr.litmus";

/// The test of a bench or a desk that is timed.
const TIMED_TEST: &str = "IRIW+syncs.litmus";

/// Prints for benches of these sizes how many jobs settle them, and, if they are timed, how long
/// that takes.
fn show_sizes<R>(rt: &R, test: &str, sizes: &[Size], is_timed: bool) -> io::Result<()>
where
    R: Files + Clock + Print + AllocGlobal + Wait,
{
    let model = fs::read(rt, MODEL)?;
    let test = fs::read(rt, test)?;
    for size in sizes {
        let opened = Store::new(rt.alloc())?;
        tables::show::<R, Brand>(rt, opened, *size, &model, &test, is_timed)?;
    }
    Ok(())
}

/// Prints how many jobs settle benches of three sizes, and how many an edit takes.
pub fn show_jobs<R: Files + Clock + Print + AllocGlobal + Wait>(rt: &R) -> io::Result<()> {
    show_sizes(rt, COUNTED_TEST, COUNTED, false)
}

/// Prints the same of larger benches, and how long it takes.
pub fn show_times<R: Files + Clock + Print + AllocGlobal + Wait>(rt: &R) -> io::Result<()> {
    show_sizes(rt, TIMED_TEST, TIMED, true)
}

/// Prints how long desks take by their number of workers.
pub fn show_workers<R>(rt: &R) -> io::Result<()>
where
    R: Files + Clock + Print + AllocGlobal + Wait + Threads + Copy + Send + Sync + Drop,
{
    let model = fs::read(rt, MODEL)?;
    let test = fs::read(rt, TIMED_TEST)?;
    desks::show(rt, &model, &test)
}
