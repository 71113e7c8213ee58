//! The edits of a bench of tests and models, and a bench whose jobs are played.

use bench_texts::Edit;
use cells::bench::Bench;
use cells::texts::CellTexts;
use std::alloc::{AllocError, Global};
use std::io;
use std::rt::Clock;
use std::sync::Wait;
use std::time::Instant;
use text_values::put_decimal;
use value_store::StoreName;

/// More jobs than a bench of this program ever has.
const MOST_JOBS: u64 = 1_000_000;

/// How many jobs were run, and how long the claims, the runs and the returns took in nanoseconds.
#[derive(Clone, Copy)]
pub struct Played {
    pub jobs: u64,
    pub claiming: u128,
    pub running: u128,
    pub finishing: u128,
}

impl Played {
    fn none() -> Played {
        Played {
            jobs: 0,
            claiming: 0,
            running: 0,
            finishing: 0,
        }
    }

    fn add(&mut self, other: Played) {
        self.jobs = self.jobs.saturating_add(other.jobs);
        self.claiming = self.claiming.saturating_add(other.claiming);
        self.running = self.running.saturating_add(other.running);
        self.finishing = self.finishing.saturating_add(other.finishing);
    }

    /// The nanoseconds of all of it.
    pub fn whole(&self) -> u128 {
        self.claiming
            .saturating_add(self.running)
            .saturating_add(self.finishing)
    }
}

/// Sets an item of the model to `dp` with its operands exchanged, which is equal in each candidate.
pub fn edit_of_dp(alloc: Global, model: &[u8], item: u64) -> Result<Edit, AllocError> {
    Ok(Edit::SetItem {
        model: Vec::from_slice(alloc, model)?,
        item,
        text: Vec::from_slice(alloc, b"let dp = data | addr")?,
    })
}

/// The text of the test under the name `T` with a number.
pub fn renamed(alloc: Global, test: &[u8], number: u64) -> Result<Vec<u8>, AllocError> {
    let mut text = Vec::from_slice(alloc, b"PPC T")?;
    put_decimal(&mut text, number)?;
    let mut is_rest = false;
    for byte in test {
        if *byte == b'\n' {
            is_rest = true;
        }
        if is_rest {
            text.push(*byte)?;
        }
    }
    Ok(text)
}

/// The name of the model of that number.
fn model_name(alloc: Global, number: u64) -> Result<Vec<u8>, AllocError> {
    let mut name = Vec::from_slice(alloc, b"m")?;
    put_decimal(&mut name, number)?;
    Ok(name)
}

/// The edits that put as many tests and then as many models.
pub fn edits_of(
    alloc: Global,
    model: &[u8],
    models: u64,
    test: &[u8],
    tests: u64,
) -> Result<Vec<Edit>, AllocError> {
    let mut edits = Vec::new(alloc);
    for number in 0..tests {
        let text = renamed(alloc, test, number)?;
        edits.push(Edit::PutTest { text })?;
    }
    for number in 0..models {
        edits.push(Edit::PutModel {
            model: model_name(alloc, number)?,
            text: Vec::from_slice(alloc, model)?,
        })?;
    }
    Ok(edits)
}

/// Makes edits on the bench. Answers whether each was accepted.
pub fn fill<K: StoreName, T: CellTexts>(
    alloc: Global,
    bench: &mut Bench<K, T>,
    edits: Vec<T::Edit>,
) -> bool {
    let mut is_accepted = true;
    for edit in edits {
        is_accepted &= bench.edit(alloc, edit).is_ok();
    }
    is_accepted
}

/// Claims, runs and returns a job. None where there is none, or a call is refused memory.
fn play_job<R: Clock + Wait, K: StoreName, T: CellTexts>(
    rt: &R,
    alloc: Global,
    bench: &mut Bench<K, T>,
) -> io::Result<Option<Played>> {
    let start = Instant::now(rt)?;
    let Ok(Some(job)) = bench.claim(alloc) else {
        return Ok(None);
    };
    let claimed = start.elapsed(rt)?.as_nanos();
    let Ok(done) = job.run(rt, alloc) else {
        return Ok(None);
    };
    let ran = start.elapsed(rt)?.as_nanos();
    drop(bench.finish(done));
    let finished = start.elapsed(rt)?.as_nanos();
    Ok(Some(Played {
        jobs: 1,
        claiming: claimed,
        running: ran.saturating_sub(claimed),
        finishing: finished.saturating_sub(ran),
    }))
}

/// Plays jobs until there is none.
pub fn play<R: Clock + Wait, K: StoreName, T: CellTexts>(
    rt: &R,
    alloc: Global,
    bench: &mut Bench<K, T>,
) -> io::Result<Played> {
    let mut played = Played::none();
    for _ in 0..MOST_JOBS {
        match play_job(rt, alloc, bench)? {
            Some(job) => played.add(job),
            None => return Ok(played),
        }
    }
    Ok(played)
}
