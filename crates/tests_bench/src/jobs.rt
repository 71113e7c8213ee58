//! Jobs that were claimed, until they are returned.

use crate::played::PlayedJob;
use std::alloc::{AllocError, Global};
use std::sync::Wait;
use value_store::StoreFault;

/// A job that waits, or what it made.
#[derive(Drop)]
pub enum Stage<P: PlayedJob> {
    Waiting(P),
    Made(P::Done),
}

impl<P: PlayedJob> Stage<P> {
    /// The number of the claim of the job.
    pub fn claim_number(&self) -> u64 {
        match self {
            Stage::Waiting(job) => job.claim_number(),
            Stage::Made(done) => P::claim_of(done),
        }
    }
}

/// Keeps a job that was claimed, if there was work: the number of its claim. Errors: no room to
/// keep it.
pub fn keep_claimed<P: PlayedJob, F: Drop>(
    jobs: &mut Vec<Stage<P>>,
    claimed: Result<Option<P>, F>,
) -> Result<Result<Option<u64>, F>, AllocError> {
    match claimed {
        Ok(Some(job)) => {
            let claim = job.claim_number();
            jobs.push(Stage::Waiting(job))?;
            Ok(Ok(Some(claim)))
        }
        Ok(None) => Ok(Ok(None)),
        Err(fault) => Ok(Err(fault)),
    }
}

/// The index of the job of a claim, if it is among these.
fn index_of<P: PlayedJob>(jobs: &[Stage<P>], claim: u64) -> Option<usize> {
    for (index, stage) in jobs.iter().enumerate() {
        if stage.claim_number() == claim {
            return Some(index);
        }
    }
    None
}

/// Keeps what was made, and hands out the same once more.
fn keep<P: PlayedJob>(
    alloc: Global,
    jobs: &mut Vec<Stage<P>>,
    done: P::Done,
) -> Result<P::Done, AllocError> {
    let copy = P::copy(alloc, &done)?;
    jobs.push(Stage::Made(done))?;
    Ok(copy)
}

/// What the job of a claim made, once more each time: it is run when it is first asked for. None
/// for a claim that was not given.
pub fn made<W: Wait, P: PlayedJob>(
    rt: &W,
    alloc: Global,
    jobs: &mut Vec<Stage<P>>,
    claim: u64,
) -> Result<Option<Result<P::Done, StoreFault>>, AllocError> {
    let stage = match index_of(jobs.as_slice(), claim) {
        Some(index) if index < jobs.len() => jobs.remove(index),
        _ => return Ok(None),
    };
    let done = match stage {
        Stage::Made(done) => done,
        Stage::Waiting(job) => match job.run(rt, alloc) {
            Ok(done) => done,
            Err((job, fault)) => {
                jobs.push(Stage::Waiting(job))?;
                return Ok(Some(Err(fault)));
            }
        },
    };
    Ok(Some(Ok(keep::<P>(alloc, jobs, done)?)))
}
