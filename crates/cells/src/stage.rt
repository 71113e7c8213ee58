//! The jobs that a list of events was given.

ghost use Rattle.std.specs.Prelude.{◌≡◌, ◌∷◌, [], true, IfOk, IfSome, IfNone, Some, None};
ghost use Rattle.cells.specs.Views.{Task, task_answered};
ghost use Rattle.cells.specs.Events.{task_given, has_claim};
ghost use Rattle.cells.specs.Stages.{stage_tasks, tasks_in};

use crate::job::{Done, Job, RunFault};
use crate::texts::CellTexts;
use std::alloc::Global;
use std::mem::{drop, replace};
use std::sync::Wait;
use value_store::{StoreFault, StoreName};

/// A job, before it is run and afterwards.
pub enum Stage<K: StoreName, T: CellTexts> {
    Waiting(Job<K, T>),
    Ran(Done<K, T>),
}

impl<K: StoreName, T: CellTexts> Drop for Stage<K, T> {
    fn drop(self) {
        match self {
            Stage::Waiting(_) => {},
            Stage::Ran(_) => {},
        }
    }
}

/// Whether this is the job of a claim.
fn is_of_claim<K: StoreName, T: CellTexts>(stage: &Option<Stage<K, T>>, claim: u64) -> bool
    ensures { result ≡ has_claim claim (stage_tasks stage.now) }
{
    match stage {
        Some(Stage::Waiting(job)) => claim == job.claim_number(),
        Some(Stage::Ran(done)) => claim == done.claim_number(),
        None => false,
    }
}

/// What the job makes, once more.
fn copy_of<K: StoreName, T: CellTexts>(
    alloc: Global,
    done: &Done<K, T>,
) -> Result<Done<K, T>, RunFault>
    ensures { IfOk result (λ copy. copy ≡ done.now) }
{
    match done.copy(alloc) {
        Ok(copy) => Ok(copy),
        Err(_) => Err(StoreFault::OutOfMemory),
    }
}

/// What is kept of a job that was run, and what it made, once more.
fn offer_again<K: StoreName, T: CellTexts>(
    alloc: Global,
    done: Done<K, T>,
) -> (Stage<K, T>, Result<Done<K, T>, RunFault>)
    ensures tasks { stage_tasks (Some result.0) ≡ task_answered done ∷ [] }
    ensures made { IfOk result.1 (λ copy. copy ≡ done) }
{
    let copy = copy_of(alloc, &done);
    (Stage::Ran(done), copy)
}

impl<K: StoreName, T: CellTexts> Stage<K, T> {
    /// What is kept of a job, and what it makes. It is run the first time.
    fn offered<R: Wait>(self, rt: &R, alloc: Global) -> (Stage<K, T>, Result<Done<K, T>, RunFault>)
        ensures tasks { stage_tasks (Some result.0) ≡ stage_tasks (Some self) }
        ensures made { IfOk result.1 (λ done. stage_tasks (Some self) ≡ task_answered done ∷ []) }
    {
        match self {
            Stage::Ran(done) => offer_again(alloc, done),
            Stage::Waiting(job) => match job.run(rt, alloc) {
                Err((job, fault)) => (Stage::Waiting(job), Err(fault)),
                Ok(done) => offer_again(alloc, done),
            },
        }
    }
}

/// What the job makes. It is run the first time.
fn offer<R: Wait, K: StoreName, T: CellTexts>(
    rt: &R,
    alloc: Global,
    claim: u64,
    stage: &mut Option<Stage<K, T>>,
) -> Result<Done<K, T>, RunFault>
    requires { has_claim claim (stage_tasks stage.old) ≡ true }
    ensures tasks { stage_tasks stage.new ≡ stage_tasks stage.old }
    ensures made { IfOk result (λ done. stage_tasks stage.old ≡ task_answered done ∷ []) }
{
    match stage.take() {
        None => unreachable!(),
        Some(before) => {
            let (after, made) = before.offered(rt, alloc);
            drop(replace(stage, Some(after)));
            made
        }
    }
}

/// What the job of a claim makes, where it is among these.
pub fn offer_of<R: Wait, K: StoreName, T: CellTexts>(
    rt: &R,
    alloc: Global,
    claim: u64,
    jobs: &mut [Option<Stage<K, T>>],
) -> Option<Result<Done<K, T>, RunFault>>
    ensures tasks { tasks_in jobs.new ≡ tasks_in jobs.old }
    ensures made { IfSome result (λ r.
        IfOk r (λ done. task_given claim (tasks_in jobs.old) ≡ Some (task_answered done))) }
    ensures there { IfSome result (λ _. (t : Task T.Value T.Given)
        × (task_given claim (tasks_in jobs.old) ≡ Some t)) }
    ensures none { IfNone result (task_given claim (tasks_in jobs.old) ≡ None) }
{
    for i in 0..jobs.len() {
        if is_of_claim(&jobs[i], claim) {
            return Some(offer(rt, alloc, claim, &mut jobs[i]));
        }
    }
    None
}
