//! A bench over a sheet, with the jobs that were claimed. Each call that takes memory is tried
//! again where memory is refused, and has to answer as the first try would have.

use crate::benches::answer::{Answer, counted, finished, told};
use crate::benches::sheet::{Change, Sheet, SheetFault};
use cells::bench::Bench;
use cells::job::{Done, Job};
use cells::shown::Shown;
use memo_core::claims::{ClaimFault, Finish};
use std::alloc::{AllocError, Global};
use std::sync::Wait;
use value_store::StoreName;

/// How often a call is tried.
const TRIES: u32 = 8;

/// More jobs than a sheet has.
const MOST_JOBS: u64 = 100;

/// A bench of a sheet, and the jobs that it has given out.
#[derive(Drop)]
pub struct Play<K: StoreName> {
    pub bench: Bench<K, Sheet>,
    jobs: Vec<Job<K, Sheet>>,
}

/// Runs a job. None where it is refused again and again, or comes back as another.
fn ran<R: Wait, K: StoreName>(rt: &R, alloc: Global, job: Job<K, Sheet>) -> Option<Done<K, Sheet>> {
    let claim = job.claim_number();
    let mut job = job;
    for _ in 0..TRIES {
        match job.run(rt, alloc) {
            Ok(done) => return Some(done),
            Err((refused, _)) => job = refused,
        }
        if job.claim_number() != claim {
            return None;
        }
    }
    None
}

/// A return once more.
fn copied<K: StoreName>(alloc: Global, done: &Done<K, Sheet>) -> Option<Done<K, Sheet>> {
    for _ in 0..TRIES {
        if let Ok(copy) = done.copy(alloc) {
            return Some(copy);
        }
    }
    None
}

impl<K: StoreName> Play<K> {
    /// A bench of which no job was claimed.
    pub fn new(alloc: Global, bench: Bench<K, Sheet>) -> Self {
        Play {
            bench,
            jobs: Vec::new(alloc),
        }
    }

    /// Makes an edit, again where memory was refused.
    pub fn edit(&mut self, alloc: Global, change: Change) -> Answer {
        for _ in 0..TRIES {
            match self.bench.edit(alloc, change) {
                Ok(number) => return counted("edit", number),
                Err(SheetFault::OutOfMemory) => {}
                Err(SheetFault::Missing) => return told("no such row"),
                Err(SheetFault::Spent) => return told("spent"),
            }
        }
        told("out of memory")
    }

    /// The next job, if there is one. Errors: it is refused again and again.
    fn next_job(&mut self, alloc: Global) -> Result<Option<Job<K, Sheet>>, ClaimFault> {
        for _ in 0..TRIES {
            match self.bench.claim(alloc) {
                Err(ClaimFault::OutOfMemory) => {}
                claimed => return claimed,
            }
        }
        Err(ClaimFault::OutOfMemory)
    }

    /// Claims a job, and keeps it.
    pub fn claim(&mut self, alloc: Global) -> Result<Answer, AllocError> {
        self.jobs.reserve(1)?;
        match self.next_job(alloc) {
            Ok(Some(job)) => {
                let claim = job.claim_number();
                self.jobs.push(job)?;
                Ok(counted("claim", claim))
            }
            Ok(None) => Ok(told("no work")),
            Err(_) => Ok(told("refused")),
        }
    }

    /// Takes a job out of those that are kept.
    fn take(&mut self, claim: u64) -> Option<Job<K, Sheet>> {
        match self.jobs.iter().position(|job| job.claim_number() == claim) {
            Some(index) if index < self.jobs.len() => Some(self.jobs.remove(index)),
            _ => None,
        }
    }

    /// The claim of the job at an index among those that are kept, if there are any: the indexes
    /// begin anew behind the last.
    pub fn kept(&self, index: usize) -> Option<u64> {
        if self.jobs.is_empty() {
            return None;
        }
        match self.jobs.get(index % self.jobs.len()) {
            Some(job) => Some(job.claim_number()),
            None => None,
        }
    }

    /// Runs the job of a claim that is kept, and returns what it makes.
    pub fn give_back<R: Wait>(&mut self, rt: &R, alloc: Global, claim: u64) -> Answer {
        let Some(job) = self.take(claim) else {
            return told("no such job");
        };
        match ran(rt, alloc, job) {
            Some(done) => finished(&self.bench.finish(done)),
            None => told("refused"),
        }
    }

    /// Returns the same twice: the second is answered as unknown.
    pub fn give_back_twice<R: Wait>(
        &mut self,
        rt: &R,
        alloc: Global,
        claim: u64,
    ) -> (Answer, Answer) {
        let Some(job) = self.take(claim) else {
            return (told("no such job"), told("no such job"));
        };
        let Some(done) = ran(rt, alloc, job) else {
            return (told("refused"), told("refused"));
        };
        let Some(copy) = copied(alloc, &done) else {
            return (told("refused"), told("refused"));
        };
        if copy.claim_number() != done.claim_number() {
            return (told("another claim"), told("another claim"));
        }
        let first = finished(&self.bench.finish(copy));
        (first, finished(&self.bench.finish(done)))
    }

    /// Closes a claim.
    pub fn lose(&mut self, claim: u64) -> Answer {
        if self.bench.lose(claim) {
            told("lost")
        } else {
            told("not out")
        }
    }

    /// Forgets a job that is kept, and closes its claim.
    pub fn drop_job(&mut self, claim: u64) {
        drop(self.take(claim));
        let _is_out = self.bench.lose(claim);
    }

    /// Runs a job and returns it. False where that is refused, or comes too late.
    fn settle_one<R: Wait>(&mut self, rt: &R, alloc: Global, job: Job<K, Sheet>) -> bool {
        match ran(rt, alloc, job) {
            Some(done) => matches!(self.bench.finish(done), Finish::Same | Finish::Stored(_)),
            None => false,
        }
    }

    /// Claims, runs and returns until there is no work, and tells how many jobs there were.
    pub fn settle<R: Wait>(&mut self, rt: &R, alloc: Global) -> Answer {
        for count in 0..MOST_JOBS {
            match self.next_job(alloc) {
                Ok(Some(job)) => {
                    if !self.settle_one(rt, alloc, job) {
                        return told("a job is refused or late");
                    }
                }
                Ok(None) => return counted("jobs", count),
                Err(_) => return told("refused"),
            }
        }
        told("it does not settle")
    }

    /// What the cell of a row shows.
    pub fn shown(&self, name: u8) -> Answer {
        let test = [name];
        match self.bench.shown(&test, &[]) {
            Shown::NoCell => told("no cell"),
            Shown::Open => told("open"),
            Shown::Settled(outcome) => counted("cell", *outcome),
        }
    }

    /// Whether each cell is settled.
    pub fn all_settled(&self) -> Answer {
        if self.bench.all_settled() {
            told("all settled")
        } else {
            told("not all settled")
        }
    }
}
