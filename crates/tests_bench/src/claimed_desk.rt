//! A desk with the viewers and the jobs that were taken of it.

use crate::jobs::{Stage, keep_claimed, made};
use crate::played::{Call, Looker, PlayedDesk, Refusal, Taken};
use crate::threads;
use bench_texts::Edit;
use bench_workers::Tally;
use desk::Accepted;
use std::alloc::{AllocError, Global};
use std::sync::Wait;
use std::thread::Threads;
use value_store::StoreFault;

/// What becomes of a return to a desk.
#[derive(Drop)]
pub enum Returned {
    /// The answer of the desk.
    Once(Result<Taken, Refusal>),
    /// Its answers to two returns at once.
    Twice(Result<Taken, Refusal>, Result<Taken, Refusal>),
    /// The job was not run.
    NotRun(StoreFault),
    /// No job of that claim is kept.
    NotKept,
}

/// A desk, the viewers that it gave, in their order, and the jobs that were claimed of it. A viewer
/// is away while it reads.
#[derive(Drop)]
pub struct ClaimedDesk<'a, D: PlayedDesk> {
    desk: &'a D,
    viewers: Vec<Option<D::Viewer>>,
    jobs: Vec<Stage<D::Job>>,
}

impl<'a, D: PlayedDesk> ClaimedDesk<'a, D> {
    /// No viewers and no jobs.
    pub fn new(alloc: Global, desk: &'a D) -> Self {
        ClaimedDesk {
            desk,
            viewers: Vec::new(alloc),
            jobs: Vec::new(alloc),
        }
    }

    /// With that viewer. Errors: no room to keep it.
    pub fn of_viewer(alloc: Global, desk: &'a D, viewer: D::Viewer) -> Result<Self, AllocError> {
        let mut claimed = ClaimedDesk::new(alloc, desk);
        claimed.viewers.push(Some(viewer))?;
        Ok(claimed)
    }

    /// Returns what the job of a claim makes by a thread of its own, or twice at once, by two.
    pub fn offer_aside<W: Wait + Threads + Sync>(
        &mut self,
        rt: &W,
        alloc: Global,
        claim: u64,
        twice: bool,
    ) -> Result<Returned, AllocError> {
        match made(rt, alloc, &mut self.jobs, claim)? {
            Some(Ok(done)) => Ok(threads::offer(rt, alloc, self.desk, &done, twice)),
            Some(Err(fault)) => Ok(Returned::NotRun(fault)),
            None => Ok(Returned::NotKept),
        }
    }

    /// Makes a call by a thread of its own.
    pub fn call_aside<W: Wait + Threads + Sync>(
        &self,
        rt: &W,
        call: Call,
    ) -> Result<bool, Refusal> {
        threads::call(rt, self.desk, call)
    }

    /// Takes a viewer. Errors: no room to keep it.
    pub fn take_viewer<W: Wait>(&mut self, rt: &W) -> Result<Result<(), Refusal>, AllocError> {
        match self.desk.give_viewer(rt) {
            Ok(viewer) => {
                self.viewers.push(Some(viewer))?;
                Ok(Ok(()))
            }
            Err(fault) => Ok(Err(fault)),
        }
    }

    /// How many viewers were taken.
    pub fn viewer_count(&self) -> usize {
        self.viewers.len()
    }

    /// Makes an edit, and tells the viewer. None without that viewer.
    pub fn edit<W: Wait>(
        &mut self,
        rt: &W,
        viewer: usize,
        edit: Edit,
    ) -> Option<Result<Accepted, Refusal>> {
        match self.viewers.get_mut(viewer) {
            Some(Some(viewer)) => Some(self.desk.edit(rt, viewer, edit)),
            _ => None,
        }
    }

    /// Waits until each cell is settled, and tells the viewer. None without that viewer.
    pub fn settle<W: Wait>(&mut self, rt: &W, viewer: usize) -> Option<Result<(), Refusal>> {
        match self.viewers.get_mut(viewer) {
            Some(Some(viewer)) => Some(self.desk.settle(rt, viewer, true)),
            _ => None,
        }
    }

    /// Shows the board that was published last, and says whether there is one. None without that
    /// viewer.
    pub fn look<L: Looker>(
        &mut self,
        alloc: Global,
        viewer: usize,
        looker: &mut L,
    ) -> Option<bool> {
        let slot = self.viewers.get_mut(viewer)?;
        let viewer = slot.take()?;
        let (viewer, is_read) = D::look(alloc, viewer, looker);
        *slot = Some(viewer);
        Some(is_read)
    }

    /// Claims a job and keeps it: the number of its claim, if there is work. Errors: no room to
    /// keep it.
    pub fn claim<W: Wait>(&mut self, rt: &W) -> Result<Result<Option<u64>, Refusal>, AllocError> {
        self.jobs.reserve(1)?;
        let claimed = self.desk.claim(rt);
        keep_claimed(&mut self.jobs, claimed)
    }

    /// Returns what the job of a claim makes, as often as it is asked to.
    pub fn offer<W: Wait>(
        &mut self,
        rt: &W,
        alloc: Global,
        claim: u64,
    ) -> Result<Returned, AllocError> {
        match made(rt, alloc, &mut self.jobs, claim)? {
            Some(Ok(done)) => Ok(Returned::Once(self.desk.offer(rt, alloc, &done))),
            Some(Err(fault)) => Ok(Returned::NotRun(fault)),
            None => Ok(Returned::NotKept),
        }
    }

    /// Makes a call. False where it closes a claim that was not out.
    pub fn call<W: Wait>(&self, rt: &W, call: Call) -> Result<bool, Refusal> {
        self.desk.call(rt, call)
    }

    /// Works until the desk is closed.
    pub fn work<W: Wait>(&self, rt: &W, alloc: Global) -> Tally {
        self.desk.work(rt, alloc)
    }
}
