//! Jobs that the author takes, and loses, returns twice or returns late.

use crate::claimed_desk::{ClaimedDesk, Returned};
use crate::played::{Call, PlayedDesk};
use crate::walk::draw::Draw;
use memo_core::claims::Finish;
use std::alloc::Global;
use std::sync::Wait;

/// No more jobs than these are kept to be returned late.
const MOST_KEPT: usize = 8;

/// The claim of a job that is kept, and whether it was closed since.
#[derive(Clone, Copy)]
struct Late {
    claim: u64,
    is_closed: bool,
}

/// The jobs that are kept, the oldest first, and how many answers of the desk were wrong.
#[derive(Drop)]
pub struct Kept {
    jobs: Vec<Late>,
    draw: Draw,
    faults: u64,
}

/// Closes the claim of a job that was refused memory, so that nobody waits for it.
fn give_back<D: PlayedDesk, W: Wait>(rt: &W, desk: &ClaimedDesk<'_, D>, claim: u64) -> bool {
    let _was_out = desk.call(rt, Call::Lose(claim)).is_ok();
    false
}

/// Whether a return is answered as it must be: as that of a claim that was not out if it was
/// closed, and otherwise as another. A job that is refused memory is given back.
fn is_answered<D: PlayedDesk, W: Wait>(
    rt: &W,
    alloc: Global,
    desk: &mut ClaimedDesk<'_, D>,
    claim: u64,
    is_closed: bool,
) -> bool {
    match desk.offer(rt, alloc, claim) {
        Ok(Returned::Once(Ok((finish, _posted)))) => {
            matches!(finish, Finish::Unknown) == is_closed
        }
        Ok(Returned::Once(Err(_))) => false,
        _ => give_back(rt, desk, claim),
    }
}

/// Loses a job, and returns it all the same.
fn lose<D: PlayedDesk, W: Wait>(
    rt: &W,
    alloc: Global,
    desk: &mut ClaimedDesk<'_, D>,
    claim: u64,
) -> bool {
    let was_out = matches!(desk.call(rt, Call::Lose(claim)), Ok(true));
    is_answered(rt, alloc, desk, claim, true) && was_out
}

/// Returns a job twice.
fn return_twice<D: PlayedDesk, W: Wait>(
    rt: &W,
    alloc: Global,
    desk: &mut ClaimedDesk<'_, D>,
    claim: u64,
) -> bool {
    is_answered(rt, alloc, desk, claim, false) && is_answered(rt, alloc, desk, claim, true)
}

impl Kept {
    /// No jobs.
    pub fn new(alloc: Global) -> Self {
        Kept {
            jobs: Vec::new(alloc),
            draw: Draw::new(71),
            faults: 0,
        }
    }

    /// How many answers of the desk were wrong.
    pub fn faults(&self) -> u64 {
        self.faults
    }

    /// Counts a fault, if it is not well.
    pub fn note(&mut self, is_well: bool) {
        if !is_well {
            self.faults = self.faults.saturating_add(1);
        }
    }

    /// Returns the oldest job that is kept, if there is one.
    fn return_oldest<D: PlayedDesk, W: Wait>(
        &mut self,
        rt: &W,
        alloc: Global,
        desk: &mut ClaimedDesk<'_, D>,
    ) {
        if self.jobs.is_empty() {
            return;
        }
        let late = self.jobs.remove(0);
        self.note(is_answered(rt, alloc, desk, late.claim, late.is_closed));
    }

    /// Returns all jobs that are kept.
    pub fn return_all<D: PlayedDesk, W: Wait>(
        &mut self,
        rt: &W,
        alloc: Global,
        desk: &mut ClaimedDesk<'_, D>,
    ) {
        for _ in 0..=MOST_KEPT {
            self.return_oldest(rt, alloc, desk);
        }
    }

    /// Keeps a job, and returns the oldest where there are too many. False where memory is refused;
    /// then its claim is closed.
    fn keep<D: PlayedDesk, W: Wait>(
        &mut self,
        rt: &W,
        alloc: Global,
        desk: &mut ClaimedDesk<'_, D>,
        claim: u64,
    ) -> bool {
        if self.jobs.len() >= MOST_KEPT {
            self.return_oldest(rt, alloc, desk);
        }
        let late = Late {
            claim,
            is_closed: false,
        };
        if self.jobs.push(late).is_err() {
            return give_back(rt, desk, claim);
        }
        true
    }

    /// Closes every claim.
    fn renew<D: PlayedDesk, W: Wait>(&mut self, rt: &W, desk: &ClaimedDesk<'_, D>) {
        self.note(desk.call(rt, Call::Renew).is_ok());
        for late in &mut self.jobs {
            late.is_closed = true;
        }
    }

    /// Takes a job, if there is one, and loses it, returns it twice or keeps it; now and then it
    /// closes every claim.
    pub fn meddle<D: PlayedDesk, W: Wait>(
        &mut self,
        rt: &W,
        alloc: Global,
        desk: &mut ClaimedDesk<'_, D>,
    ) {
        if self.draw.below(50) == 0 {
            self.renew(rt, desk);
        }
        let claim = match desk.claim(rt) {
            Ok(Ok(Some(claim))) => claim,
            Ok(Ok(None)) => return,
            _ => return self.note(false),
        };
        let is_well = match self.draw.below(4) {
            0 => lose(rt, alloc, desk, claim),
            1 => return_twice(rt, alloc, desk, claim),
            _ => self.keep(rt, alloc, desk, claim),
        };
        self.note(is_well);
    }
}
