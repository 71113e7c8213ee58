//! The author.

use crate::claimed_desk::ClaimedDesk;
use crate::played::{PlayedDesk, Refusal};
use crate::stress::kept::Kept;
use crate::stress::plan::{Plan, Step};
use crate::stress::sight::Sight;
use desk::{Accepted, DeskFault};
use std::alloc::Global;
use std::sync::Wait;

/// After so many edits the author waits until each cell is settled.
const SETTLED_EACH: u64 = 25;

/// Whether an edit is answered as the texts answered it, and published at once.
fn is_as_planned(answer: Result<Accepted, Refusal>, is_accepted: bool) -> bool {
    match answer {
        Ok(Accepted::Now(_)) => is_accepted,
        Ok(Accepted::Later(_)) => false,
        Err(DeskFault::Edit(_)) => !is_accepted,
        Err(_) => false,
    }
}

/// Makes the edit of a step.
fn make<D: PlayedDesk, W: Wait>(
    rt: &W,
    alloc: Global,
    desk: &mut ClaimedDesk<'_, D>,
    step: &Step,
) -> Result<Accepted, Refusal> {
    match step.drawn.edit(alloc) {
        Ok(edit) => desk.edit(rt, 0, edit).unwrap_or(Err(DeskFault::NoSeat)),
        Err(_) => Err(DeskFault::OutOfMemory),
    }
}

/// The jobs that it keeps, and how many of its edits were accepted. It is the first viewer of the
/// desk.
#[derive(Drop)]
struct Author {
    kept: Kept,
    made: u64,
}

impl Author {
    /// It has made nothing.
    fn new(alloc: Global) -> Self {
        Author {
            kept: Kept::new(alloc),
            made: 0,
        }
    }

    /// Makes an edit. It is a fault if the desk does not answer as the texts did, or does not
    /// publish it at once.
    fn edit<D: PlayedDesk, W: Wait>(
        &mut self,
        rt: &W,
        alloc: Global,
        desk: &mut ClaimedDesk<'_, D>,
        step: &Step,
    ) {
        let is_well = is_as_planned(make(rt, alloc, desk, step), step.is_accepted);
        if step.is_accepted {
            self.made = self.made.saturating_add(1);
        }
        self.kept.note(is_well);
    }

    /// Looks at the board, which has all edits that were accepted and no other. No board is a
    /// fault.
    fn see<D: PlayedDesk>(
        &mut self,
        alloc: Global,
        desk: &mut ClaimedDesk<'_, D>,
        sight: &mut Sight<'_>,
    ) {
        let is_read = matches!(desk.look(alloc, 0, sight), Some(true));
        self.kept.note(is_read && sight.edits() == self.made);
    }

    /// Waits until each cell is settled. Then the board shows no open cell.
    fn settle<D: PlayedDesk, W: Wait>(
        &mut self,
        rt: &W,
        alloc: Global,
        desk: &mut ClaimedDesk<'_, D>,
        sight: &mut Sight<'_>,
    ) {
        self.kept.return_all(rt, alloc, desk);
        self.kept.note(matches!(desk.settle(rt, 0), Some(Ok(()))));
        self.see(alloc, desk, sight);
        self.kept.note(sight.open() == 0);
    }

    /// Makes an edit, takes a job and looks. After so many edits it waits until each cell is
    /// settled.
    fn play_step<D: PlayedDesk, W: Wait>(
        &mut self,
        rt: &W,
        alloc: Global,
        desk: &mut ClaimedDesk<'_, D>,
        sight: &mut Sight<'_>,
        step: &Step,
    ) {
        let is_pause = step.is_accepted && self.made % SETTLED_EACH == SETTLED_EACH - 1;
        self.edit(rt, alloc, desk, step);
        self.kept.meddle(rt, alloc, desk);
        self.see(alloc, desk, sight);
        if is_pause {
            self.settle(rt, alloc, desk, sight);
        }
    }
}

/// Makes all edits, takes a job after each, and waits at last until each cell is settled: how many
/// faults were found.
fn write_all<D: PlayedDesk, W: Wait>(
    rt: &W,
    alloc: Global,
    desk: &mut ClaimedDesk<'_, D>,
    plan: &Plan,
) -> u64 {
    let mut author = Author::new(alloc);
    let mut sight = Sight::new(alloc, plan);
    for step in plan.steps() {
        author.play_step(rt, alloc, desk, &mut sight, step);
    }
    author.settle(rt, alloc, desk, &mut sight);
    sight.faults().saturating_add(author.kept.faults())
}

/// Plays the author, and tells how many faults were found. No room for its viewer is one.
pub fn write<D: PlayedDesk, W: Wait>(
    rt: &W,
    alloc: Global,
    desk: &D,
    viewer: D::Viewer,
    plan: &Plan,
) -> u64 {
    match ClaimedDesk::of_viewer(alloc, desk, viewer) {
        Ok(claimed) => {
            let mut claimed = claimed;
            write_all(rt, alloc, &mut claimed, plan)
        }
        Err(_) => 1,
    }
}
