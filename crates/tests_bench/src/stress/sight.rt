//! What a viewer has seen, and what it sees next.

use crate::played::Looker;
use crate::stress::plan::Plan;
use crate::walk::draw;
use crate::walk::mirror::is_wanted;
use board::Board;
use outcome_texts::Shown;
use std::alloc::{AllocError, Global};

/// What the boards are to show, how many edits were seen, and which cells were settled after them.
#[derive(Drop)]
pub struct Sight<'a> {
    plan: &'a Plan,
    edits: u64,
    settled: Vec<bool>,
    open: u64,
    faults: u64,
}

impl<'a> Sight<'a> {
    /// Nothing was seen.
    pub fn new(alloc: Global, plan: &'a Plan) -> Sight<'a> {
        Sight {
            plan,
            edits: 0,
            settled: Vec::new(alloc),
            open: 0,
            faults: 0,
        }
    }

    /// How many edits were seen.
    pub fn edits(&self) -> u64 {
        self.edits
    }

    /// How many cells were open when a board was last seen.
    pub fn open(&self) -> u64 {
        self.open
    }

    /// How many faults were found.
    pub fn faults(&self) -> u64 {
        self.faults
    }

    /// Counts a fault, if this is one.
    pub fn note(&mut self, is_fault: bool) {
        if is_fault {
            self.faults = self.faults.saturating_add(1);
        }
    }

    /// Whether the cell at this index was settled after as many edits as this board has.
    fn was_settled(&self, board: &Board, index: usize) -> bool {
        board.edit_count() == self.edits && self.settled.get(index).copied().unwrap_or(false)
    }

    /// Looks at a board: it has no fewer edits than the last, each cell that was settled after as
    /// many is settled, and each cell that is settled carries what evaluating from nothing gives.
    fn compare(&mut self, alloc: Global, board: &Board) -> Result<(), AllocError> {
        let plan = self.plan;
        let (tests, models) = draw::names();
        let mut settled = Vec::new(alloc);
        self.note(board.edit_count() < self.edits);
        self.open = 0;
        for test in tests {
            for model in models {
                let was_settled = self.was_settled(board, settled.len());
                let is_settled = self.look_at(alloc, plan, board, test, model)?;
                self.note(was_settled && !is_settled);
                settled.push(is_settled)?;
            }
        }
        self.settled = settled;
        self.edits = board.edit_count();
        Ok(())
    }

    /// Compares one cell, and says whether it is settled.
    fn look_at(
        &mut self,
        alloc: Global,
        plan: &Plan,
        board: &Board,
        test: &[u8],
        model: &[u8],
    ) -> Result<bool, AllocError> {
        let Some(logs) = plan.after(board.edit_count()) else {
            self.note(true);
            return Ok(false);
        };
        let wanted = logs.of_cell(test, model);
        match board.show(test, model) {
            Shown::NoCell => {
                self.note(wanted.is_some());
                Ok(false)
            }
            Shown::Open => {
                self.note(wanted.is_none());
                self.open = self.open.saturating_add(1);
                Ok(false)
            }
            Shown::Settled(outcome) => {
                let is_right = is_wanted(alloc, test, outcome, wanted)?;
                self.note(!is_right);
                Ok(true)
            }
        }
    }
}

impl<'a> Looker for Sight<'a> {
    /// Compares the cells of a board. Want of memory is a fault.
    fn look(&mut self, alloc: Global, board: &Board) {
        let is_refused = self.compare(alloc, board).is_err();
        self.note(is_refused);
    }
}
