//! One event after another, each compared with the evaluation from nothing.

use crate::numbered::NumberedBench;
use crate::walk::draw::{self, Draw};
use crate::walk::mirror::{Logs, Mirror, is_wanted};
use cells::shown::Shown;
use std::alloc::{AllocError, Global};
use std::sync::Wait;
use verdict::Outcome;

const KEPT_JOBS: usize = 40;

/// Whether what is shown of a cell of a test is not the log that is wanted of it, if it is there.
fn is_other(
    alloc: Global,
    test: &[u8],
    shown: Shown<'_, Outcome>,
    wanted: Option<&[u8]>,
) -> Result<bool, AllocError> {
    match shown {
        Shown::NoCell => Ok(wanted.is_some()),
        Shown::Open => Ok(wanted.is_none()),
        Shown::Settled(outcome) => Ok(!is_wanted(alloc, test, outcome, wanted)?),
    }
}

/// What is drawn, how many cells differed, and after how many events marks did.
#[derive(Clone, Copy)]
pub struct Walk {
    draw: Draw,
    differing: u64,
    unlike_marks: u64,
}

impl Walk {
    /// No event was drawn.
    pub fn new() -> Walk {
        Walk {
            draw: Draw::new(2026),
            differing: 0,
            unlike_marks: 0,
        }
    }

    /// How many times a cell differed.
    pub fn differing(&self) -> u64 {
        self.differing
    }

    /// After how many events the marks of a node differed from the recursion.
    pub fn unlike_marks(&self) -> u64 {
        self.unlike_marks
    }

    fn count(&mut self, differs: bool) {
        if differs {
            self.differing = self.differing.wrapping_add(1);
        }
    }

    fn edit<B: NumberedBench>(
        &mut self,
        alloc: Global,
        bench: &mut B,
        mirror: &mut Mirror,
    ) -> Result<(), AllocError> {
        let drawn = draw::draw_edit(&mut self.draw, mirror);
        let wanted = mirror.edit(alloc, &drawn)?;
        let accepted = bench.edit(alloc, drawn.edit(alloc)?).is_ok();
        self.count(wanted != accepted);
        Ok(())
    }

    /// The claim of a job that is drawn.
    fn claim_number<B: NumberedBench>(&mut self, bench: &B) -> u64 {
        let index = self.draw.below(bench.job_count() as u64) as usize;
        bench.claim_at(index)
    }

    fn lose<B: NumberedBench>(&mut self, bench: &mut B) {
        let claim = self.claim_number(bench);
        let _was_out = bench.lose(claim);
    }

    fn offer<B: NumberedBench, W: Wait>(
        &mut self,
        rt: &W,
        alloc: Global,
        bench: &mut B,
    ) -> Result<(), AllocError> {
        let claim = self.claim_number(bench);
        let _answer = bench.offer(rt, alloc, claim)?;
        Ok(())
    }

    /// One event, and what every cell shows after it.
    pub fn step<B: NumberedBench, W: Wait>(
        &mut self,
        rt: &W,
        alloc: Global,
        bench: &mut B,
        mirror: &mut Mirror,
    ) -> Result<(), AllocError> {
        match self.draw.below(40) {
            0 => bench.renew(),
            1 => self.lose(bench),
            2..=7 => self.edit(alloc, bench, mirror)?,
            8..=23 => claim(alloc, bench)?,
            _ => self.offer(rt, alloc, bench)?,
        }
        if bench.has_wrong_mark(alloc)? {
            self.unlike_marks = self.unlike_marks.wrapping_add(1);
        }
        self.compare(alloc, bench, &**mirror.logs())
    }

    fn compare<B: NumberedBench>(
        &mut self,
        alloc: Global,
        bench: &B,
        logs: &Logs,
    ) -> Result<(), AllocError> {
        let (tests, models) = draw::names();
        for test in tests {
            for model in models {
                let wanted = logs.of_cell(test, model);
                self.count(is_other(alloc, test, bench.shown(test, model), wanted)?);
            }
        }
        Ok(())
    }
}

fn claim<B: NumberedBench>(alloc: Global, bench: &mut B) -> Result<(), AllocError> {
    let _claimed = bench.claim(alloc)?;
    if bench.job_count() > KEPT_JOBS {
        bench.forget_first();
    }
    Ok(())
}
