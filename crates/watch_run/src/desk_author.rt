//! An author at a running desk: it runs the jobs between two edits, or the workers do.

ghost use Rattle.std.specs.Prelude.{OnOk, OnErr, IfOk, ◌≡◌, ◌≤◌, if◌then◌else◌, Err};
ghost use mathlib.Core.List.{IsPrefix};
ghost use Rattle.session_views.specs.Knowing.{HasOwnEdit};
ghost use Rattle.watch_run.specs.Counts.{with_jobs, HasMoreJobs};
ghost use Rattle.watch_run.specs.Boards.{IsSettledWhole};

use crate::author::{Author, Counts};
use crate::lines::{Asked, read_board};
use crate::turnstile::RunningTurnstile;
use bench_instance::{RunningDesk, StampedTexts};
use bench_texts::Edit;
use cells::job::Job;
use command_answers::SessionFault;
use core::mem::replace_with;
use desk::{Accepted, Naming, Viewer};
use litmus_ppc::Name;
use memo_engine::graph::LAST;
use std::alloc::{AllocError, Global};
use std::sync::Wait;
use value_store::StoreName;

/// Who runs the jobs.
#[derive(Drop)]
pub enum Hands<'d, J: Naming + StoreName, R: Wait + Drop> {
    /// The author, between two edits.
    Own,
    /// Workers, between two edits, where the turnstile is open.
    Workers(&'d RunningTurnstile<'d, J, R>),
}

// Gives an edit to the desk, which tells the viewer, and says its number. Errors: out of memory,
// also where a worker gave up.
fn give_edit<J: Naming + StoreName, R: Wait + Drop, W: Wait>(
    rt: &W,
    desk: &RunningDesk<J, R>,
    viewer: &mut Viewer<J, StampedTexts>,
    edit: Edit,
) -> Result<u64, AllocError>
    ensures told { IfOk result (λ number. HasOwnEdit edit number viewer.old viewer.new) }
    ensures number { IfOk result (λ number. number ≤ LAST) }
{
    match desk.edit(rt, viewer, edit) {
        Ok(Accepted::Now(number)) => Ok(number),
        _ => Err(AllocError),
    }
}

// Runs a job and returns it, and counts it. Errors: `Memory`, also where the store is full, or 2^64
// jobs would be counted.
fn run_job<J: Naming + StoreName, R: Wait + Drop, W: Wait>(
    rt: &W,
    alloc: Global,
    desk: &RunningDesk<J, R>,
    job: Job<J, StampedTexts>,
    counts: &mut Counts,
) -> Result<(), SessionFault>
    ensures counted { OnOk result (counts.new ≡ with_jobs 1 counts.old) }
    ensures same { OnErr result (counts.new ≡ counts.old) }
    ensures fault { OnErr result (result ≡ Err SessionFault.Memory) }
{
    match job.run(rt, alloc) {
        Ok(done) => match desk.finish(rt, done) {
            Ok(_taken) => counts.add_jobs(1),
            Err(_) => Err(SessionFault::Memory),
        },
        Err(_) => Err(SessionFault::Memory),
    }
}

// Takes a job, runs it and counts it, if there is any. Whether there was one. Errors: `Memory`, as
// at a run.
fn take_job<J: Naming + StoreName, R: Wait + Drop, W: Wait>(
    rt: &W,
    alloc: Global,
    desk: &RunningDesk<J, R>,
    counts: &mut Counts,
) -> Result<bool, SessionFault>
    ensures counted { IfOk result (λ ran.
        counts.new ≡ (if ran then with_jobs 1 counts.old else counts.old)) }
    ensures same { OnErr result (counts.new ≡ counts.old) }
    ensures fault { OnErr result (result ≡ Err SessionFault.Memory) }
{
    match desk.claim(rt) {
        Ok(Some(job)) => {
            run_job(rt, alloc, desk, job, counts)?;
            Ok(true)
        }
        Ok(None) => Ok(false),
        Err(_) => Err(SessionFault::Memory),
    }
}

// Runs jobs until there is none, and counts each. Errors: `Memory`, as at a run.
fn take_jobs<J: Naming + StoreName, R: Wait + Drop, W: Wait>(
    rt: &W,
    alloc: Global,
    desk: &RunningDesk<J, R>,
    counts: &mut Counts,
) -> Result<(), SessionFault>
    ensures more { HasMoreJobs counts.old counts.new }
    ensures fault { OnErr result (result ≡ Err SessionFault.Memory) }
{
    for _job in 0..u64::MAX {
        let ran = take_job(rt, alloc, desk, counts)?;
        if !ran {
            return Ok(());
        }
    }
    Ok(())
}

// Waits until each cell is settled and published, and tells the viewer. Errors: `Memory`, also
// where a worker gave up.
fn wait_settled<J: Naming + StoreName, R: Wait + Drop, W: Wait>(
    rt: &W,
    desk: &RunningDesk<J, R>,
    viewer: &mut Viewer<J, StampedTexts>,
) -> Result<(), SessionFault>
    ensures begins { OnOk result (IsPrefix viewer.old viewer.new) }
    ensures settled { OnOk result (IsSettledWhole viewer.new) }
    ensures fault { OnErr result (result ≡ Err SessionFault.Memory) }
{
    match desk.settle(rt, viewer) {
        Ok(()) => Ok(()),
        Err(_) => Err(SessionFault::Memory),
    }
}

/// An author at a desk, with a viewer of its board, and who runs its jobs.
#[derive(Drop)]
pub struct DeskAuthor<'d, J: Naming + StoreName, R: Wait + Drop> {
    /// Where the edits are made.
    pub desk: &'d RunningDesk<J, R>,
    /// Who sees the board.
    pub viewer: Viewer<J, StampedTexts>,
    /// Who runs the jobs.
    pub hands: Hands<'d, J, R>,
    /// What it counts.
    pub counts: Counts,
}

impl<'d, J: Naming + StoreName, R: Wait + Drop> DeskAuthor<'d, J, R> {
    // Has the jobs run until each cell is settled and published, and counts those that were done
    // after the last edit. Errors: `Memory`, also where the store is full, a worker gave up, or
    // 2^64 jobs would be counted.
    fn run_jobs<W: Wait>(&mut self, rt: &W, alloc: Global) -> Result<(), SessionFault>
        ensures begins { OnOk result (IsPrefix self.old.viewer self.new.viewer) }
        ensures settled { OnOk result (IsSettledWhole self.new.viewer) }
        ensures more { HasMoreJobs self.old.counts self.new.counts }
        ensures fault { OnErr result (result ≡ Err SessionFault.Memory) }
    {
        match &self.hands {
            Hands::Own => {
                take_jobs(rt, alloc, self.desk, &mut self.counts)?;
                wait_settled(rt, self.desk, &mut self.viewer)
            }
            Hands::Workers(turnstile) => {
                turnstile.open(rt, self.counts.last);
                wait_settled(rt, self.desk, &mut self.viewer)?;
                self.counts.add_jobs(turnstile.close(rt))
            }
        }
    }
}

impl<'d, J: Naming + StoreName, R: Wait + Drop> Author for DeskAuthor<'d, J, R> {
    ghost seen = { λ a. a.viewer };

    ghost counts = { λ a. a.counts };

    fn give<W: Wait>(&mut self, rt: &W, edit: Edit) -> Result<(), AllocError> {
        let number = give_edit(rt, self.desk, &mut self.viewer, edit)?;
        self.counts.add_edit(number);
        Ok(())
    }

    fn settle<W: Wait>(&mut self, rt: &W, alloc: Global) -> Result<u64, SessionFault> {
        let before = self.counts.jobs;
        self.run_jobs(rt, alloc)?;
        Ok(self.counts.jobs - before)
    }

    fn lines(
        &mut self,
        alloc: Global,
        models: &[Name],
        names: &[Option<Name>],
    ) -> Result<Option<Vec<Vec<u8>>>, AllocError> {
        let asked = Asked {
            alloc,
            models,
            names,
            made: self.counts.made,
        };
        replace_with(&mut self.viewer, asked, read_board)
    }
}
