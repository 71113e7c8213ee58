//! Who makes the edits of the files that are watched.

ghost use Rattle.std.specs.Prelude.{◌≡◌, ◌≤◌, ◌<◌, ◌+◌, ◌-◌, ◌^◌, List, IfOk, IfSome, IfNone, OnOk, OnErr, Err};
ghost use mathlib.Core.List.{IsPrefix};
ghost use Rattle.board.specs.declared.operation.BoardOp.{BoardOp};
ghost use Rattle.memo_engine.specs.declared.graph.TheConstants.{LAST};
ghost use Rattle.session_views.specs.Knowing.{HasOwnEdit};
ghost use Rattle.watch_run.specs.declared.author.Counts.{Counts};
ghost use Rattle.watch_run.specs.Counts.{no_counts, with_edit, with_jobs, HasMoreJobs};
ghost use Rattle.watch_run.specs.Boards.{lists_of, AreOwnLines, HasOpenLine, IsSettledWhole};

use bench_texts::Edit;
use command_answers::SessionFault;
use litmus_ppc::Name;
use std::alloc::{AllocError, Global};
use std::sync::Wait;

/// What an author counts.
#[derive(Clone, Copy)]
pub struct Counts {
    /// How many edits it made.
    pub made: u64,
    /// The number of the last of them, or 0.
    pub last: u64,
    /// How many jobs were counted for it.
    pub jobs: u64,
}

impl Counts {
    /// Before the first edit and the first job.
    pub fn new() -> Counts
        ensures { result ≡ no_counts }
    {
        Counts {
            made: 0,
            last: 0,
            jobs: 0,
        }
    }

    /// Counts an edit of this number.
    pub fn add_edit(&mut self, number: u64)
        requires { self.old.made < 2 ^ 64 - 1 }
        ensures { self.new ≡ with_edit number self.old }
    {
        self.made += 1;
        self.last = number;
    }

    /// Counts so many jobs. Errors: `Memory`, where that makes 2^64 or more.
    pub fn add_jobs(&mut self, jobs: u64) -> Result<(), SessionFault>
        ensures counted { OnOk result (self.new ≡ with_jobs jobs self.old) }
        ensures few { OnOk result (self.old.jobs + jobs < 2 ^ 64) }
        ensures same { OnErr result (self.new ≡ self.old) }
        ensures full { OnErr result (2 ^ 64 ≤ self.old.jobs + jobs) }
        ensures fault { OnErr result (result ≡ Err SessionFault.Memory) }
    {
        match self.jobs.checked_add(jobs) {
            Some(sum) => {
                self.jobs = sum;
                Ok(())
            }
            None => Err(SessionFault::Memory),
        }
    }
}

/// An author at a desk, who makes edits and sees what comes of them.
pub trait Author {
    // The operations that it has seen.
    ghost seen: { Self → List BoardOp };

    // What it counts.
    ghost counts: { Self → Counts };

    /// Makes an edit, and counts it. Errors: out of memory, also where a worker gave up.
    fn give<W: Wait>(&mut self, rt: &W, edit: Edit) -> Result<(), AllocError>
        requires few { (counts self.old).made < 2 ^ 64 - 1 }
        ensures told { OnOk result
            (HasOwnEdit edit (counts self.new).last (seen self.old) (seen self.new)) }
        ensures number { OnOk result ((counts self.new).last ≤ LAST) }
        ensures counted { OnOk result
            (counts self.new ≡ with_edit (counts self.new).last (counts self.old)) }
        ensures same { OnErr result (counts self.new ≡ counts self.old) };

    /// Has the jobs run until each cell is settled and published, and says how many there were
    /// after the last edit. Errors: `Memory`, also where the store is full, a worker gave up, or
    /// 2^64 jobs would be counted.
    fn settle<W: Wait>(&mut self, rt: &W, alloc: Global) -> Result<u64, SessionFault>
        ensures begins { OnOk result (IsPrefix (seen self.old) (seen self.new)) }
        ensures settled { OnOk result (IsSettledWhole (seen self.new)) }
        ensures counted { IfOk result (λ jobs.
            counts self.new ≡ with_jobs jobs (counts self.old)) }
        ensures few { OnOk result ((counts self.new).jobs < 2 ^ 64) }
        ensures more { OnErr result (HasMoreJobs (counts self.old) (counts self.new)) }
        ensures fault { OnErr result (result ≡ Err SessionFault.Memory) };

    /// The lines under the models of these names of the files that hold the tests of these names,
    /// from the board that was published last, or none where a cell is open. Errors: out of memory,
    /// also where the board does not count as many edits as it made.
    fn lines(
        &mut self,
        alloc: Global,
        models: &[Name],
        names: &[Option<Name>],
    ) -> Result<Option<Vec<Vec<u8>>>, AllocError>
        ensures begins { IsPrefix (seen self.old) (seen self.new) }
        ensures same { counts self.new ≡ counts self.old }
        ensures lines { IfOk result (λ o. IfSome o (λ v.
            AreOwnLines (seen self.new) (counts self.new).made models.now names.now
            (lists_of v.items))) }
        ensures waits { IfOk result (λ o.
            IfNone o (HasOpenLine (seen self.new) models.now names.now)) };
}
