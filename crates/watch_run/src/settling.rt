//! The lines of the files, once all cells are settled.

ghost use Rattle.std.specs.Prelude.{OnOk, OnErr, IfOk, ◌≡◌, ◌<◌, ◌^◌, Err};
ghost use Rattle.bench_texts.specs.Held.{texts_of};
ghost use Rattle.watch_run.specs.Counts.{with_jobs, HasMoreJobs};
ghost use Rattle.watch_run.specs.Lines.{AreLinesOf};
ghost use Rattle.watch_run.specs.Boards.{lists_of, IsSettledWhole, KnowsItsTexts};

use crate::author::Author;
use crate::watched::Watched;
use command_answers::SessionFault;
use litmus_ppc::Name;
use std::alloc::Global;
use std::sync::Wait;

impl<A: Author> Watched<A> {
    // Has the jobs run until each cell is settled and published, and says how many there were, as
    // the author counts them. Errors: `Memory`, also where the store is full, a worker gave up, or
    // 2^64 jobs would be counted.
    fn settle<W: Wait>(&mut self, rt: &W, alloc: Global) -> Result<u64, SessionFault>
        requires ready { KnowsItsTexts A.seen A.counts self.old }
        ensures ready { OnOk result (KnowsItsTexts A.seen A.counts self.new) }
        ensures settled { OnOk result (IsSettledWhole (A.seen self.new.author)) }
        ensures counted { IfOk result (λ jobs.
            A.counts self.new.author ≡ with_jobs jobs (A.counts self.old.author)) }
        ensures few { OnOk result ((A.counts self.new.author).jobs < 2 ^ 64) }
        ensures more { OnErr result
            (HasMoreJobs (A.counts self.old.author) (A.counts self.new.author)) }
        ensures texts { self.new.texts ≡ self.old.texts }
        ensures names { self.new.names ≡ self.old.names }
        ensures fault { OnErr result (result ≡ Err SessionFault.Memory) }
    {
        let jobs = self.author.settle(rt, alloc)?;
        Ok(jobs)
    }

    /// Has the jobs run until each cell is settled, and says how many there were, as the author
    /// counts them, and what the line of each file is under these models. Errors: `Memory`, also
    /// where the store is full, a worker gave up, or 2^64 jobs would be counted.
    pub fn settled_lines<W: Wait>(
        &mut self,
        rt: &W,
        alloc: Global,
        models: &[Name],
    ) -> Result<(u64, Vec<Vec<u8>>), SessionFault>
        requires ready { KnowsItsTexts A.seen A.counts self.old }
        ensures ready { OnOk result (KnowsItsTexts A.seen A.counts self.new) }
        ensures texts { self.new.texts ≡ self.old.texts }
        ensures names { self.new.names ≡ self.old.names }
        ensures lines { IfOk result (λ r.
            AreLinesOf models.now (texts_of self.new.texts) self.new.names.items
            (lists_of r.1.items)) }
        // All jobs that were counted meanwhile, and no edit was.
        ensures counted { IfOk result (λ r.
            A.counts self.new.author ≡ with_jobs r.0 (A.counts self.old.author)) }
        ensures more { OnErr result
            (HasMoreJobs (A.counts self.old.author) (A.counts self.new.author)) }
        ensures fault { OnErr result (result ≡ Err SessionFault.Memory) }
    {
        let mut jobs: u64 = 0;
        for _ in rt.forever() {
            let more = self.settle(rt, alloc)?;
            jobs += more;
            match self.lines_now(alloc, models) {
                Ok(Some(lines)) => return Ok((jobs, lines)),
                Ok(None) => {}
                Err(_) => return Err(SessionFault::Memory),
            }
        }
        unreachable!()
    }
}
