//! A bench with the jobs that were claimed of it.

use crate::jobs::{Stage, keep_claimed, made};
use crate::numbered::{NumberedBench, Offered};
use bench_instance::StampedTexts;
use bench_texts::{Edit, EditFault};
use cells::bench::Bench;
use cells::events::{Event, Reply};
use cells::job::Job;
use cells::shown::Shown;
use cells::texts::CellTexts;
use memo_core::claims::ClaimFault;
use memo_core::keys::Node;
use memo_core::texts::Texts;
use memo_marks::Marks;
use std::alloc::{AllocError, Global};
use std::sync::Wait;
use value_store::{StoreFault, StoreName};
use verdict::Outcome;

/// Texts whose outputs have names.
pub trait NamedOutputs {
    /// The name of the output of a node that goes by that number, if there is such an output.
    fn output_name(&self, node: Node, number: u64) -> Option<&[u8]>;
}

impl NamedOutputs for StampedTexts {
    fn output_name(&self, node: Node, number: u64) -> Option<&[u8]> {
        StampedTexts::output_name(self, node, number)
    }
}

/// Whether a node that stands on this one is settled.
fn has_settled_user<K: StoreName, T: CellTexts>(marks: &Marks<'_, K, T>, node: Node) -> bool {
    for user in memo_marks::users(marks, node) {
        if memo_marks::settled(marks, *user) {
            return true;
        }
    }
    false
}

/// Whether the marks of a node, what it matches, or the marks of what stands on it say of it what
/// the recursion does not.
fn is_marked_wrong<K: StoreName, T: CellTexts>(marks: &Marks<'_, K, T>, node: Node) -> bool {
    let is_settled = memo_graph::settled(marks.texts(), marks.memos(), node);
    let is_matched = memo_graph::matches(marks.texts(), marks.memos(), node);
    if memo_marks::settled(marks, node) != is_settled {
        return true;
    }
    if is_settled {
        !is_matched
    } else {
        has_settled_user(marks, node)
    }
}

/// A bench, and the jobs that were claimed of it, until they are forgotten.
#[derive(Drop)]
pub struct ClaimedBench<K: StoreName, T: CellTexts> {
    bench: Bench<K, T>,
    jobs: Vec<Stage<Job<K, T>>>,
}

impl<K: StoreName, T: CellTexts> ClaimedBench<K, T> {
    /// No job was claimed.
    pub fn new(alloc: Global, bench: Bench<K, T>) -> Self {
        ClaimedBench {
            bench,
            jobs: Vec::new(alloc),
        }
    }
}

impl<K, T> NumberedBench for ClaimedBench<K, T>
where
    K: StoreName,
    T: CellTexts<Edit = Edit, Fault = EditFault, Outcome = Outcome> + NamedOutputs,
{
    fn edit(&mut self, alloc: Global, edit: Edit) -> Result<u64, EditFault> {
        self.bench.edit(alloc, edit)
    }

    fn claim(&mut self, alloc: Global) -> Result<Result<Option<u64>, ClaimFault>, AllocError> {
        let claimed = self.bench.claim(alloc);
        keep_claimed(&mut self.jobs, claimed)
    }

    fn offer<W: Wait>(
        &mut self,
        rt: &W,
        alloc: Global,
        claim: u64,
    ) -> Result<Option<Result<Offered, StoreFault>>, AllocError> {
        match made(rt, alloc, &mut self.jobs, claim)? {
            Some(Ok(done)) => {
                let node = done.node();
                let finish = self.bench.finish(done);
                Ok(Some(Ok(Offered { node, finish })))
            }
            Some(Err(fault)) => Ok(Some(Err(fault))),
            None => Ok(None),
        }
    }

    fn lose(&mut self, claim: u64) -> bool {
        self.bench.lose(claim)
    }

    fn renew(&mut self) {
        self.bench.renew();
    }

    fn shown(&self, test: &[u8], model: &[u8]) -> Shown<'_, Outcome> {
        self.bench.shown(test, model)
    }

    fn has_wrong_mark(&self, alloc: Global) -> Result<bool, AllocError> {
        let marks = self.bench.marks(alloc)?;
        for index in 0..marks.texts().used_count() {
            if is_marked_wrong(&marks, marks.texts().used_at(index)) {
                return Ok(true);
            }
        }
        Ok(false)
    }

    fn output_name(&self, node: Node, number: u64) -> Option<&[u8]> {
        self.bench.texts().output_name(node, number)
    }

    fn run_events<W: Wait>(
        &mut self,
        rt: &W,
        alloc: Global,
        events: &[Event<Edit>],
    ) -> Result<Vec<Reply<EditFault>>, AllocError> {
        self.bench.run_events(rt, alloc, events)
    }

    fn job_count(&self) -> usize {
        self.jobs.len()
    }

    fn claim_at(&self, index: usize) -> u64 {
        match self.jobs.get(index) {
            Some(stage) => stage.claim_number(),
            None => 0,
        }
    }

    fn forget_first(&mut self) {
        if !self.jobs.is_empty() {
            drop(self.jobs.remove(0));
        }
    }
}
