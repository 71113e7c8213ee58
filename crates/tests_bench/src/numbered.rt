//! A bench by numbers: who plays at it names jobs by their claims, and holds no type of it.

use bench_texts::{Edit, EditFault};
use cells::events::{Event, Reply};
use cells::shown::Shown;
use memo_core::claims::{ClaimFault, Finish};
use memo_core::keys::Node;
use std::alloc::{AllocError, Global};
use std::sync::Wait;
use value_store::StoreFault;
use verdict::Outcome;

/// What became of a return to a bench, and the node that it was for.
#[derive(Drop)]
pub struct Offered {
    pub node: Node,
    pub finish: Finish,
}

/// A bench of tests and models, with the jobs that were claimed of it.
pub trait NumberedBench: Drop {
    /// Makes an edit: its number.
    fn edit(&mut self, alloc: Global, edit: Edit) -> Result<u64, EditFault>;

    /// Claims a job and keeps it: the number of its claim, if there is work. Errors: no room to
    /// keep it.
    fn claim(&mut self, alloc: Global) -> Result<Result<Option<u64>, ClaimFault>, AllocError>;

    /// Returns what the job of a claim makes, as often as it is asked to. None for a claim of no
    /// job that is kept.
    fn offer<W: Wait>(
        &mut self,
        rt: &W,
        alloc: Global,
        claim: u64,
    ) -> Result<Option<Result<Offered, StoreFault>>, AllocError>;

    /// Closes a claim, and says whether it was out.
    fn lose(&mut self, claim: u64) -> bool;

    /// Forgets all that was computed, and closes every claim.
    fn renew(&mut self);

    /// What is shown of a test under a model.
    fn shown(&self, test: &[u8], model: &[u8]) -> Shown<'_, Outcome>;

    /// Whether the marks of a used node say of it what the recursion does not. Errors: no room for
    /// the users of nodes.
    fn has_wrong_mark(&self, alloc: Global) -> Result<bool, AllocError>;

    /// The name of the output of a node that goes by that number, if there is such an output.
    fn output_name(&self, node: Node, number: u64) -> Option<&[u8]>;

    /// Answers a list of events. Errors: want of memory.
    fn run_events<W: Wait>(
        &mut self,
        rt: &W,
        alloc: Global,
        events: &[Event<Edit>],
    ) -> Result<Vec<Reply<EditFault>>, AllocError>;

    /// How many jobs are kept.
    fn job_count(&self) -> usize;

    /// The claim of the job of this index, or 0.
    fn claim_at(&self, index: usize) -> u64;

    /// Forgets the job that was kept first.
    fn forget_first(&mut self);
}
