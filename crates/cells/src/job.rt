//! What is handed out to be computed, and what comes back.

ghost use Rattle.std.specs.Prelude.{◌≡◌, ◌≤◌, IfOk, IfErr, length, vec_len, vec_capacity};
ghost use Rattle.memo_engine.specs.Clauses.{IsComputed, return_from};
ghost use Rattle.cells.specs.Views.{task_answered};

use crate::texts::CellTexts;
use memo_core::keys::Node;
use memo_engine::job;
use std::alloc::{AllocError, Global};
use std::marker::Model;
use std::sync::Wait;
use value_store::{StoreFault, StoreName};

/// Why a job is not run: a growth was refused, or S1, the store is full.
pub type RunFault = StoreFault;

/// What is to be computed: a node, with its inputs and their values. Any thread can run it.
pub struct Job<K: StoreName, T: CellTexts> {
    pub(crate) job: job::Job<K, T>,
}

impl<K: StoreName, T: CellTexts> Drop for Job<K, T> {
    fn drop(self) {
        let Job { job: _ } = self;
    }
}

impl<K: StoreName, T: CellTexts> Model for Job<K, T> {
    ghost use Rattle.cells.specs.Views.{Task, task_of};
    ghost use Rattle.memo_core.specs.Views.{shown_values};

    ghost Value = { Task T.Value T.Given };

    ghost view = { λ j. task_of j.job.claim j.job.node j.job.given j.job.keys.items
        (shown_values j.job.values.items) };
}

/// A return: what was computed, from which inputs with which values. Only `Job::run` makes it.
pub struct Done<K: StoreName, T: CellTexts> {
    pub(crate) done: job::Done<K, T>,
}

impl<K: StoreName, T: CellTexts> Drop for Done<K, T> {
    fn drop(self) {
        let Done { done: _ } = self;
    }
}

impl<K: StoreName, T: CellTexts> Model for Done<K, T> {
    ghost use Rattle.memo_core.specs.Step.{Return};
    ghost use Rattle.memo_core.specs.Views.{shown_values};
    ghost use Rattle.memo_engine.specs.Clauses.{return_from};
    ghost use Rattle.cells.specs.Views.{IsJobAnswer};

    ghost Value = { Return T.Value T.Given };

    ghost view = { λ d. return_from d.done };

    ghost invariant = { λ d. IsJobAnswer T.makes d.done.node d.done.given d.done.keys.items
        (shown_values d.done.values.items) d.done.outputs.items d.done.names };
}

impl<K: StoreName, T: CellTexts> Job<K, T> {
    /// The number of its claim.
    pub fn claim_number(&self) -> u64
        ensures { result ≡ self.now.claim }
    {
        self.job.claim
    }

    /// Computes what its node makes, and puts it into the store. Where memory is refused or the
    /// store is full, the job comes back as it was. It may wait while another thread grows the
    /// store. That a value which did not change keeps its token is said of the job of
    /// `memo_engine`, which this runs.
    pub fn run<R: Wait>(self, rt: &R, alloc: Global) -> Result<Done<K, T>, (Job<K, T>, RunFault)>
        ensures same { IfOk result (λ done. task_answered done ≡ self) }
        ensures made { IfOk result (λ done.
            T.makes done.node done.given done.keys done.values done.outputs) }
        ensures err { IfErr result (λ refusal. refusal.0 ≡ self) }
    {
        let Job { job } = self;
        match job.run(rt, alloc) {
            Ok(done) => Ok(Done { done }),
            Err((job, fault)) => Err((Job { job }, fault)),
        }
    }
}

impl<K: StoreName, T: CellTexts> Done<K, T> {
    /// The node whose values it carries.
    pub fn node(&self) -> Node
        ensures { result ≡ self.now.node }
    {
        self.done.node
    }

    /// The number of the claim that it answers.
    pub fn claim_number(&self) -> u64
        ensures { result ≡ self.now.claim }
    {
        self.done.claim_number()
    }

    /// What is returned to the graph.
    pub(crate) fn into_done(self) -> job::Done<K, T>
        ensures done { return_from result ≡ self }
        ensures computed { IsComputed T.makes result }
        ensures empty { vec_len result.names ≡ 0 }
        ensures room { length result.outputs.items ≤ vec_capacity result.names }
    {
        let Done { done } = self;
        done
    }

    /// The same return once more.
    pub fn copy(&self, alloc: Global) -> Result<Done<K, T>, AllocError>
        ensures { IfOk result (λ copy. copy ≡ self.now) }
    {
        Ok(Done {
            done: self.done.copy(alloc)?,
        })
    }
}
