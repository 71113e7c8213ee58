//! Candidate executions, shared by combinations of runs.
ghost use Rattle.std.specs.Prelude.{◌≡◌, ◌-◌, ◌^◌, ◌<◌, ◌≤◌, ◌↔◌, min, length, IsTrue, IfOk, IfSome, IfNone, HoldsAt};
ghost use Rattle.store_orders.specs.Combinations.{candidates_of};
ghost use Rattle.candidate_spaces.specs.Space.{IsCandidateOf};

use crate::ends::final_registers;
use crate::execution::Execution;
use crate::same::{Candidates, are_same};
use ppc_semantics::Value;
use run_combinations::Combination;
use std::alloc::{AllocError, Global};
use text_values::{Name, are_same_names};

/// All candidates of a test: those of each combination in turn.
pub struct Space {
    /// The test's locations, sorted by name bytes.
    pub locations: Vec<Name>,
    /// For each thread and each of its runs that is kept, what the registers hold at the end.
    pub registers: Vec<Vec<[Value; 32]>>,
    /// The combinations that have candidates, in the order of their runs.
    pub combinations: Vec<Combination>,
}

impl Drop for Space {
    fn drop(self) {
        let Space {
            locations: _,
            registers: _,
            combinations: _,
        } = self;
    }
}

/// The candidate at this index among those of the combination.
fn execution_of(
    combination: &Combination,
    alloc: Global,
    registers: &[Vec<[Value; 32]>],
    index: usize,
) -> Result<Execution, AllocError>
    requires { index < length (candidates_of combination.now) }
    ensures { IfOk result (λ e. HoldsAt (λ t. IsCandidateOf registers.now combination.now t e)
        (candidates_of combination.now) index) }
{
    let orders = combination.orders.len();
    let reads_from = &combination.reads_from[index / orders];
    let coherence = combination.orders.order(index % orders);
    Ok(Execution {
        events: Vec::from_slice(alloc, &combination.events)?,
        dependencies: combination.dependencies.copied(alloc)?,
        reads_from: Vec::from_slice(alloc, reads_from)?,
        coherence: Vec::from_slice(alloc, coherence)?,
        registers: final_registers(alloc, registers, &combination.runs)?,
    })
}

impl Space {
    ghost use Rattle.candidate_spaces.specs.Space.{candidate_count, IsShownAt, ShowTheSame};

    /// How many candidates there are, or the greatest number where that is less.
    pub fn len(&self) -> usize
        ensures { result ≡ min (candidate_count self.now) (2 ^ 64 - 1) }
    {
        let mut count = 0usize;
        for combination in &self.combinations {
            count = count.saturating_add(combination.candidate_count());
        }
        count
    }

    /// Whether there is no candidate.
    pub fn is_empty(&self) -> bool
        ensures { IsTrue result ↔ (candidate_count self.now ≡ 0) }
    {
        self.len() == 0
    }

    /// Whether both show the same: the names of the locations, and as many candidates, the same at
    /// each index.
    pub fn is_same(&self, other: &Space) -> bool
        ensures { IsTrue result ↔ ShowTheSame self.now other.now }
    {
        if !are_same_names(&self.locations, &other.locations) {
            return false;
        }
        are_same(
            Candidates::new(&self.combinations),
            &self.registers,
            Candidates::new(&other.combinations),
            &other.registers,
        )
    }

    /// The candidate at an index, from 0; `None` where there are no more than `index`. Errors: want
    /// of memory.
    pub fn execution(&self, alloc: Global, index: usize) -> Result<Option<Execution>, AllocError>
        ensures some { IfOk result (λ o.
            IfSome o (λ e. (index < candidate_count self.now) × IsShownAt self.now index e)) }
        ensures none { IfOk result (λ o. IfNone o (candidate_count self.now ≤ index)) }
    {
        let mut left = index;
        for combination in &self.combinations {
            if combination.has(left) {
                let found = execution_of(combination, alloc, &self.registers, left)?;
                return Ok(Some(found));
            }
            left -= combination.candidate_count();
        }
        Ok(None)
    }
}
