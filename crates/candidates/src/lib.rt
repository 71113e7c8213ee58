//! The candidate executions of a test: a run of each thread, the store that each load reads, and
//! the order of each location's stores (Alglave, Maranget and Tautschnig, Herding Cats, TOPLAS
//! 36(2), 2014).
//!
//! Read `specs/Executions` first, what an execution is, then `specs/Listed`, what `space` says, and
//! `specs/Laws`, the laws of these (`laws`). The search stands in `run_combinations`.
#![tactic(auto)]

ghost use Rattle.std.specs.Prelude.{IfOk, IfErr};
ghost use Rattle.candidates.specs.Listed.{ListsExecutions, IsSpaceFault};
ghost use Rattle.candidates.specs.TestSpaces.{IsLayoutFault, HasKeyedLayout};

pub mod laws;
mod space_parts;

pub use candidate_spaces::{Execution, Space, SpaceFault};
pub use dataflow::Dependencies;
pub use ppc_semantics::EvalRefusal;
use ppc_semantics::{domain_of, program};
use run_combinations::Layout;
pub use run_combinations::{
    Action, Combination, Event, MAX_CANDIDATES, StoreOrders, row_count, rows_at,
};
pub use space_parts::{SpaceParts, parts};
use std::alloc::{AllocError, Global};
use text_values::Test;

/// What the candidates of a test are made of, or a refusal of its domain.
fn layout_of(alloc: Global, test: &Test) -> Result<Layout, SpaceFault>
    ensures layout { IfOk result (HasKeyedLayout test.now) }
    ensures fault { IfErr result (IsLayoutFault test.now) }
{
    match program(alloc, test) {
        Err(fault) => Err(SpaceFault::OutOfMemory(fault)),
        Ok(program) => match domain_of(alloc, &program) {
            Err(fault) => Err(SpaceFault::of_domain(fault)),
            Ok(domain) => match Layout::new(alloc, program, &domain) {
                Err(fault) => Err(SpaceFault::OutOfMemory(fault)),
                Ok(layout) => Ok(layout),
            },
        },
    }
}

/// All candidates of a test, ordered by runs, then by the stores that the loads read, then by the
/// orders of the stores.
///
/// The test is refused, by the first that applies, as its domain is; with E4 where it has over
/// `MAX_CANDIDATES` candidates; and with E5 where some candidate holds a run that stopped at a
/// fault. Errors: that refusal, or want of memory.
pub fn space(alloc: Global, test: &Test) -> Result<Space, SpaceFault>
    ensures executions { IfOk result (ListsExecutions test.now) }
    ensures refused { IfErr result (IsSpaceFault test.now) }
{
    match parts(alloc, test) {
        Err(fault) => Err(fault),
        Ok(parts) => match parts.whole(alloc) {
            Err(fault) => Err(SpaceFault::OutOfMemory(fault)),
            Ok(space) => Ok(space),
        },
    }
}
