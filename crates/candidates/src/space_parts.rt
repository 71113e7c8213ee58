//! What the candidates of a test are made of.

ghost use Rattle.std.specs.Prelude.{ℕ, ◌≡◌, List, Option, IfOk, IfErr, length, map};
ghost use Rattle.thread_runs.specs.declared.value.Value.{Value};
ghost use Rattle.run_combinations.specs.Candidates.{AreSmall};
ghost use Rattle.store_orders.specs.Events.{initial_stores};
ghost use Rattle.run_combinations.specs.Keys.{IsKeyed};
ghost use Rattle.run_combinations.specs.Search.{all_combinations};
ghost use Rattle.candidates.specs.Listed.{IsSpaceFault};
ghost use Rattle.candidates.specs.Parts.{IsWholeOf, AreSpaceParts, AreCounted};
ghost use Rattle.candidates.specs.TestSpaces.{IsAnswerTo};

use crate::layout_of;
use candidate_spaces::{Space, SpaceFault};
use ppc_semantics::{EvalRefusal, Value};
use run_combinations::{Combination, Found, Layout, find_combinations, registers, with_orders};
use std::alloc::{AllocError, Global};
use text_values::{Name, Test};

/// What the candidates of a test are made of: they are those of its combinations, with each order
/// of the stores.
#[derive(Drop)]
pub struct SpaceParts {
    /// The test's locations, sorted by name bytes.
    pub locations: Vec<Name>,
    /// How many these are.
    pub location_count: usize,
    /// For each thread and each of its runs that is kept, what the registers hold at the end.
    pub registers: Vec<Vec<[Value; 32]>>,
    /// The combinations that have candidates, in the order of their runs, without the orders of
    /// their stores.
    pub combinations: Vec<Combination>,
    /// How many candidates there are.
    pub count: usize,
}

impl SpaceParts {
    /// All candidates. Errors: want of memory.
    pub fn whole(self, alloc: Global) -> Result<Space, AllocError>
        ensures { IfOk result (IsWholeOf self) }
    {
        let combinations = with_orders(alloc, self.combinations, self.location_count)?;
        Ok(Space {
            locations: self.locations,
            registers: self.registers,
            combinations,
        })
    }
}

/// The parts with these combinations.
fn parts_with(alloc: Global, layout: Layout, found: Found) -> Result<SpaceParts, AllocError>
    ensures combinations { IfOk result (λ p. p.combinations ≡ found.combinations) }
    ensures locations { IfOk result (λ p. p.locations ≡ layout.locations) }
    ensures many { IfOk result (λ p. p.location_count ≡ length layout.initial.items) }
    ensures registers { IfOk result (λ p. map (λ v. v.items) p.registers.items
        ≡ map (λ t. map (λ p. p.registers) t.parts.items) layout.threads.items) }
    ensures count { IfOk result (λ p. p.count ≡ found.count) }
{
    let registers = registers(alloc, &layout.threads)?;
    Ok(SpaceParts {
        locations: layout.locations,
        location_count: layout.initial.len(),
        registers,
        combinations: found.combinations,
        count: found.count,
    })
}

/// The parts of a layout, or why it has no space.
fn parts_of(alloc: Global, layout: Layout) -> Result<Result<SpaceParts, EvalRefusal>, AllocError>
    requires { AreSmall (all_combinations layout) }
    ensures { (key : ℕ → Value → Option (ℕ × ℕ)) (initial : List Value) → IsKeyed key layout
        → layout.initial.items ≡ initial_stores 0 initial → IfOk result (λ r. IsAnswerTo layout r) }
{
    match find_combinations(alloc, &layout)? {
        None => Ok(Err(EvalRefusal::TooManyCandidates)),
        Some(found) => {
            if found.is_faulted {
                return Ok(Err(EvalRefusal::AddressFault));
            }
            Ok(Ok(parts_with(alloc, layout, found)?))
        }
    }
}

/// What the candidates of a test are made of. Errors: why the test is refused, as by `space`, or
/// want of memory.
pub fn parts(alloc: Global, test: &Test) -> Result<SpaceParts, SpaceFault>
    ensures parts { IfOk result (AreSpaceParts test.now) }
    ensures count { IfOk result AreCounted }
    ensures refused { IfErr result (IsSpaceFault test.now) }
{
    match layout_of(alloc, test) {
        Err(fault) => Err(fault),
        Ok(layout) => match parts_of(alloc, layout) {
            Err(fault) => Err(SpaceFault::OutOfMemory(fault)),
            Ok(Err(refusal)) => Err(SpaceFault::Refused(refusal)),
            Ok(Ok(parts)) => Ok(parts),
        },
    }
}
