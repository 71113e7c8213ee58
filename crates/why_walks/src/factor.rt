//! The factors of a composition.

ghost use Rattle.std.specs.Prelude.{◌≡◌, [], IfOk, OnOk, reverse};
ghost use Rattle.why_walks.specs.Factors.{AreFactors, factor_steps, parts_in};
ghost use Rattle.why_walks.specs.Scanning.{is_next_factor, last_of, makes_relation, parts_after, pending_after, with_last, with_step};

use binding_graph::Step;
use std::alloc::{AllocError, Global};
use text_values::Postfix;
use why_witness::pending::{close_both, close_next, drop_next, push_twice};

/// How often a factor takes the steps of its relation.
#[derive(Clone, Copy, Debug, PartialEq, Eq)]
pub enum Repeats {
    /// Exactly once.
    Once,
    /// Once or not at all, as in `r?`.
    AtMostOnce,
    /// Once or more, as in `r+`.
    OnceOrMore,
    /// Any number of times, as in `r*`.
    AnyNumber,
}

/// An operand of a composition.
#[derive(Drop)]
pub struct Factor {
    /// How often it takes the steps of its relation.
    pub repeats: Repeats,
    /// The expression of the relation.
    pub steps: Vec<Step>,
}

// Whether the next relation, as the steps are read from the last, is a factor.
fn is_next_factor(pending: &[bool]) -> bool
    ensures { result ≡ is_next_factor (reverse pending.now) }
{
    match pending.last() {
        Some(next) => *next,
        None => false,
    }
}

// What is still to come before a step.
fn pending_before(pending: &mut Vec<bool>, step: Step) -> Result<(), AllocError>
    ensures { OnOk result (reverse pending.new.items
        ≡ pending_after step (reverse pending.old.items)) }
{
    match step {
        Step::PushRelation(_) | Step::PushNoPairs | Step::ProductOfSets | Step::IdentityOn => {
            drop_next(pending);
            Ok(())
        }
        Step::BlendRelations(_) => close_both(pending),
        Step::SequenceRelations => push_twice(pending),
        Step::Close(_) | Step::ComplementRelation => close_next(pending),
        _ => Ok(()),
    }
}

fn makes_relation(step: Step) -> bool
    ensures { result ≡ makes_relation step }
{
    match step {
        Step::PushSet(_)
        | Step::PushEverything
        | Step::PushNoEvents
        | Step::BlendSets(_)
        | Step::ComplementSet => false,
        _ => true,
    }
}

fn empty_factor(alloc: Global, repeats: Repeats) -> Factor
    ensures { factor_steps result ≡ record { repeats = repeats; steps = [] } }
{
    let steps = Vec::new(alloc);
    Factor { repeats, steps }
}

// The factor that ends with a step.
fn last_of(alloc: Global, step: Step) -> Result<Factor, AllocError>
    ensures { IfOk result (λ f. factor_steps f ≡ last_of step) }
{
    match step {
        Step::Close(Postfix::Transitive) => Ok(empty_factor(alloc, Repeats::OnceOrMore)),
        Step::Close(Postfix::Reflexive) => Ok(empty_factor(alloc, Repeats::AtMostOnce)),
        Step::Close(Postfix::Closure) => Ok(empty_factor(alloc, Repeats::AnyNumber)),
        _ => {
            let steps = Vec::from_slice(alloc, &[step])?;
            Ok(Factor {
                repeats: Repeats::Once,
                steps,
            })
        }
    }
}

// One step more of the uppermost factor.
fn add_step(factors: &mut Vec<Factor>, step: Step) -> Result<(), AllocError>
    ensures { OnOk result (parts_in factors.new.items
        ≡ with_step step (parts_in factors.old.items)) }
{
    if let Some(factor) = factors.pop() {
        let repeats = factor.repeats;
        let mut steps = factor.steps;
        steps.insert(0, step)?;
        factors.push(Factor { repeats, steps })?;
    }
    Ok(())
}

// A relation that is a factor: its last step, or a composition of further factors.
fn add_last(alloc: Global, factors: &mut Vec<Factor>, step: Step) -> Result<(), AllocError>
    ensures { OnOk result (parts_in factors.new.items
        ≡ with_last step (parts_in factors.old.items)) }
{
    match step {
        Step::SequenceRelations => Ok(()),
        _ => {
            factors.push(last_of(alloc, step)?)?;
            Ok(())
        }
    }
}

// Reads a step: the factors that it adds to, and what is still to come before it.
fn read_step(
    alloc: Global,
    pending: &mut Vec<bool>,
    factors: &mut Vec<Factor>,
    step: Step,
) -> Result<(), AllocError>
    ensures pending { OnOk result (reverse pending.new.items
        ≡ pending_after step (reverse pending.old.items)) }
    ensures factors { OnOk result (parts_in factors.new.items
        ≡ parts_after (makes_relation step) step (reverse pending.old.items)
        (parts_in factors.old.items)) }
{
    if makes_relation(step) && is_next_factor(pending) {
        add_last(alloc, factors, step)?;
    } else {
        add_step(factors, step)?;
    }
    pending_before(pending, step)
}

/// The factors of the composition that an expression of these steps is, from left to right; what is
/// no composition is its only factor. Errors: want of memory.
pub fn factors(alloc: Global, steps: &[Step]) -> Result<Vec<Factor>, AllocError>
    ensures { IfOk result (λ v. AreFactors steps.now v.items) }
{
    let mut pending = Vec::new(alloc);
    pending.push(true)?;
    let mut factors = Vec::new(alloc);
    let mut left = steps.len();
    'back: while left > 0 {
        left -= 1;
        read_step(alloc, &mut pending, &mut factors, steps[left])?;
    }
    factors.reverse();
    Ok(factors)
}
