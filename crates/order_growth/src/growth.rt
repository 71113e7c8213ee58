//! How names and expressions change, told by their form.

ghost use Rattle.std.specs.Prelude.{◌≡◌, ◌∷◌, [], List, IfOk, OnOk, reverse};
ghost use Rattle.predefined_names.specs.declared.predefined.Predefined.{Predefined};
ghost use Rattle.order_growth.specs.Growth.{growth_of_both, growth_of_complement, growth_of_blend, growth_of_all, predefined_growth, source_growth, IsGrowthOf, AreGrowthsOf, AreGroupGrowths};
ghost use Rattle.order_growth.specs.Stacks.{top_of, below_top, growths_after};

use binding_graph::{Blend, Body, Source, Step};
use std::alloc::{AllocError, Global};
use text_values::Predefined;

/// How a relation may change where reads-from and coherence have more pairs.
#[derive(Clone, Copy, PartialEq, Eq)]
pub enum Growth {
    /// It has the same pairs.
    Stays,
    /// It has the same pairs, and perhaps more.
    Grows,
    /// Nothing is known.
    Unknown,
}

/// What is known of a relation that is made of two.
fn growth_of_both(left: Growth, right: Growth) -> Growth
    ensures { result ≡ growth_of_both left right }
{
    match left {
        Growth::Stays => right,
        Growth::Grows => match right {
            Growth::Stays => Growth::Grows,
            Growth::Grows => Growth::Grows,
            Growth::Unknown => Growth::Unknown,
        },
        Growth::Unknown => Growth::Unknown,
    }
}

/// What is known of what lies in one relation and not in another, of a union or an intersection.
fn growth_of_blend(how: Blend, left: Growth, right: Growth) -> Growth
    ensures { result ≡ growth_of_blend how left right }
{
    match how {
        Blend::Union => growth_of_both(left, right),
        Blend::Intersection => growth_of_both(left, right),
        Blend::Difference => growth_of_both(left, growth_of_complement(right)),
    }
}

/// What is known of a complement.
fn growth_of_complement(growth: Growth) -> Growth
    ensures { result ≡ growth_of_complement growth }
{
    match growth {
        Growth::Stays => Growth::Stays,
        Growth::Grows => Growth::Unknown,
        Growth::Unknown => Growth::Unknown,
    }
}

/// How a predefined name changes.
fn predefined_growth(name: Predefined) -> Growth
    ensures { result ≡ predefined_growth name }
{
    match name {
        Predefined::ReadsFrom
        | Predefined::Coherence
        | Predefined::FromReads
        | Predefined::ReadsFromExternal
        | Predefined::ReadsFromInternal
        | Predefined::CoherenceExternal
        | Predefined::CoherenceInternal
        | Predefined::FromReadsExternal
        | Predefined::FromReadsInternal
        | Predefined::Communication => Growth::Grows,
        _ => Growth::Stays,
    }
}

/// How a name of an item changes, whose inputs change so.
fn source_growth(source: Source, inputs: &[Growth]) -> Growth
    ensures { result ≡ source_growth inputs.now source }
{
    match source {
        Source::Predefined(name) => predefined_growth(name),
        Source::Input(index) => match inputs.get(index) {
            Some(growth) => *growth,
            None => Growth::Unknown,
        },
        Source::Own(_) => Growth::Stays,
    }
}

/// Takes the uppermost from the stack.
fn take_top(stack: &mut Vec<Growth>) -> Growth
    ensures top { result ≡ top_of (reverse stack.old.items) }
    ensures below { reverse stack.new.items ≡ below_top (reverse stack.old.items) }
{
    match stack.pop() {
        Some(growth) => growth,
        None => Growth::Unknown,
    }
}

/// Puts what a step makes of the uppermost relations in their place.
fn apply(step: Step, inputs: &[Growth], stack: &mut Vec<Growth>) -> Result<(), AllocError>
    ensures { OnOk result (reverse stack.new.items
        ≡ growths_after inputs.now step (reverse stack.old.items)) }
{
    match step {
        Step::PushRelation(source) => push(source_growth(source, inputs), stack),
        Step::PushNoPairs | Step::ProductOfSets | Step::IdentityOn => push(Growth::Stays, stack),
        Step::BlendRelations(how) => {
            let right = take_top(stack);
            let left = take_top(stack);
            push(growth_of_blend(how, left, right), stack)
        }
        Step::SequenceRelations => {
            let right = take_top(stack);
            let left = take_top(stack);
            push(growth_of_both(left, right), stack)
        }
        Step::ComplementRelation => {
            let growth = take_top(stack);
            push(growth_of_complement(growth), stack)
        }
        Step::PushSet(_)
        | Step::PushEverything
        | Step::PushNoEvents
        | Step::BlendSets(_)
        | Step::ComplementSet
        | Step::Close(_) => Ok(()),
    }
}

fn push(growth: Growth, stack: &mut Vec<Growth>) -> Result<(), AllocError>
    ensures { OnOk result (reverse stack.new.items ≡ growth ∷ reverse stack.old.items) }
{
    stack.push(growth)?;
    Ok(())
}

/// How the relation changes that the steps of an expression make, where the inputs of its item
/// change so. Errors: want of memory.
pub fn code_growth(alloc: Global, steps: &[Step], inputs: &[Growth]) -> Result<Growth, AllocError>
    ensures { IfOk result (IsGrowthOf inputs.now steps.now) }
{
    let mut stack = Vec::new(alloc);
    for step in steps {
        apply(*step, inputs, &mut stack)?;
    }
    Ok(take_top(&mut stack))
}

/// How each body of a group changes.
fn body_growths(
    alloc: Global,
    bodies: &[Body],
    inputs: &[Growth],
) -> Result<Vec<Growth>, AllocError>
    ensures { IfOk result (λ v. AreGrowthsOf inputs.now bodies.now v.items) }
{
    let mut growths = Vec::with_capacity(alloc, bodies.len())?;
    for body in bodies {
        growths.push(code_growth(alloc, &body.code.steps, inputs)?)?;
    }
    Ok(growths)
}

/// What is known of all.
fn growth_of_all(growths: &[Growth]) -> Growth
    ensures { result ≡ growth_of_all growths.now }
{
    let mut all = Growth::Stays;
    for growth in growths {
        all = growth_of_both(all, *growth);
    }
    all
}

/// How each name of a group changes, where the inputs of the group change so. Errors: want of
/// memory.
pub fn group_growths(
    alloc: Global,
    recursive: bool,
    bodies: &[Body],
    inputs: &[Growth],
) -> Result<Vec<Growth>, AllocError>
    ensures { IfOk result (λ v. AreGroupGrowths inputs.now recursive bodies.now v.items) }
{
    let each = body_growths(alloc, bodies, inputs)?;
    if !recursive {
        return Ok(each);
    }
    let all = growth_of_all(&each);
    vec![in alloc; all; each.len()]
}
