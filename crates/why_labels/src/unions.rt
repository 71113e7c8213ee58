//! Which names an expression is a union of.

ghost use Rattle.std.specs.Prelude.{◌≡◌, IfOk, OnOk, option_map, reverse};
ghost use Rattle.std.specs.List.{cons_option, filter_map};
ghost use Rattle.why_labels.specs.Operands.{AreEarlier, AreOperands, AreOperandsOf, IsUnionOf, body_in, earlier_name, is_earlier, name_of};
ghost use Rattle.why_labels.specs.Scanning.{is_operand, name_at, open_after};

use binding_graph::{Blend, Body, Code, Input, ResolvedItem, Role, Source, Step};
use std::alloc::{AllocError, Global};
use text_values::Predefined;
use why_witness::pending::{close_both, close_next, drop_next, push_twice};

/// A name of a model that stands for a relation.
#[derive(Clone, Copy)]
pub enum ModelName {
    /// A name of the language.
    Predefined(Predefined),
    /// A name that an item binds.
    Bound(Input),
}

// Whether the next relation, as the steps are read from the last, is an operand of the union.
fn is_operand(pending: &[bool]) -> bool
    ensures { result ≡ is_operand (reverse pending.now) }
{
    match pending.last() {
        Some(next) => *next,
        None => false,
    }
}

fn name_at(step: Step, pending: &[bool]) -> Option<Source>
    ensures { result ≡ name_at step (reverse pending.now) }
{
    match step {
        Step::PushRelation(source) => {
            if is_operand(pending) {
                Some(source)
            } else {
                None
            }
        }
        _ => None,
    }
}

// What is still to come before a step.
fn open_before(pending: &mut Vec<bool>, step: Step) -> Result<(), AllocError>
    ensures { OnOk result (reverse pending.new.items
        ≡ open_after step (reverse pending.old.items)) }
{
    match step {
        Step::PushRelation(_) | Step::PushNoPairs | Step::ProductOfSets | Step::IdentityOn => {
            drop_next(pending);
            Ok(())
        }
        Step::BlendRelations(Blend::Union) => push_twice(pending),
        Step::BlendRelations(_) | Step::SequenceRelations => close_both(pending),
        Step::Close(_) | Step::ComplementRelation => close_next(pending),
        _ => Ok(()),
    }
}

// Reads a step: the name that it adds, and what is still to come before it.
fn read_step(
    pending: &mut Vec<bool>,
    sources: &mut Vec<Source>,
    step: Step,
) -> Result<(), AllocError>
    ensures pending { OnOk result (reverse pending.new.items
        ≡ open_after step (reverse pending.old.items)) }
    ensures sources { OnOk result (reverse sources.new.items
        ≡ cons_option (name_at step (reverse pending.old.items)) (reverse sources.old.items)) }
{
    if let Some(source) = name_at(step, pending) {
        sources.push(source)?;
    }
    open_before(pending, step)
}

// The names that the expression is a union of.
fn union_sources(alloc: Global, steps: &[Step]) -> Result<Vec<Source>, AllocError>
    ensures { IfOk result (λ v. IsUnionOf steps.now v.items) }
{
    let mut pending = Vec::new(alloc);
    pending.push(true)?;
    let mut sources = Vec::new(alloc);
    let mut left = steps.len();
    'back: while left > 0 {
        left -= 1;
        read_step(&mut pending, &mut sources, steps[left])?;
    }
    sources.reverse();
    Ok(sources)
}

fn name_of(item: usize, inputs: &[Input], source: Source) -> Option<ModelName>
    ensures { result ≡ name_of item inputs.now source }
{
    match source {
        Source::Predefined(name) => Some(ModelName::Predefined(name)),
        Source::Input(index) => match inputs.get(index) {
            Some(input) => Some(ModelName::Bound(*input)),
            None => None,
        },
        Source::Own(position) => Some(ModelName::Bound(Input { item, position })),
    }
}

fn is_earlier(item: usize, name: ModelName) -> bool
    ensures { result ≡ is_earlier item name }
{
    match name {
        ModelName::Predefined(_) => true,
        ModelName::Bound(input) => input.item < item,
    }
}

// The name that stands there, where the language or an earlier item binds it.
fn earlier_name(item: usize, inputs: &[Input], source: Source) -> Option<ModelName>
    ensures { result ≡ earlier_name item inputs.now source }
{
    let name = name_of(item, inputs, source)?;
    if is_earlier(item, name) {
        Some(name)
    } else {
        None
    }
}

/// The names that stand there, of those of the language and of earlier items. Errors: want of
/// memory.
pub fn earlier_names(
    alloc: Global,
    item: usize,
    inputs: &[Input],
    sources: &[Source],
) -> Result<Vec<ModelName>, AllocError>
    ensures { IfOk result (λ v. v.items ≡ filter_map (earlier_name item inputs.now) sources.now) }
{
    sources
        .iter()
        .filter_map(|source| earlier_name(item, inputs, *source))
        .collect(alloc)
}

/// The names that an expression of the item at this index is a union of: those of the language and
/// of earlier items, from left to right. `inputs` are the names of other items that the item uses.
/// Errors: want of memory.
pub fn operands(
    alloc: Global,
    item: usize,
    inputs: &[Input],
    code: &Code,
) -> Result<Vec<ModelName>, AllocError>
    ensures operands { IfOk result (λ v. AreOperands item inputs.now code.now v.items) }
    ensures earlier { IfOk result (λ v. AreEarlier item v.items) }
{
    let sources = union_sources(alloc, &code.steps)?;
    earlier_names(alloc, item, inputs, &sources)
}

// What a name of a group that is not recursive stands for.
fn body_in(role: &Role, position: usize) -> Option<&Body>
    ensures { option_map (λ b. b.now) result ≡ body_in role.now position }
{
    match role {
        Role::Group { recursive, bodies } => {
            if *recursive {
                None
            } else {
                bodies.get(position)
            }
        }
        Role::Check(_) => None,
        Role::Silent => None,
    }
}

/// The names that what a bound name stands for is a union of. Errors: want of memory.
pub fn operands_of(
    alloc: Global,
    items: &[ResolvedItem],
    input: Input,
) -> Result<Vec<ModelName>, AllocError>
    ensures operands { IfOk result (λ v. AreOperandsOf items.now (ModelName.Bound input) v.items) }
    ensures earlier { IfOk result (λ v. AreEarlier input.item v.items) }
{
    match items.get(input.item) {
        None => Ok(Vec::new(alloc)),
        Some(item) => match body_in(&item.role, input.position) {
            None => Ok(Vec::new(alloc)),
            Some(body) => operands(alloc, input.item, &item.inputs, &body.code),
        },
    }
}
