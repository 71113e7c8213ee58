//! What carries a step.

ghost use Rattle.std.specs.Prelude.{◌≡◌, ◌++◌, IfOk, codes, slice_get};
ghost use Rattle.std.specs.List.{All};
ghost use Rattle.predefined_names.specs.declared.predefined.TheConstants.{PREDEFINED};
ghost use Rattle.why_forbidden.specs.Labels.{IsBehind, IsInner, IsStepLabel, IsNamed, item_inputs_of, names_inside_name, spelled};
ghost use Rattle.why_forbidden.specs.Language.{IsOfLanguage, valued_names, relation_names};
ghost use Rattle.why_forbidden.specs.Views.{IsInnermostOf, judgement_of};
ghost use Rattle.why_labels.specs.Inside.{names_inside};

use crate::telling::Judged;
use binding_graph::{Code, Input, Kind, ResolvedItem, Source, Step};
use candidates::Space;
use std::alloc::{AllocError, Global};
use text_values::{PREDEFINED, Predefined, put_bytes};
use why_labels::{
    EventPair, ModelName, PredefinedValue, body_at, innermost, names_inside, operands,
};
use why_witness::expression_column;

/// The values of a name of the language that stands for a relation. Errors: want of memory.
pub fn predefined_value(
    alloc: Global,
    space: &Space,
    name: Predefined,
) -> Result<PredefinedValue, AllocError>
    ensures value { IfOk result (IsOfLanguage space.now) }
    ensures name { IfOk result (λ v. v.name ≡ name) }
{
    let mut steps = Vec::new(alloc);
    steps.push(Step::PushRelation(Source::Predefined(name)))?;
    let code = Code {
        kind: Kind::OfRelation,
        steps,
    };
    let column = expression_column(alloc, &code, space, &[])?;
    Ok(PredefinedValue { name, column })
}

// The values of those of the names that stand for relations.
fn relation_values(
    alloc: Global,
    space: &Space,
    names: &[Predefined],
) -> Result<Vec<PredefinedValue>, AllocError>
    ensures each { IfOk result (λ v. All (IsOfLanguage space.now) v.items) }
    ensures all { IfOk result (λ v. valued_names v.items ≡ relation_names names.now) }
{
    let mut values = Vec::new(alloc);
    for index in 0..names.len() {
        let name = &names[index];
        if !name.is_set() {
            values.push(predefined_value(alloc, space, *name)?)?;
        }
    }
    Ok(values)
}

/// The values of the names of the language that stand for relations, in the order of `PREDEFINED`.
/// Errors: want of memory.
pub fn predefined_values(alloc: Global, space: &Space) -> Result<Vec<PredefinedValue>, AllocError>
    ensures each { IfOk result (λ v. All (IsOfLanguage space.now) v.items) }
    ensures all { IfOk result (λ v. valued_names v.items ≡ relation_names PREDEFINED) }
{
    relation_values(alloc, space, &PREDEFINED)
}

// How a model writes a name.
fn spelled(items: &[ResolvedItem], name: ModelName) -> &[u8]
    ensures { result.now ≡ spelled items.now name }
{
    let input = match name {
        ModelName::Predefined(name) => return name.spelling(),
        ModelName::Bound(input) => input,
    };
    match items.get(input.item) {
        Some(item) => match body_at(&item.role, input.position) {
            Some(body) => body.name.as_bytes(),
            None => b"",
        },
        None => b"",
    }
}

fn inputs_at(items: &[ResolvedItem], index: usize) -> &[Input]
    ensures { result.now ≡ item_inputs_of (slice_get items.now index) }
{
    match items.get(index) {
        Some(item) => &item.inputs,
        None => &[],
    }
}

// The innermost of the names in what a bound name stands for that relates the events.
fn innermost_in(
    alloc: Global,
    judged: Judged<'_>,
    input: Input,
    pair: EventPair,
) -> Result<Option<ModelName>, AllocError>
    ensures { IfOk result (IsInnermostOf judged.entry pair
        (names_inside judged.entry.items.now input)) }
{
    let names = names_inside(alloc, judged.items, input)?;
    innermost(
        alloc,
        judged.items,
        &judged.values,
        &names,
        input.item,
        pair,
    )
}

// Likewise of any name.
fn innermost_within(
    alloc: Global,
    judged: Judged<'_>,
    name: ModelName,
    pair: EventPair,
) -> Result<Option<ModelName>, AllocError>
    ensures { IfOk result (IsInnermostOf judged.entry pair
        (names_inside_name judged.entry.items.now name)) }
{
    match name {
        ModelName::Predefined(_) => Ok(None),
        ModelName::Bound(input) => innermost_in(alloc, judged, input, pair),
    }
}

fn behind_colon(alloc: Global, name: &[u8]) -> Result<Vec<u8>, AllocError>
    ensures { IfOk result (λ v. v.items ≡ codes ":" ++ name.now) }
{
    let mut text = Vec::from_slice(alloc, b":")?;
    put_bytes(&mut text, name)?;
    Ok(text)
}

// What is told behind a name one level deeper.
fn inner_text(
    alloc: Global,
    judged: Judged<'_>,
    name: ModelName,
    pair: EventPair,
) -> Result<Vec<u8>, AllocError>
    ensures { IfOk result (λ v.
        IsInner judged.entry.items.now judged.entry.values pair name v.items) }
{
    match innermost_within(alloc, judged, name, pair)? {
        Some(inner) => behind_colon(alloc, spelled(judged.items, inner)),
        None => Ok(Vec::new(alloc)),
    }
}

// What is told behind a name.
fn text_behind(
    alloc: Global,
    judged: Judged<'_>,
    is_deep: bool,
    name: ModelName,
    pair: EventPair,
) -> Result<Vec<u8>, AllocError>
    ensures { IfOk result (λ v.
        IsBehind is_deep judged.entry.items.now judged.entry.values pair name v.items) }
{
    if is_deep {
        inner_text(alloc, judged, name, pair)
    } else {
        Ok(Vec::new(alloc))
    }
}

// A name, and what is told behind it.
fn named(
    alloc: Global,
    judged: Judged<'_>,
    is_deep: bool,
    name: ModelName,
    pair: EventPair,
) -> Result<Vec<u8>, AllocError>
    ensures { IfOk result (λ v. IsNamed (judgement_of judged.entry is_deep) pair name v.items) }
{
    let behind = text_behind(alloc, judged, is_deep, name, pair)?;
    let mut text = Vec::from_slice(alloc, spelled(judged.items, name))?;
    put_bytes(&mut text, &behind)?;
    Ok(text)
}

/// The innermost name of an expression of the item at an index that relates the two events, as a
/// model writes it; nothing where none does. Deep, it is told with the innermost name in what that
/// name stands for. Errors: want of memory.
pub fn label(
    alloc: Global,
    judged: Judged<'_>,
    is_deep: bool,
    item: usize,
    code: &Code,
    pair: EventPair,
) -> Result<Vec<u8>, AllocError>
    ensures { IfOk result (λ v.
        IsStepLabel (judgement_of judged.entry is_deep) item code.now pair v.items) }
{
    let names = operands(alloc, item, inputs_at(judged.items, item), code)?;
    match innermost(alloc, judged.items, &judged.values, &names, item, pair)? {
        Some(name) => named(alloc, judged, is_deep, name, pair),
        None => Ok(Vec::new(alloc)),
    }
}
