//! Faults of models, what their items use, and functions put in, as `binding_graph` finds them.

use binding_graph::{
    CheckCode, Kind, ResolveFault, Resolved, ResolvedItem, Role, Source, Step, inputs_of, resolve,
    used,
};
use cat_eval::rounds;
use cat_syntax::{Predefined, read_model};
use std::alloc::{AllocError, Global};
use text_values::{put_between, put_bytes, put_decimal};

fn put_list(answer: &mut Vec<u8>, numbers: &[usize]) -> Result<(), AllocError> {
    for (index, number) in numbers.iter().enumerate() {
        put_between(answer, b" ", index)?;
        put_decimal(answer, *number as u64)?;
    }
    Ok(())
}

/// Appends the inputs of an item, each an item and the place of its name there, and its functions.
fn put_item(answer: &mut Vec<u8>, model: &Resolved, item: usize) -> Result<(), AllocError> {
    put_bytes(answer, b"inputs ")?;
    for (index, input) in inputs_of(model, item).iter().enumerate() {
        put_between(answer, b" ", index)?;
        put_decimal(answer, input.item as u64)?;
        put_bytes(answer, b".")?;
        put_decimal(answer, input.position as u64)?;
    }
    put_bytes(answer, b"; functions ")?;
    match model.items.get(item) {
        Some(group) => put_list(answer, &group.functions),
        None => put_bytes(answer, b"of no item"),
    }
}

fn step_text(step: Step) -> &'static [u8] {
    match step {
        Step::PushSet(Source::Predefined(Predefined::Loads)) => b"push set R",
        Step::PushRelation(Source::Predefined(Predefined::ProgramOrder)) => b"push relation po",
        Step::IdentityOn => b"restrict",
        Step::SequenceRelations => b"compose",
        _ => b"another",
    }
}

fn put_code(answer: &mut Vec<u8>, check: &CheckCode) -> Result<(), AllocError> {
    let kind = match check.code.kind {
        Kind::OfRelation => b"relation: ".as_slice(),
        _ => b"no relation: ",
    };
    put_bytes(answer, kind)?;
    for (index, step) in check.code.steps.iter().enumerate() {
        put_between(answer, b", ", index)?;
        put_bytes(answer, step_text(*step))?;
    }
    Ok(())
}

fn put_steps(answer: &mut Vec<u8>, item: Option<&ResolvedItem>) -> Result<(), AllocError> {
    if let Some(item) = item {
        if let Role::Check(check) = &item.role {
            return put_code(answer, check);
        }
    }
    put_bytes(answer, b"no check")
}

/// Appends which names of the first item a round computes anew, as bits, for each set of its first
/// three names that grew; then those of the item behind it and of no item, where all grew.
fn put_rounds(answer: &mut Vec<u8>, model: &Resolved) -> Result<(), AllocError> {
    for grew in 0..8 {
        put_decimal(answer, rounds::next(model, 0, grew))?;
        put_bytes(answer, b" ")?;
    }
    put_decimal(answer, rounds::next(model, 1, u64::MAX))?;
    put_bytes(answer, b" ")?;
    put_decimal(answer, rounds::next(model, model.items.len(), u64::MAX))
}

/// Appends the answer to a question about a model without faults.
fn put_parts(
    alloc: Global,
    answer: &mut Vec<u8>,
    question: &str,
    model: &Resolved,
) -> Result<(), AllocError> {
    match question {
        "fault" => put_bytes(answer, b"0"),
        "used items" => put_list(answer, &used(alloc, model)?),
        "item 3" => put_item(answer, model, 3),
        "rounds of item 0" => put_rounds(answer, model),
        "steps of item 1" => put_steps(answer, model.items.get(1)),
        _ => put_bytes(answer, b"no such question"),
    }
}

/// Appends the answer to a question about a model, or the number of its first fault.
pub fn put_answer(
    alloc: Global,
    answer: &mut Vec<u8>,
    question: &str,
    text: &[u8],
) -> Result<(), AllocError> {
    match read_model(alloc, text) {
        Ok(model) => match resolve(alloc, &model) {
            Ok(resolved) => put_parts(alloc, answer, question, &resolved),
            Err(ResolveFault::Refused(fault)) => put_decimal(answer, u64::from(fault.number())),
            Err(ResolveFault::OutOfMemory(_)) => Err(AllocError),
        },
        Err(_) => put_bytes(answer, b"no model"),
    }
}
