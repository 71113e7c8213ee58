//! Values of names and answers to checks, as `cat_eval` finds them over the candidates of a small
//! test.

use crate::cases::put_bool;
use binding_graph::{Resolved, ResolvedItem, resolve};
use bit_relations::{EventSet, Rel};
use candidates::{Space, space};
use cat_eval::{Column, eval_check, eval_group};
use cat_syntax::read_model;
use litmus_ppc::read_test;
use relation_columns::{Cursor, RunColumn, SetRuns};
use std::alloc::{AllocError, Global};
use text_values::{put_between, put_bytes, put_decimal};

/// Events: 0 the initial store, 1 the store, 2 the load. The load reads 0 in the first candidate
/// and 1 in the second.
const COWR: &[u8] =
    b"PPC CoWR\n{\n0:r2=x;\n}\n P0 ;\n li r1,1 ;\n stw r1,0(r2) ;\n lwz r3,0(r2) ;\nexists (0:r3=0)\n";

/// The pairs from an event.
fn put_row(answer: &mut Vec<u8>, value: &Rel, from: usize) -> Result<(), AllocError> {
    for to in 0..value.count() {
        if from < value.count() && value.contains(from, to) {
            put_decimal(answer, from as u64)?;
            put_decimal(answer, to as u64)?;
            put_bytes(answer, b" ")?;
        }
    }
    Ok(())
}

/// The pairs of a relation, rising.
fn put_relation(answer: &mut Vec<u8>, value: &Rel) -> Result<(), AllocError> {
    for from in 0..value.count() {
        put_row(answer, value, from)?;
    }
    Ok(())
}

/// The members of a set, rising.
fn put_set(answer: &mut Vec<u8>, value: &EventSet) -> Result<(), AllocError> {
    for event in 0..value.count() {
        if value.contains(event) {
            put_decimal(answer, event as u64)?;
            put_bytes(answer, b" ")?;
        }
    }
    Ok(())
}

fn put_sets(answer: &mut Vec<u8>, values: &SetRuns) -> Result<(), AllocError> {
    let mut cursor = Cursor::new();
    for k in 0..values.len() {
        let (value, _) = values.read(&mut cursor, k);
        put_set(answer, &value)?;
        put_bytes(answer, b";")?;
    }
    Ok(())
}

fn put_relations(answer: &mut Vec<u8>, values: &RunColumn) -> Result<(), AllocError> {
    let mut place = Rel::empty(0);
    let mut cursor = Cursor::new();
    for k in 0..values.len() {
        values.read(&mut cursor, k, &mut place);
        put_relation(answer, &place)?;
        put_bytes(answer, b";")?;
    }
    Ok(())
}

/// The values of a name, one after another.
fn put_column(answer: &mut Vec<u8>, column: &Column) -> Result<(), AllocError> {
    match column {
        Column::Sets(values) => put_sets(answer, values),
        Column::Relations(values) => put_relations(answer, values),
    }
}

/// The columns of an item's inputs.
fn inputs_of<'a>(
    alloc: Global,
    item: &ResolvedItem,
    columns: &'a [Vec<Column>],
) -> Result<Vec<&'a Column>, AllocError> {
    let mut inputs = Vec::new(alloc);
    for input in &item.inputs {
        if let Some(group) = columns.get(input.item) {
            if let Some(column) = group.get(input.position) {
                inputs.push(column)?;
            }
        }
    }
    Ok(inputs)
}

/// Appends the values of the names of the last item of a model.
fn put_last_values(
    alloc: Global,
    answer: &mut Vec<u8>,
    space: &Space,
    resolved: &Resolved,
) -> Result<(), AllocError> {
    let mut columns = Vec::new(alloc);
    for item in &resolved.items {
        let inputs = inputs_of(alloc, item, &columns)?;
        let values = eval_group(alloc, item, space, &inputs)?;
        drop(inputs);
        columns.push(values)?;
    }
    if let Some(group) = columns.last() {
        for column in group {
            put_column(answer, column)?;
        }
    }
    Ok(())
}

/// Appends whether the first item of a model holds, for each candidate.
fn put_first_answers(
    alloc: Global,
    answer: &mut Vec<u8>,
    space: &Space,
    resolved: &Resolved,
) -> Result<(), AllocError> {
    if let Some(item) = resolved.items.first() {
        for (index, holds) in eval_check(alloc, item, space, &[])?.iter().enumerate() {
            put_between(answer, b" ", index)?;
            put_bool(answer, *holds)?;
        }
    }
    Ok(())
}

/// The candidates of the small test.
fn small_space(alloc: Global) -> Option<Space> {
    match read_test(alloc, COWR) {
        Ok(test) => space(alloc, &test).ok(),
        Err(_) => None,
    }
}

/// The model that a text means, resolved.
fn resolved_of(alloc: Global, text: &[u8]) -> Option<Resolved> {
    match read_model(alloc, text) {
        Ok(model) => resolve(alloc, &model).ok(),
        Err(_) => None,
    }
}

/// Appends what the last item of a model means over the candidates.
pub fn put_values(alloc: Global, answer: &mut Vec<u8>, text: &[u8]) -> Result<(), AllocError> {
    match (small_space(alloc), resolved_of(alloc, text)) {
        (Some(space), Some(resolved)) => put_last_values(alloc, answer, &space, &resolved),
        _ => put_bytes(answer, b"refused"),
    }
}

/// Appends whether the only item of a model holds, for each candidate.
pub fn put_holds(alloc: Global, answer: &mut Vec<u8>, text: &[u8]) -> Result<(), AllocError> {
    match (small_space(alloc), resolved_of(alloc, text)) {
        (Some(space), Some(resolved)) => put_first_answers(alloc, answer, &space, &resolved),
        _ => put_bytes(answer, b"refused"),
    }
}
