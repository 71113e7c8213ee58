//! One cell, node by node, as the bench computes it.

use crate::cells::put_outcome;
use bench_items::SharedItem;
use bench_values::{FaultParts, Given, GivenParts, NodeValue, SpaceParts, VerdictParts, run_node};
use binding_graph::{Input, ResolveFault, Resolved, ResolvedItem, Role, resolve, used};
use cat_syntax::{ModelText, read_model};
use litmus_ppc::{Name, Test, read_test};
use ppc_semantics::program;
use std::alloc::{AllocError, Global};
use std::sync::Arc;
use text_values::put_bytes;

/// The values of some names, where they are known, behind the space.
fn inputs_of<'v>(
    alloc: Global,
    space: &'v [NodeValue],
    columns: &'v [Vec<NodeValue>],
    inputs: &[Input],
) -> Result<Vec<&'v NodeValue>, AllocError> {
    let mut values = Vec::new(alloc);
    for value in space {
        values.push(value)?;
    }
    for input in inputs {
        if let Some(names) = columns.get(input.item) {
            if let Some(value) = names.get(input.position) {
                values.push(value)?;
            }
        }
    }
    Ok(values)
}

fn run_item(
    alloc: Global,
    space: &[NodeValue],
    columns: &[Vec<NodeValue>],
    item: SharedItem,
) -> Result<Vec<NodeValue>, AllocError> {
    let inputs: Vec<Input> = Vec::from_slice(alloc, &item.item().inputs)?;
    let given = Given::new(alloc, GivenParts::Item(item))?;
    let values = inputs_of(alloc, space, columns, &inputs)?;
    run_node(alloc, &given, &values)
}

/// Of a check or a flag the name of the flag, at the end of the names: none of a check.
fn add_flag(
    alloc: Global,
    names: &mut Vec<Option<Name>>,
    item: &ResolvedItem,
) -> Result<(), AllocError> {
    if let Role::Check(check) = &item.role {
        match &check.flag {
            Some(name) => names.push(Some(name.copied(alloc)?))?,
            None => names.push(None)?,
        }
    }
    Ok(())
}

/// What the used items of a model give, and of each check and flag the name of the flag.
#[derive(Drop)]
struct ItemValues {
    values: Vec<Vec<NodeValue>>,
    flags: Vec<Option<Name>>,
}

fn item_values(
    alloc: Global,
    space: &[NodeValue],
    resolved: Resolved,
) -> Result<ItemValues, AllocError> {
    let places = used(alloc, &resolved)?;
    let resolved = Arc::new(alloc, resolved)?;
    let mut values = Vec::new(alloc);
    let mut flags = Vec::new(alloc);
    for at in 0..resolved.items.len() {
        if places.contains(&at) {
            add_flag(alloc, &mut flags, &resolved.items[at])?;
            let item = SharedItem::new(alloc, Arc::try_clone(&resolved)?, at, None)?;
            let made = run_item(alloc, space, &values, item)?;
            values.push(made)?;
        } else {
            values.push(Vec::new(alloc))?;
        }
    }
    Ok(ItemValues { values, flags })
}

/// What a node gives that uses no other.
fn run_alone(alloc: Global, given: &Given) -> Result<Vec<NodeValue>, AllocError> {
    let none: Vec<&NodeValue> = Vec::new(alloc);
    run_node(alloc, given, &none)
}

fn space_of(alloc: Global, test: Test) -> Result<Vec<NodeValue>, AllocError> {
    let locations = program(alloc, &test)?.locations;
    let parts = SpaceParts {
        init: test.init,
        threads: test.threads,
        locations,
    };
    let given = Given::new(alloc, GivenParts::Space(parts))?;
    run_alone(alloc, &given)
}

/// The values of all nodes, the space first.
fn all_values<'v>(
    alloc: Global,
    space: &'v [NodeValue],
    values: &'v [Vec<NodeValue>],
) -> Result<Vec<&'v NodeValue>, AllocError> {
    let mut all = Vec::new(alloc);
    for value in space {
        all.push(value)?;
    }
    for made in values {
        for value in made {
            all.push(value)?;
        }
    }
    Ok(all)
}

fn evaluated(
    alloc: Global,
    test: Test,
    again: Test,
    resolved: Resolved,
) -> Result<Vec<NodeValue>, AllocError> {
    let space = space_of(alloc, test)?;
    let made = item_values(alloc, &space, resolved)?;
    let parts = VerdictParts {
        condition: again.condition,
        observed: again.observed,
        flags: made.flags,
    };
    let given = Given::new(alloc, GivenParts::Verdict(parts))?;
    let values = all_values(alloc, &space, &made.values)?;
    run_node(alloc, &given, &values)
}

fn verdict(
    alloc: Global,
    model: &ModelText,
    test: Test,
    again: Test,
) -> Result<Vec<NodeValue>, AllocError> {
    match resolve(alloc, model) {
        Ok(resolved) => evaluated(alloc, test, again, resolved),
        Err(ResolveFault::Refused(fault)) => {
            let parts = FaultParts {
                condition: again.condition,
                fault,
            };
            let given = Given::new(alloc, GivenParts::Fault(parts))?;
            run_alone(alloc, &given)
        }
        Err(ResolveFault::OutOfMemory(fault)) => Err(fault),
    }
}

/// Appends the outcome of a test under a model.
pub fn put_nodes(
    alloc: Global,
    answer: &mut Vec<u8>,
    model: &[u8],
    text: &[u8],
) -> Result<(), AllocError> {
    let Ok(model) = read_model(alloc, model) else {
        return put_bytes(answer, b"refused");
    };
    match (read_test(alloc, text), read_test(alloc, text)) {
        (Ok(test), Ok(again)) => {
            let made = verdict(alloc, &model, test, again)?;
            for value in &made {
                if let Some(outcome) = value.outcome() {
                    put_outcome(answer, outcome)?;
                }
            }
            Ok(())
        }
        _ => put_bytes(answer, b"refused"),
    }
}
