//! What an edit touches of the nodes of the bench.

ghost use Rattle.std.specs.Prelude.{◌≡◌, IfOk, slice_get};
ghost use Rattle.bench_nodes.specs.Touched.{rows_of, touched_slots, test_slots, nodes_named, nodes_of_tests};
ghost use Rattle.bench_edits.specs.Touched.{rows_made, touched_nodes, dropped_nodes};

use crate::edited::{EditedParts, ModelParts};
use bench_nodes::{
    NewSlots, TestRow, all_names, nodes_named, nodes_of_tests, test_slots, touched_slots,
};
use bench_parts::Parts;
use memo_core::keys::Node;
use std::alloc::{AllocError, Global};

// The nodes that an edit touches which puts that row at an index. Errors: want of memory.
fn touched_by_test(
    alloc: Global,
    parts: &Parts,
    at: usize,
    row: &TestRow,
) -> Result<Vec<Node>, AllocError>
    ensures { IfOk result (λ v. v.items ≡ nodes_named row.now.id
        (test_slots (slice_get parts.now.table.tests.items at) row.now
        parts.now.table.slots.items)) }
{
    let before = parts.table.tests.get(at);
    let names = test_slots(alloc, before, row, &parts.table.slots)?;
    nodes_named(alloc, row.id, &names)
}

// The nodes of the test at an index. Errors: want of memory.
fn touched_by_drop(alloc: Global, parts: &Parts, at: usize) -> Result<Vec<Node>, AllocError>
    ensures { IfOk result (λ v. v.items ≡ dropped_nodes
        (slice_get parts.now.table.tests.items at) parts.now.table.slots.items) }
{
    let names = all_names(alloc, &parts.table.slots)?;
    match parts.table.tests.get(at) {
        None => Ok(Vec::new(alloc)),
        Some(row) => nodes_named(alloc, row.id, &names),
    }
}

// The nodes that an edit touches which leaves these models. Errors: want of memory.
fn touched_by_models(
    alloc: Global,
    parts: &Parts,
    models: &ModelParts,
) -> Result<Vec<Node>, AllocError>
    ensures { IfOk result (λ v. v.items ≡ nodes_of_tests (touched_slots (rows_of parts.now.table)
        (rows_made models.now)) parts.now.table.tests.items) }
{
    let new = NewSlots {
        slots: &models.slots,
        places: &models.places,
        items: &models.items.rows,
        item_guesses: &models.item_guesses,
        models: &models.rows,
    };
    let names = touched_slots(alloc, &parts.table, &new)?;
    nodes_of_tests(alloc, &names, &parts.table.tests)
}

/// The nodes that an edit touches for which this was made. Errors: want of memory.
pub fn touched_nodes(
    alloc: Global,
    parts: &Parts,
    edited: &EditedParts,
) -> Result<Vec<Node>, AllocError>
    ensures { IfOk result (λ v. v.items ≡ touched_nodes parts.now edited.now) }
{
    match edited {
        EditedParts::PutTest { at, row, .. } => touched_by_test(alloc, parts, *at, row),
        EditedParts::DropTest { at } => touched_by_drop(alloc, parts, *at),
        EditedParts::Models(models) => touched_by_models(alloc, parts, models),
    }
}
