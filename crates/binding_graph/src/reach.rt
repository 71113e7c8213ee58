//! What an item uses, and which items are used.

ghost use Rattle.std.specs.Prelude.{◌≡◌, ℕ, ◌<◌, ◌≤◌, ◌↔◌, [], get_or, map, vec_len, All, AllPairs, Contains, IfOk, OnOk};
ghost use Rattle.binding_graph.specs.Reach.{is_check, ItemUses, IsCheckAt, AreReached, IsMarked, Marks, AreSpread};

use crate::resolved::{Resolved, ResolvedItem, Role};
use binding_kinds::Input;
use std::alloc::{AllocError, Global};

/// The names of other items that the item at that index uses, each once, in the order of first
/// use: none where no item stands there.
pub fn inputs_of(resolved: &Resolved, item: usize) -> &[Input]
    ensures inputs { (other : ResolvedItem) → item < vec_len resolved.now.items
        → result.now ≡ (get_or resolved.now.items.items item other).inputs.items }
    ensures none { vec_len resolved.now.items ≤ item → result.now ≡ [] }
{
    if item >= resolved.items.len() {
        return &[];
    }
    resolved.items[item].inputs.as_slice()
}

fn is_check(item: &ResolvedItem) -> bool
    ensures { result ≡ is_check item.now.role }
{
    match item.role {
        Role::Check(_) => true,
        Role::Group { .. } => false,
        Role::Silent => false,
    }
}

// Marks an item, which then waits, unless it is marked.
fn mark(marks: &mut Vec<bool>, waiting: &mut Vec<usize>, item: usize) -> Result<(), AllocError>
    ensures { OnOk result (Marks (λ k. item ≡ k) marks.old.items marks.new.items waiting.old.items
        waiting.new.items) }
{
    if item < marks.len() && !marks[item] {
        marks[item] = true;
        waiting.push(item)?;
    }
    Ok(())
}

fn mark_inputs(
    marks: &mut Vec<bool>,
    waiting: &mut Vec<usize>,
    inputs: &[Input],
) -> Result<(), AllocError>
    ensures { OnOk result (Marks (Contains (map (λ i. i.item) inputs.now)) marks.old.items
        marks.new.items waiting.old.items waiting.new.items) }
{
    for input in inputs {
        mark(marks, waiting, input.item)?;
    }
    Ok(())
}

fn mark_functions(
    marks: &mut Vec<bool>,
    waiting: &mut Vec<usize>,
    functions: &[usize],
) -> Result<(), AllocError>
    ensures { OnOk result (Marks (Contains functions.now) marks.old.items marks.new.items
        waiting.old.items waiting.new.items) }
{
    for function in functions {
        mark(marks, waiting, *function)?;
    }
    Ok(())
}

// Marks what an item uses.
fn mark_used(
    marks: &mut Vec<bool>,
    waiting: &mut Vec<usize>,
    items: &[ResolvedItem],
    index: usize,
) -> Result<(), AllocError>
    ensures { OnOk result (Marks (ItemUses items.now index) marks.old.items marks.new.items
        waiting.old.items waiting.new.items) }
{
    if let Some(item) = items.get(index) {
        mark_inputs(marks, waiting, &item.inputs)?;
        mark_functions(marks, waiting, &item.functions)?;
    }
    Ok(())
}

// Marks the checks and flags.
fn mark_checks(
    marks: &mut Vec<bool>,
    waiting: &mut Vec<usize>,
    items: &[ResolvedItem],
) -> Result<(), AllocError>
    ensures { OnOk result (Marks (IsCheckAt items.now) marks.old.items marks.new.items
        waiting.old.items waiting.new.items) }
{
    for (index, item) in items.iter().enumerate() {
        if is_check(item) {
            mark(marks, waiting, index)?;
        }
    }
    Ok(())
}

// Marks what the waiting items use, and what these use, until none waits.
fn spread(
    marks: &mut Vec<bool>,
    waiting: &mut Vec<usize>,
    items: &[ResolvedItem],
) -> Result<(), AllocError>
    ensures { OnOk result (AreSpread items.now marks.old.items waiting.old.items
        → AreSpread items.now marks.new.items []) }
{
    while let Some(index) = waiting.pop() {
        mark_used(marks, waiting, items, index)?;
    }
    Ok(())
}

// The indexes that are marked.
fn marked_indexes(alloc: Global, marks: &[bool]) -> Result<Vec<usize>, AllocError>
    ensures rising { IfOk result (λ v. AllPairs (λ a b. a < b) v.items) }
    ensures exact { IfOk result (λ v. (k : ℕ) → Contains v.items k ↔ IsMarked marks.now k) }
{
    let mut indexes = Vec::with_capacity(alloc, marks.len())?;
    for (index, marked) in marks.iter().enumerate() {
        if *marked {
            indexes.push(index)?;
        }
    }
    Ok(indexes)
}

/// The indexes of the items that checks and flags reach, themselves and the functions that are
/// applied among them, rising. Errors: want of memory.
pub fn used(alloc: Global, resolved: &Resolved) -> Result<Vec<usize>, AllocError>
    ensures within { IfOk result (λ v. All (λ i. i < vec_len resolved.now.items) v.items) }
    ensures reached { IfOk result (λ v. AreReached resolved.now.items.items v.items) }
{
    let mut marks = vec![in alloc; false; resolved.items.len()]?;
    let mut waiting = Vec::with_capacity(alloc, resolved.items.len())?;
    mark_checks(&mut marks, &mut waiting, &resolved.items)?;
    spread(&mut marks, &mut waiting, &resolved.items)?;
    marked_indexes(alloc, &marks)
}
