//! Spaces without orders of stores that a check refuses.

ghost use Rattle.std.specs.Prelude.{◌≡◌, ◌++◌, ◌∷◌, [], min, IfOk, OnOk};
ghost use Rattle.std.specs.List.{AllZip};
ghost use Rattle.cut_spaces.specs.Rows.{IsTried};
ghost use Rattle.cut_spaces.specs.Spaces.{IsCutCombination, IsCutOf, IsEvaluable};

use crate::rows::kept_orders;
use crate::tried::tried;
use binding_graph::ResolvedItem;
use candidates::{Combination, Space, SpaceParts, row_count};
use std::alloc::{AllocError, Global};

/// Rows are tried where there are so many candidates,
const MANY_CANDIDATES: usize = 64;

/// and so many times as many as rows.
const CANDIDATES_A_ROW: usize = 64;

/// In how many rows the stores of all combinations can stand, or the greatest number where that is
/// less.
fn rows_of(parts: &SpaceParts) -> usize {
    let mut rows = 0usize;
    for combination in &parts.combinations {
        rows = rows.saturating_add(row_count(&combination.events, parts.location_count));
    }
    rows
}

/// Whether it may pay to try rows. What is said of a test does not depend on it.
pub(crate) fn may_pay(parts: &SpaceParts) -> bool {
    parts.count >= MANY_CANDIDATES && rows_of(parts) <= parts.count / CANDIDATES_A_ROW
}

/// Adds a combination with the orders that are kept.
fn add_cut(
    alloc: Global,
    mut combination: Combination,
    locations: usize,
    item: &ResolvedItem,
    made: &mut Vec<Combination>,
) -> Result<(), AllocError>
    requires { IsTried item.now }
    ensures { OnOk result ((cut : _) × (made.new.items ≡ made.old.items ++ cut ∷ [])
        × IsCutCombination item.now (min locations 128) combination cut) }
{
    combination.orders = kept_orders(alloc, &combination, locations, item)?;
    made.push(combination)?;
    Ok(())
}

/// Each combination with the orders that are kept.
fn all_cut(
    alloc: Global,
    combinations: Vec<Combination>,
    locations: usize,
    item: &ResolvedItem,
) -> Result<Vec<Combination>, AllocError>
    requires { IsTried item.now }
    ensures { IfOk result (λ v. AllZip (IsCutCombination item.now (min locations 128))
        combinations.items v.items) }
{
    let mut made = Vec::with_capacity(alloc, combinations.len())?;
    for combination in combinations {
        add_cut(alloc, combination, locations, item, &mut made)?;
    }
    Ok(made)
}

/// The candidates without those with an order that has a row which the check refuses alone. Errors:
/// want of memory.
fn cut(alloc: Global, parts: SpaceParts, item: &ResolvedItem) -> Result<Space, AllocError>
    requires { IsTried item.now }
    ensures { IfOk result (IsCutOf item.now parts) }
{
    let combinations = all_cut(alloc, parts.combinations, parts.location_count, item)?;
    Ok(Space {
        locations: parts.locations,
        registers: parts.registers,
        combinations,
    })
}

/// The candidates to evaluate: all, or without some that a check of the items refuses. Errors: want
/// of memory.
pub(crate) fn space_of(
    alloc: Global,
    parts: SpaceParts,
    items: &[ResolvedItem],
) -> Result<Space, AllocError>
    ensures { IfOk result (IsEvaluable items.now parts) }
{
    if may_pay(&parts) {
        if let Some(item) = tried(alloc, items)? {
            return cut(alloc, parts, item);
        }
    }
    parts.whole(alloc)
}
