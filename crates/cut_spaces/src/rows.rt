//! Rows of stores, each in a candidate whose loads read nothing.

ghost use Rattle.std.specs.Prelude.{◌<◌, [], min, IfOk};
ghost use Rattle.store_orders.specs.Orders.{all_orders};
ghost use Rattle.store_orders.specs.Rows.{rows_of};
ghost use Rattle.cut_spaces.specs.Rows.{IsTried, HasProbe, KeepsRows, KeepsOrders};

use binding_graph::ResolvedItem;
use candidates::{Combination, Space, StoreOrders, rows_at};
use cat_eval::eval_check;
use std::alloc::{AllocError, Global};

/// The candidates of a combination that have one of the rows in place of an order, and whose loads
/// read nothing. Errors: want of memory.
fn probes(alloc: Global, combination: &Combination, rows: StoreOrders) -> Result<Space, AllocError>
    ensures { IfOk result (HasProbe combination.now rows) }
{
    let mut reads_from = Vec::with_capacity(alloc, 1)?;
    reads_from.push(Vec::new(alloc))?;
    let mut combinations = Vec::with_capacity(alloc, 1)?;
    combinations.push(Combination {
        events: Vec::from_slice(alloc, &combination.events)?,
        dependencies: combination.dependencies.copied(alloc)?,
        runs: Vec::new(alloc),
        reads_from,
        orders: rows,
    })?;
    Ok(Space {
        locations: Vec::new(alloc),
        registers: Vec::new(alloc),
        combinations,
    })
}

/// The rows that the check does not refuse alone. Errors: want of memory.
fn rows_that_pass(
    alloc: Global,
    combination: &Combination,
    item: &ResolvedItem,
    rows: StoreOrders,
) -> Result<StoreOrders, AllocError>
    requires { IsTried item.now }
    ensures { IfOk result (λ v. KeepsRows item.now combination.now rows v) }
{
    let probes = probes(alloc, combination, rows)?;
    let answers = eval_check(alloc, item, &probes, &[])?;
    probes.combinations[0].orders.kept(alloc, &answers)
}

/// The rows of a location that are kept. A row that is the only one is. Errors: want of memory.
fn kept_rows(
    alloc: Global,
    combination: &Combination,
    location: usize,
    item: &ResolvedItem,
) -> Result<StoreOrders, AllocError>
    requires tried { IsTried item.now }
    requires location { location < 128 }
    ensures { IfOk result (λ v.
        KeepsRows item.now combination.now (rows_of combination.now.events.items location) v) }
{
    let rows = rows_at(alloc, &combination.events, location)?;
    if rows.len() < 2 {
        return Ok(rows);
    }
    rows_that_pass(alloc, combination, item, rows)
}

/// The orders of the stores that have kept rows, of the first locations. Errors: want of memory.
pub(crate) fn kept_orders(
    alloc: Global,
    combination: &Combination,
    locations: usize,
    item: &ResolvedItem,
) -> Result<StoreOrders, AllocError>
    requires { IsTried item.now }
    ensures { IfOk result (λ v. KeepsOrders item.now combination.now
        (all_orders combination.now.events.items (min locations 128)) v) }
{
    let mut orders = StoreOrders::of_no_store(alloc);
    for location in 0..locations.min(128) {
        let rows = kept_rows(alloc, combination, location, item)?;
        orders = orders.followed_by(alloc, &rows)?;
    }
    Ok(orders)
}
