//! The orders of the stores of locations.

ghost use Rattle.std.specs.Prelude.{◌≡◌, ◌↔◌, map, Contains, IfOk, IsTrue, OnOk, Some, slice_get};
ghost use Rattle.std.specs.List.{AllZip};
ghost use Rattle.text_values.specs.TestValue.{content_of};
ghost use Rattle.meaning.specs.Sets.{IsOnce, IsListOf};
ghost use Rattle.meaning.specs.Names as names;
ghost use Rattle.meaning.specs.Executions as executions;
ghost use Rattle.meaning.specs.Executions.{IsOrder};
ghost use Rattle.plain_runs.specs.Keeping.{PutsIf};
ghost use Rattle.plain_runs.specs.Runs.{run_as};
ghost use Rattle.plain_runs.specs.Locations.{names_as};
ghost use Rattle.plain_events.specs.Events.{event_as, of_runs};
ghost use Rattle.plain_executions.specs.Executions.{event_lists_as, order_lists_as, IsCoherenceOf};

use crate::picked::products;
use crate::picked_orders::order_products;
use plain_events::event::{Event, is_same_event};
use plain_events::node::stores_of;
use plain_runs::run::Run;
use std::alloc::{AllocError, Global};
use text_values::Test;

fn both(first: bool, second: bool) -> bool
    ensures { IsTrue result ↔ (IsTrue first × IsTrue second) }
{
    first && second
}

// Whether the initial store of the location is the first.
fn is_first(order: &[Event], location: &[u8]) -> bool
    ensures { IsTrue result
        ↔ (slice_get (map event_as order.now) 0 ≡ Some (executions.Initial location.now)) }
{
    match order.first() {
        Some(event) => is_same_event(event, &Event::Initial(location)),
        None => false,
    }
}

/// Whether the event stands in the list.
pub fn has_event(order: &[Event], event: &Event) -> bool
    ensures { IsTrue result ↔ Contains (map event_as order.now) (event_as event.now) }
{
    for one in order {
        if is_same_event(one, event) {
            return true;
        }
    }
    false
}

// Whether no event stands twice.
fn is_once(order: &[Event]) -> bool
    ensures { IsTrue result ↔ IsOnce (map event_as order.now) }
{
    match order.split_first() {
        Some((event, rest)) => {
            if has_event(rest, event) {
                return false;
            }
            is_once(rest)
        }
        None => true,
    }
}

// As many copies of the stores as there are stores.
fn copies<'a>(alloc: Global, stores: &[Event<'a>]) -> Result<Vec<Vec<Event<'a>>>, AllocError>
    ensures { IfOk result (λ v. event_lists_as v.items
        ≡ map (λ e. map event_as stores.now) (map event_as stores.now)) }
{
    let mut lists = Vec::new(alloc);
    for store in stores {
        let _copied = store;
        let copy = Vec::from_slice(alloc, stores)?;
        lists.push(copy)?;
    }
    Ok(lists)
}

// Puts a list of events, if none stands twice and the initial store is first.
fn put_if_order<'a>(
    alloc: Global,
    orders: &mut Vec<Vec<Event<'a>>>,
    order: &[Event<'a>],
    location: &[u8],
) -> Result<(), AllocError>
    ensures { OnOk result (PutsIf (IsOnce (map event_as order.now)
        × (slice_get (map event_as order.now) 0 ≡ Some (executions.Initial location.now)))
        (map event_as order.now) (event_lists_as orders.old.items)
        (event_lists_as orders.new.items)) }
{
    let once = is_once(order);
    let first = is_first(order, location);
    if both(once, first) {
        let copy = Vec::from_slice(alloc, order)?;
        orders.push(copy)?;
        return Ok(());
    }
    Ok(())
}

// Those of the lists of events in which none stands twice and the initial store is first.
fn orders_among<'a>(
    alloc: Global,
    lists: &[Vec<Event<'a>>],
    location: &[u8],
) -> Result<Vec<Vec<Event<'a>>>, AllocError>
    requires { IsOnce (event_lists_as lists.now) }
    ensures { IfOk result (λ v. IsListOf (λ es. Contains (event_lists_as lists.now) es
        × (IsOnce es × (slice_get es 0 ≡ Some (executions.Initial location.now))))
        (event_lists_as v.items)) }
{
    let mut orders = Vec::new(alloc);
    for list in lists {
        put_if_order(alloc, &mut orders, list, location)?;
    }
    Ok(orders)
}

// The orders of the stores of a location: of all lists of so many of them, those in which none
// stands twice and the initial one is first.
fn location_orders<'a>(
    alloc: Global,
    test: &'a Test,
    locations: &[&'a [u8]],
    runs: &[Run<'a>],
    location: &[u8],
) -> Result<Vec<Vec<Event<'a>>>, AllocError>
    requires once { IsOnce (names_as locations.now) }
    requires locations { names_as locations.now ≡ names.locations (content_of test.now) }
    ensures { IfOk result (λ v. IsListOf (IsOrder (content_of test.now)
        (of_runs (map run_as runs.now)) location.now) (event_lists_as v.items)) }
{
    let stores = stores_of(alloc, test, locations, runs, location)?;
    let lists = copies(alloc, &stores)?;
    let all = products(alloc, &lists)?;
    let orders = orders_among(alloc, &all, location)?;
    Ok(orders)
}

// The orders of the stores of each location.
fn all_orders<'a>(
    alloc: Global,
    test: &'a Test,
    locations: &[&'a [u8]],
    runs: &[Run<'a>],
) -> Result<Vec<Vec<Vec<Event<'a>>>>, AllocError>
    requires once { IsOnce (names_as locations.now) }
    requires locations { names_as locations.now ≡ names.locations (content_of test.now) }
    ensures { IfOk result (λ v. AllZip (λ l os. IsListOf (IsOrder (content_of test.now)
        (of_runs (map run_as runs.now)) l) os) (names_as locations.now)
        (order_lists_as v.items)) }
{
    let mut lists = Vec::new(alloc);
    for location in locations {
        let orders = location_orders(alloc, test, locations, runs, *location)?;
        lists.push(orders)?;
    }
    Ok(lists)
}

/// The coherences of runs: for each location an order of its stores. Errors: want of memory.
pub fn coherences<'a>(
    alloc: Global,
    test: &'a Test,
    locations: &[&'a [u8]],
    runs: &[Run<'a>],
) -> Result<Vec<Vec<Vec<Event<'a>>>>, AllocError>
    requires once { IsOnce (names_as locations.now) }
    requires locations { names_as locations.now ≡ names.locations (content_of test.now) }
    ensures { IfOk result (λ v. IsListOf (IsCoherenceOf (content_of test.now)
        (map run_as runs.now)) (order_lists_as v.items)) }
{
    let lists = all_orders(alloc, test, locations, runs)?;
    let all = order_products(alloc, &lists)?;
    Ok(all)
}
