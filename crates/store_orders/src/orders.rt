//! The orders of the stores of a combination of runs.
ghost use Rattle.std.specs.Prelude.{◌≡◌, ◌<◌, ◌≤◌, ◌-◌, ◌^◌, ◌++◌, ◌∷◌, [], length, drop, map, min, IfOk, OnOk};
ghost use Rattle.std.specs.List.{concat, flat_map};
ghost use Rattle.store_orders.specs.Events as event_lists;
ghost use Rattle.store_orders.specs.OrderPrefixes.{store_lists, rows_from, orders_from};
ghost use Rattle.store_orders.specs.OrderPrefixes as order_prefixes;
ghost use Rattle.store_orders.specs.Orders.{is_thread_store, stores_of, all_orders, AreInitialStoresApart};
ghost use Rattle.store_orders.specs.Orders as definitions;
ghost use Rattle.store_orders.specs.Rows as definition_rows;
ghost use Rattle.store_orders.specs.Rows.{row_total};
ghost use Rattle.store_orders.specs.Combinations.{combination_lists, ordered};

use crate::combination::{Action, Combination, Event};
use crate::store_orders::StoreOrders;
use bit_relations::MAX_EVENTS;
use std::alloc::{AllocError, Global};

/// The stores of a location, by their numbers.
#[derive(Drop)]
struct LocationStores {
    /// The initial store, which comes first.
    initial: u8,
    /// Those by threads.
    others: Vec<u8>,
}

/// Whether the event is a store of a thread to the location.
fn is_store(event: &Event, location: usize) -> bool
    ensures { result ≡ is_thread_store location event.now }
{
    match event.action {
        Action::Store {
            location: written_to,
            ..
        } => event.thread.is_some() && written_to == location,
        _ => false,
    }
}

/// Makes the list that of the stores of a location by threads, by their numbers.
fn find_stores(events: &[Event], location: usize, stores: &mut Vec<u8>) -> Result<(), AllocError>
    ensures { OnOk result (stores.new.items ≡ stores_of events.now location) }
{
    stores.clear();
    for number in 0..events.len().min(MAX_EVENTS) {
        if is_store(&events[number], location) {
            stores.push(number as u8)?;
        }
    }
    Ok(())
}

/// Makes them the stores of a location.
fn fill(stores: &mut LocationStores, events: &[Event], location: usize) -> Result<(), AllocError>
    requires { location < 128 }
    ensures { OnOk result ((stores.new.initial ≡ location)
        × (stores.new.others.items ≡ stores_of events.now location)) }
{
    stores.initial = location as u8;
    find_stores(events, location, &mut stores.others)?;
    Ok(())
}

/// Makes them the stores of each location, in the order of the locations.
fn fill_all(events: &[Event], locations: &mut Vec<LocationStores>) -> Result<(), AllocError>
    requires { length locations.old.items ≤ 128 }
    ensures stores { OnOk result (store_lists locations.new.items
        ≡ order_prefixes.all_stores events.now (length locations.old.items)) }
    ensures many { OnOk result (length locations.new.items ≡ length locations.old.items) }
{
    for location in 0..locations.len() {
        fill(&mut locations[location], events, location)?;
    }
    Ok(())
}

/// So many locations without stores by threads, or 128 of them where there are more.
fn bare_locations(alloc: Global, locations: usize) -> Result<Vec<LocationStores>, AllocError>
    ensures { IfOk result (λ v. length v.items ≡ min locations 128) }
{
    let mut bare = Vec::with_capacity(alloc, locations.min(MAX_EVENTS))?;
    for location in 0..locations.min(MAX_EVENTS) {
        bare.push(LocationStores {
            initial: location as u8,
            others: Vec::new(alloc),
        })?;
    }
    Ok(bare)
}

/// Whether the prefix has the store at an index from `begin` on. It looks at all of them, since a
/// branch that is guessed wrong costs more than to compare some stores.
fn has_store(prefix: &[u8], begin: usize, store: u8) -> bool
    requires { begin ≤ length prefix.now }
    ensures { result ≡ event_lists.has_store (drop begin prefix.now) store }
{
    let mut is_there = false;
    for other in &prefix[begin..] {
        is_there |= *other == store;
    }
    is_there
}

/// Adds the orders that begin with the prefix and go on with the stores of these locations.
#[cycle(growing)]
fn add_orders(
    locations: &[LocationStores],
    prefix: &mut Vec<u8>,
    found: &mut Vec<u8>,
) -> Result<(), AllocError>
    ensures prefix { OnOk result (prefix.new.items ≡ prefix.old.items) }
    ensures found { OnOk result (found.new.items
        ≡ found.old.items ++ concat (orders_from (store_lists locations.now) prefix.old.items)) }
{
    match locations.split_first() {
        None => {
            found.extend_from_slice(prefix)?;
            Ok(())
        }
        Some((location, later)) => {
            let begin = prefix.len();
            prefix.push(location.initial)?;
            let left = location.others.len();
            add_rows(&location.others, later, left, begin, prefix, found)?;
            prefix.pop();
            Ok(())
        }
    }
}

/// Adds the orders that begin with the prefix, in which the stores of a location begin at an index
/// and so many of its stores by threads are left out, and go on with these and the later locations.
#[cycle(growing)]
fn add_rows(
    others: &[u8],
    later: &[LocationStores],
    left: usize,
    begin: usize,
    prefix: &mut Vec<u8>,
    found: &mut Vec<u8>,
) -> Result<(), AllocError>
    requires { begin ≤ length prefix.old.items }
    ensures prefix { OnOk result (prefix.new.items ≡ prefix.old.items) }
    ensures found { OnOk result (found.new.items
        ≡ found.old.items
        ++ concat (flat_map (orders_from (store_lists later.now))
        (rows_from others.now begin left prefix.old.items))) }
{
    if left == 0 {
        add_orders(later, prefix, found)?;
        return Ok(());
    }
    for store in others {
        if !has_store(prefix, begin, *store) {
            prefix.push(*store)?;
            add_rows(others, later, left - 1, begin, prefix, found)?;
            prefix.pop();
        }
    }
    Ok(())
}

/// How many stores these locations have, or the greatest number where that is less.
fn width_of(locations: &[LocationStores]) -> usize
    ensures { result ≡ min (order_prefixes.width_of (store_lists locations.now)) (2 ^ 64 - 1) }
{
    let mut width = 0usize;
    for location in locations {
        width = width
            .saturating_add(location.others.len())
            .saturating_add(1);
    }
    width
}

/// The orders of all stores, in lexicographic order: those of each location after one another,
/// the initial store first. What the lists of `locations` and `prefix` have before is replaced.
fn orders(
    alloc: Global,
    events: &[Event],
    locations: &mut Vec<LocationStores>,
    prefix: &mut Vec<u8>,
) -> Result<StoreOrders, AllocError>
    requires { length locations.old.items ≤ 128 }
    ensures orders { IfOk result (λ v. v ≡ all_orders events.now (length locations.old.items)) }
    ensures many { OnOk result (length locations.new.items ≡ length locations.old.items) }
{
    fill_all(events, locations)?;
    let width = width_of(locations);
    prefix.clear();
    let mut stores = Vec::with_capacity(alloc, width)?;
    add_orders(locations, prefix, &mut stores)?;
    // With no location there is one order, of no store.
    let count = stores.len().checked_div(width).unwrap_or(1);
    Ok(StoreOrders {
        stores,
        width,
        count,
    })
}

/// In how many orders so many stores can stand, or the greatest number where that is less.
fn rows_of(count: usize) -> usize
    ensures { result ≡ min (definitions.arrangement_count count count) (2 ^ 64 - 1) }
{
    let mut rows = 1usize;
    for positions in 0..count {
        rows = rows.saturating_mul(count - positions);
    }
    rows
}

/// How many stores of threads the location has.
fn store_count(events: &[Event], location: usize) -> usize
    ensures { result ≡ length (stores_of events.now location) }
{
    let mut count = 0usize;
    for number in 0..events.len().min(MAX_EVENTS) {
        if is_store(&events[number], location) {
            count += 1;
        }
    }
    count
}

/// How many orders the stores have, or the greatest number where that is less.
pub fn order_count(events: &[Event], locations: usize) -> usize
    ensures { AreInitialStoresApart events.now (min locations 128)
        → result ≡ min (length (all_orders events.now (min locations 128))) (2 ^ 64 - 1) }
{
    let mut count = 1usize;
    for location in 0..locations.min(MAX_EVENTS) {
        count = count.saturating_mul(rows_of(store_count(events, location)));
    }
    count
}

/// Adds a combination with the orders of its stores.
fn add_ordered(
    alloc: Global,
    mut combination: Combination,
    stores: &mut Vec<LocationStores>,
    prefix: &mut Vec<u8>,
    made: &mut Vec<Combination>,
) -> Result<(), AllocError>
    requires { length stores.old.items ≤ 128 }
    ensures made { OnOk result (map combination_lists made.new.items
        ≡ map combination_lists made.old.items
        ++ ordered (length stores.old.items) (combination_lists combination) ∷ []) }
    ensures many { OnOk result (length stores.new.items ≡ length stores.old.items) }
{
    combination.orders = orders(alloc, &combination.events, stores, prefix)?;
    made.push(combination)?;
    Ok(())
}

/// Gives each combination the orders of its stores, which are at so many locations.
fn all_ordered(
    alloc: Global,
    combinations: Vec<Combination>,
    stores: &mut Vec<LocationStores>,
    prefix: &mut Vec<u8>,
) -> Result<Vec<Combination>, AllocError>
    requires { length stores.old.items ≤ 128 }
    ensures { IfOk result (λ v. map combination_lists v.items
        ≡ map (λ c. ordered (length stores.old.items) (combination_lists c))
        combinations.items) }
{
    let mut made = Vec::with_capacity(alloc, combinations.len())?;
    for combination in combinations {
        add_ordered(alloc, combination, stores, prefix, &mut made)?;
    }
    Ok(made)
}

/// Gives each combination the orders of its stores.
pub fn with_orders(
    alloc: Global,
    combinations: Vec<Combination>,
    locations: usize,
) -> Result<Vec<Combination>, AllocError>
    ensures { IfOk result (λ v. map combination_lists v.items
        ≡ map (λ c. ordered (min locations 128) (combination_lists c)) combinations.items) }
{
    let mut stores = bare_locations(alloc, locations)?;
    let mut prefix = Vec::with_capacity(alloc, MAX_EVENTS)?;
    let made = all_ordered(alloc, combinations, &mut stores, &mut prefix)?;
    Ok(made)
}

/// The rows in which the stores of a location, by its number, can stand, in lexicographic order:
/// the initial store first. Errors: want of memory.
pub fn rows_at(alloc: Global, events: &[Event], location: usize) -> Result<StoreOrders, AllocError>
    requires { location < 128 }
    ensures { IfOk result (λ v. v ≡ definition_rows.rows_of events.now location) }
{
    let mut others = Vec::new(alloc);
    find_stores(events, location, &mut others)?;
    let width = others.len().saturating_add(1);
    let mut prefix = Vec::with_capacity(alloc, width)?;
    prefix.push(location as u8)?;
    let mut stores = Vec::with_capacity(alloc, width)?;
    add_rows(&others, &[], others.len(), 0, &mut prefix, &mut stores)?;
    let count = stores.len() / width;
    Ok(StoreOrders {
        stores,
        width,
        count,
    })
}

/// How many rows the stores of the first locations have, of at most 128 of these, or the greatest
/// number where that is less.
pub fn row_count(events: &[Event], locations: usize) -> usize
    ensures { result ≡ min (row_total events.now (min locations 128)) (2 ^ 64 - 1) }
{
    let mut count = 0usize;
    for location in 0..locations.min(MAX_EVENTS) {
        count = count.saturating_add(rows_of(store_count(events, location)));
    }
    count
}
