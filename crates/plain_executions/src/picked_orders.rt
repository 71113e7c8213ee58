//! What choices of indexes pick from lists of orders.

ghost use Rattle.std.specs.Prelude.{◌≡◌, ◌∷◌, ◌++◌, map, length, slice_get, option_to_list, IfOk, OnOk};
ghost use Rattle.plain_events.specs.Choices.{pick, lists_as};
ghost use Rattle.plain_executions.specs.Executions.{event_lists_as, order_lists_as, AreAllPicked};

use plain_events::choice::choices;
use plain_events::event::Event;
use std::alloc::{AllocError, Global};

// Puts the order at an index of a list, if there is one.
fn put_order<'a>(
    alloc: Global,
    picked: &mut Vec<Vec<Event<'a>>>,
    list: &[Vec<Event<'a>>],
    index: usize,
) -> Result<(), AllocError>
    ensures { OnOk result (event_lists_as picked.new.items ≡ event_lists_as picked.old.items
        ++ option_to_list (slice_get (event_lists_as list.now) index)) }
{
    if index >= list.len() {
        return Ok(());
    }
    let order = Vec::from_slice(alloc, &list[index])?;
    picked.push(order)?;
    Ok(())
}

// Puts the orders at an index of the first list and at those of the others.
#[cycle(orders)]
fn put_both_orders<'a>(
    alloc: Global,
    picked: &mut Vec<Vec<Event<'a>>>,
    list: &Vec<Vec<Event<'a>>>,
    lists: &[Vec<Vec<Event<'a>>>],
    index: usize,
    indexes: &[usize],
) -> Result<(), AllocError>
    ensures { OnOk result (event_lists_as picked.new.items ≡ event_lists_as picked.old.items
        ++ pick (event_lists_as list.now.items ∷ order_lists_as lists.now)
        (index ∷ indexes.now)) }
{
    put_order(alloc, picked, list, index)?;
    put_picked_orders(alloc, picked, lists, indexes)?;
    Ok(())
}

// The same, if there is an index for each.
#[cycle(orders)]
fn put_orders_behind<'a>(
    alloc: Global,
    picked: &mut Vec<Vec<Event<'a>>>,
    list: &Vec<Vec<Event<'a>>>,
    lists: &[Vec<Vec<Event<'a>>>],
    indexes: &[usize],
) -> Result<(), AllocError>
    ensures { OnOk result (event_lists_as picked.new.items ≡ event_lists_as picked.old.items
        ++ pick (event_lists_as list.now.items ∷ order_lists_as lists.now) indexes.now) }
{
    match indexes.split_first() {
        Some((index, rest)) => put_both_orders(alloc, picked, list, lists, *index, rest),
        None => Ok(()),
    }
}

// Puts the orders that a choice picks.
#[cycle(orders)]
fn put_picked_orders<'a>(
    alloc: Global,
    picked: &mut Vec<Vec<Event<'a>>>,
    lists: &[Vec<Vec<Event<'a>>>],
    indexes: &[usize],
) -> Result<(), AllocError>
    ensures { OnOk result (event_lists_as picked.new.items
        ≡ event_lists_as picked.old.items ++ pick (order_lists_as lists.now) indexes.now) }
{
    match lists.split_first() {
        Some((list, rest)) => put_orders_behind(alloc, picked, list, rest, indexes),
        None => Ok(()),
    }
}

// The orders that a choice picks.
fn picked_orders<'a>(
    alloc: Global,
    lists: &[Vec<Vec<Event<'a>>>],
    indexes: &[usize],
) -> Result<Vec<Vec<Event<'a>>>, AllocError>
    ensures { IfOk result (λ v. event_lists_as v.items
        ≡ pick (order_lists_as lists.now) indexes.now) }
{
    let mut picked = Vec::new(alloc);
    put_picked_orders(alloc, &mut picked, lists, indexes)?;
    Ok(picked)
}

// The orders that choices pick.
fn all_picked_orders<'a>(
    alloc: Global,
    lists: &[Vec<Vec<Event<'a>>>],
    all: &[Vec<usize>],
) -> Result<Vec<Vec<Vec<Event<'a>>>>, AllocError>
    ensures { IfOk result (λ v. order_lists_as v.items
        ≡ map (pick (order_lists_as lists.now)) (lists_as all.now)) }
{
    let mut rows = Vec::new(alloc);
    for indexes in all {
        let row = picked_orders(alloc, lists, indexes)?;
        rows.push(row)?;
    }
    Ok(rows)
}

fn order_count(list: &Vec<Vec<Event>>) -> usize
    ensures { result ≡ length (event_lists_as list.now.items) }
{
    let slice = list.as_slice();
    slice.len()
}

// How many orders each list has.
fn order_counts(alloc: Global, lists: &[Vec<Vec<Event>>]) -> Result<Vec<usize>, AllocError>
    ensures { IfOk result (λ v. v.items ≡ map (λ l. length l) (order_lists_as lists.now)) }
{
    let mut counts = Vec::new(alloc);
    for list in lists {
        counts.push(order_count(list))?;
    }
    Ok(counts)
}

/// All lists of an order of each of the lists. Errors: want of memory, as in all that follows.
pub fn order_products<'a>(
    alloc: Global,
    lists: &[Vec<Vec<Event<'a>>>],
) -> Result<Vec<Vec<Vec<Event<'a>>>>, AllocError>
    ensures { IfOk result (λ v. AreAllPicked (order_lists_as lists.now)
        (order_lists_as v.items)) }
{
    let counts = order_counts(alloc, lists)?;
    let all = choices(alloc, &counts)?;
    let rows = all_picked_orders(alloc, lists, &all)?;
    Ok(rows)
}
