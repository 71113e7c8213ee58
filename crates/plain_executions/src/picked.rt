//! What choices of indexes pick from lists of events.

ghost use Rattle.std.specs.Prelude.{◌≡◌, ◌∷◌, ◌++◌, map, length, slice_get, option_to_list, IfOk, OnOk};
ghost use Rattle.plain_events.specs.Choices.{pick, lists_as};
ghost use Rattle.plain_events.specs.Events.{event_as};
ghost use Rattle.plain_executions.specs.Executions.{event_lists_as, AreAllPicked};

use plain_events::choice::choices;
use plain_events::event::Event;
use std::alloc::{AllocError, Global};

// Puts the event at an index of a list, if there is one.
fn put_event<'a>(
    picked: &mut Vec<Event<'a>>,
    list: &[Event<'a>],
    index: usize,
) -> Result<(), AllocError>
    ensures { OnOk result (map event_as picked.new.items ≡ map event_as picked.old.items
        ++ option_to_list (slice_get (map event_as list.now) index)) }
{
    if index >= list.len() {
        return Ok(());
    }
    picked.push(list[index])?;
    Ok(())
}

// Puts the events at an index of the first list and at those of the others.
#[cycle(events)]
fn put_both<'a>(
    picked: &mut Vec<Event<'a>>,
    list: &Vec<Event<'a>>,
    lists: &[Vec<Event<'a>>],
    index: usize,
    indexes: &[usize],
) -> Result<(), AllocError>
    ensures { OnOk result (map event_as picked.new.items ≡ map event_as picked.old.items
        ++ pick (map event_as list.now.items ∷ event_lists_as lists.now)
        (index ∷ indexes.now)) }
{
    put_event(picked, list, index)?;
    put_picked(picked, lists, indexes)?;
    Ok(())
}

// The same, if there is an index for each.
#[cycle(events)]
fn put_behind<'a>(
    picked: &mut Vec<Event<'a>>,
    list: &Vec<Event<'a>>,
    lists: &[Vec<Event<'a>>],
    indexes: &[usize],
) -> Result<(), AllocError>
    ensures { OnOk result (map event_as picked.new.items ≡ map event_as picked.old.items
        ++ pick (map event_as list.now.items ∷ event_lists_as lists.now) indexes.now) }
{
    match indexes.split_first() {
        Some((index, rest)) => put_both(picked, list, lists, *index, rest),
        None => Ok(()),
    }
}

// Puts the events that a choice picks.
#[cycle(events)]
fn put_picked<'a>(
    picked: &mut Vec<Event<'a>>,
    lists: &[Vec<Event<'a>>],
    indexes: &[usize],
) -> Result<(), AllocError>
    ensures { OnOk result (map event_as picked.new.items
        ≡ map event_as picked.old.items ++ pick (event_lists_as lists.now) indexes.now) }
{
    match lists.split_first() {
        Some((list, rest)) => put_behind(picked, list, rest, indexes),
        None => Ok(()),
    }
}

// The events that a choice picks.
fn picked_events<'a>(
    alloc: Global,
    lists: &[Vec<Event<'a>>],
    indexes: &[usize],
) -> Result<Vec<Event<'a>>, AllocError>
    ensures { IfOk result (λ v. map event_as v.items
        ≡ pick (event_lists_as lists.now) indexes.now) }
{
    let mut picked = Vec::new(alloc);
    put_picked(&mut picked, lists, indexes)?;
    Ok(picked)
}

// The events that choices pick.
fn all_picked_events<'a>(
    alloc: Global,
    lists: &[Vec<Event<'a>>],
    all: &[Vec<usize>],
) -> Result<Vec<Vec<Event<'a>>>, AllocError>
    ensures { IfOk result (λ v. event_lists_as v.items
        ≡ map (pick (event_lists_as lists.now)) (lists_as all.now)) }
{
    let mut rows = Vec::new(alloc);
    for indexes in all {
        let row = picked_events(alloc, lists, indexes)?;
        rows.push(row)?;
    }
    Ok(rows)
}

fn event_count(list: &Vec<Event>) -> usize
    ensures { result ≡ length (map event_as list.now.items) }
{
    let slice = list.as_slice();
    slice.len()
}

// How many events each list has.
fn event_counts(alloc: Global, lists: &[Vec<Event>]) -> Result<Vec<usize>, AllocError>
    ensures { IfOk result (λ v. v.items ≡ map (λ l. length l) (event_lists_as lists.now)) }
{
    let mut counts = Vec::new(alloc);
    for list in lists {
        counts.push(event_count(list))?;
    }
    Ok(counts)
}

/// All lists of an event of each of the lists. Errors: want of memory, as in all that follows.
pub fn products<'a>(
    alloc: Global,
    lists: &[Vec<Event<'a>>],
) -> Result<Vec<Vec<Event<'a>>>, AllocError>
    ensures { IfOk result (λ v. AreAllPicked (event_lists_as lists.now)
        (event_lists_as v.items)) }
{
    let counts = event_counts(alloc, lists)?;
    let all = choices(alloc, &counts)?;
    let rows = all_picked_events(alloc, lists, &all)?;
    Ok(rows)
}
