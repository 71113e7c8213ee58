//! What jobs are given of a part, where it lies.

ghost use Rattle.std.specs.Prelude.{◌≡◌, true, map, option_map, slice_get};
ghost use Rattle.bench_nodes.specs.Guesses.{are_items_guessed};
ghost use Rattle.text_values.specs.TestValue.{thread_steps};
ghost use Rattle.bench_parts.specs.Contents.{OfThread, item_content, fault_content, test_part, test_content, content, parts_state};
ghost use Rattle.bench_parts.specs.Views.{viewed_content};

use crate::find::{model_index, test_at};
use crate::parts::Parts;
use bench_items::SharedItem;
use bench_nodes::{
    CONDITION, FAULT, INIT, ITEM, ItemRow, LOCATIONS, ModelRow, OBSERVED, THREAD, item_index,
};
use binding_graph::ModelFault;
use text_values::{Condition, InitEntry, Name, Place, Test, Thread};

/// What jobs are given of a part: of an item what it does.
#[derive(Clone, Copy)]
pub(crate) enum Content<'p> {
    Role(&'p SharedItem),
    Fault(ModelFault),
    Condition(&'p Condition),
    Observed(&'p [Place]),
    Locations(&'p [Name]),
    Init(&'p [InitEntry]),
    Thread(&'p Thread),
}

// The guesses are those for the items.
fn item_content<'p>(
    guesses: &[usize],
    items: &'p [ItemRow],
    roles: &'p [Option<SharedItem>],
    number: u64,
) -> Option<Content<'p>>
    requires { are_items_guessed guesses.now items.now ≡ true }
    ensures { option_map viewed_content result ≡ item_content items.now roles.now number }
{
    let index = item_index(guesses, items, number);
    if index < items.len() && index < roles.len() {
        match &roles[index] {
            Some(item) => Some(Content::Role(item)),
            None => None,
        }
    } else {
        None
    }
}

fn fault_content<'p>(
    models: &'p [ModelRow],
    faults: &'p [Option<ModelFault>],
    id: u64,
) -> Option<Content<'p>>
    ensures { option_map viewed_content result ≡ fault_content models.now faults.now id }
{
    let index = model_index(models, id);
    if index < models.len() && index < faults.len() {
        match faults[index] {
            Some(fault) => Some(Content::Fault(fault)),
            None => None,
        }
    } else {
        None
    }
}

fn thread_part(threads: &[Thread], index: u64) -> Option<Content<'_>>
    ensures { option_map viewed_content result
        ≡ option_map OfThread (slice_get (map thread_steps threads.now) index) }
{
    if index < threads.len() as u64 {
        Some(Content::Thread(&threads[index as usize]))
    } else {
        None
    }
}

// A part of a test with those locations.
fn test_part<'p>(test: &'p Test, locations: &'p [Name], part: u64) -> Option<Content<'p>>
    ensures { option_map viewed_content result ≡ test_part test.now locations.now part }
{
    if part == CONDITION {
        Some(Content::Condition(&test.condition))
    } else if part == OBSERVED {
        Some(Content::Observed(&test.observed))
    } else if part == LOCATIONS {
        Some(Content::Locations(locations))
    } else if part == INIT {
        Some(Content::Init(&test.init))
    } else {
        thread_part(&test.threads, part.saturating_sub(THREAD))
    }
}

fn test_content<'p>(parts: &'p Parts, tests: &'p [Test], part: u64, id: u64) -> Option<Content<'p>>
    ensures { option_map viewed_content result
        ≡ test_content parts.now.table.tests.items tests.now parts.now.locations.items part id }
{
    let index = parts.test_index(id);
    match test_at(&parts.table.tests, tests, &parts.locations, id, index) {
        Some(found) => test_part(found.test, found.locations, part),
        None => None,
    }
}

/// What jobs are given of a part.
pub(crate) fn content_at<'p>(
    parts: &'p Parts,
    tests: &'p [Test],
    part: u64,
    of: u64,
) -> Option<Content<'p>>
    ensures { option_map viewed_content result ≡ content (parts_state parts.now tests.now) part of }
{
    if part == ITEM {
        item_content(
            &parts.table.item_guesses,
            &parts.table.items,
            &parts.roles,
            of,
        )
    } else if part == FAULT {
        fault_content(&parts.table.models, &parts.faults, of)
    } else {
        test_content(parts, tests, part, of)
    }
}
