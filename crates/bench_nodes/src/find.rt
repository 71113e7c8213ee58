//! What stands in a table, by number.

ghost use Rattle.std.specs.Prelude.{option_map, ◌==◌, IfSome, true, Some, ◌≡◌, ◌-◌, ◌<◌, get_or};
ghost use Rattle.std.specs.List.{position_or_len};
ghost use Rattle.memo_core.specs.Names.{kind_number};
ghost use Rattle.bench_nodes.specs.Places.{is_after, are_rising};
ghost use Rattle.bench_nodes.specs.Nodes.{fault_stamp, stamp_in, test_stamp, has_test_row, is_slot, has_slot, slot_keys, row_of};

use crate::places::guessed;
use crate::table::{
    CONDITION, INIT, LOCATIONS, ModelRow, NodeTable, OBSERVED, Slot, SlotKey, TestRow,
};
use memo_core::keys::Kind;

pub(crate) fn fault_stamp(models: &[ModelRow], id: u64) -> u64
    ensures { result ≡ fault_stamp models.now id }
{
    for model in models {
        if model.id == id {
            return model.stamp;
        }
    }
    0
}

fn thread_stamp(threads: &[u64], index: u64) -> u64
    ensures { result ≡ get_or threads.now index 0 }
{
    if index < threads.len() as u64 {
        threads[index as usize]
    } else {
        0
    }
}

// The stamp of a part of the test.
pub(crate) fn stamp_in(test: &TestRow, part: u64) -> u64
    ensures { result ≡ stamp_in test.now part }
{
    if part == CONDITION {
        test.condition
    } else if part == OBSERVED {
        test.observed
    } else if part == LOCATIONS {
        test.locations
    } else if part == INIT {
        test.init
    } else {
        thread_stamp(&test.threads, part.saturating_sub(6))
    }
}

/// The stamp of a part of the test of that number.
pub(crate) fn test_stamp(table: &NodeTable, part: u64, id: u64) -> u64
    ensures { result ≡ test_stamp table.now.tests.items part id }
{
    match row_of(table, id) {
        Some(test) => stamp_in(test, part),
        None => 0,
    }
}

// Whether a number comes after the last one, if there is one.
fn is_after(last: Option<u64>, id: u64) -> bool
    ensures { result ≡ is_after last id }
{
    match last {
        None => true,
        Some(last) => last < id,
    }
}

/// Whether the numbers of these tests rise.
pub fn are_rising(tests: &[TestRow]) -> bool
    ensures { result ≡ are_rising tests.now }
{
    let mut last = None;
    for test in tests {
        if !is_after(last, test.id) {
            return false;
        }
        last = Some(test.id);
    }
    true
}

// Where the test of that number stands, if it is there and the numbers rise.
fn place_of(tests: &[TestRow], id: u64) -> usize {
    let mut first: usize = 0;
    let mut count = tests.len();
    for _ in 0..17 {
        let half = count / 2;
        let at = first.saturating_add(half);
        match tests.get(at) {
            None => return first,
            Some(test) => {
                if test.id < id {
                    first = at.saturating_add(1);
                    count = count.saturating_sub(half).saturating_sub(1);
                } else {
                    count = half;
                }
            }
        }
    }
    first
}

// The index of the test of that number, by its place.
fn placed_index(tests: &[TestRow], id: u64) -> Option<usize>
    requires { are_rising tests.now ≡ true }
    ensures { IfSome result (λ at. at ≡ position_or_len (λ t. t.id == id) tests.now) }
{
    let at = place_of(tests, id);
    let row = tests.get(at)?;
    if row.id == id { Some(at) } else { None }
}

// The index of the first test of that number, or how many tests there are, by a search.
fn first_index(tests: &[TestRow], id: u64) -> usize
    ensures { result ≡ position_or_len (λ t. t.id == id) tests.now }
{
    for (index, test) in tests.iter().enumerate() {
        if test.id == id {
            return index;
        }
    }
    tests.len()
}

/// The index of the first test of that number, or how many tests there are.
pub(crate) fn test_index(table: &NodeTable, id: u64) -> usize
    ensures { result ≡ position_or_len (λ t. t.id == id) table.now.tests.items }
{
    if table.is_rising {
        if let Some(at) = placed_index(&table.tests, id) {
            return at;
        }
    }
    first_index(&table.tests, id)
}

/// The test of that number.
pub(crate) fn row_of(table: &NodeTable, id: u64) -> Option<&TestRow>
    ensures { option_map (λ t. t.now) result ≡ row_of table.now.tests.items id }
{
    match table.tests.get(test_index(table, id)) {
        Some(row) => Some(row),
        None => None,
    }
}

pub(crate) fn has_test(table: &NodeTable, id: u64) -> bool
    ensures { result ≡ has_test_row table.now.tests.items id }
{
    match row_of(table, id) {
        Some(_) => true,
        None => false,
    }
}

pub(crate) fn number_of(kind: Kind) -> u8
    ensures { result ≡ kind_number kind }
{
    match kind {
        Kind::Space => 0,
        Kind::Group => 1,
        Kind::Check => 2,
        Kind::Verdict => 3,
    }
}

pub(crate) fn is_slot(kind: Kind, of: u64, slot: &Slot) -> bool
    ensures { result ≡ is_slot kind of slot.now }
{
    number_of(kind) == number_of(slot.kind) && of == slot.of
}

/// Whether one of these slots is of that kind and number.
pub(crate) fn has_slot_among(slots: &[Slot], kind: Kind, of: u64) -> bool
    ensures { result ≡ has_slot slots.now kind of }
{
    for slot in slots {
        if is_slot(kind, of, slot) {
            return true;
        }
    }
    false
}

pub(crate) fn has_slot(table: &NodeTable, kind: Kind, of: u64) -> bool
    ensures { result ≡ has_slot table.now.slots.items kind of }
{
    match guessed(&table.places.guesses, &table.slots, kind, of) {
        Some(_) => true,
        None => has_slot_among(&table.slots, kind, of),
    }
}

// The inputs of the first of these slots of that kind and number.
fn first_keys(slots: &[Slot], kind: Kind, of: u64) -> &[SlotKey]
    ensures { result.now ≡ slot_keys slots.now kind of }
{
    for slot in slots {
        if is_slot(kind, of, slot) {
            return &slot.inputs;
        }
    }
    &[]
}

pub(crate) fn slot_keys(table: &NodeTable, kind: Kind, of: u64) -> &[SlotKey]
    ensures { result.now ≡ slot_keys table.now.slots.items kind of }
{
    if table.places.are_listed {
        if let Some(at) = guessed(&table.places.guesses, &table.slots, kind, of) {
            if let Some(slot) = table.slots.get(at) {
                return &slot.inputs;
            }
        }
    }
    first_keys(&table.slots, kind, of)
}
