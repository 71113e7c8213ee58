//! The rows of tests.

ghost use Rattle.std.specs.Prelude.{◌≡◌, ℕ, Some, IfOk, option_map, length, get_or};
ghost use Rattle.text_values.specs.TestValue.{formula_of, thread_steps};
ghost use Rattle.bench_parts.specs.Contents.{OfCondition, OfObserved, OfLocations, OfInit, OfThread};
ghost use Rattle.bench_parts.specs.Stamps.{IsStampOf, next_number};
ghost use Rattle.bench_parts.specs.Tests.{entry_of, held_by, stamp_by, thread_at, thread_by, thread_stamp_by, IsRowOf};

use bench_nodes::TestRow;
use std::alloc::{AllocError, Global};
use text_equality::{are_same_entries, are_same_places, are_same_steps, is_same_condition};
use text_values::{Condition, InitEntry, Name, Place, Test, Thread, are_same_names};

/// A test that is there, with its row and the set of its locations.
#[derive(Clone, Copy)]
pub struct HeldTest<'a> {
    /// The stamps of its parts.
    pub row: &'a TestRow,
    /// The test.
    pub test: &'a Test,
    /// The names of its locations.
    pub locations: &'a [Name],
}

// The stamp of a condition.
fn condition_stamp(fresh: u64, before: Option<&HeldTest>, condition: &Condition) -> u64
    ensures { let held = option_map (λ h. entry_of h.now) before.entry in
        IsStampOf fresh (held_by held 2) (stamp_by held 2)
        (Some (OfCondition condition.now.quantifier (formula_of condition.now.proposition)))
        result }
{
    match before {
        Some(held) => {
            if is_same_condition(&held.test.condition, condition) {
                held.row.condition
            } else {
                fresh
            }
        }
        None => fresh,
    }
}

// The stamp of what is observed.
fn observed_stamp(fresh: u64, before: Option<&HeldTest>, observed: &[Place]) -> u64
    ensures { let held = option_map (λ h. entry_of h.now) before.entry in
        IsStampOf fresh (held_by held 3) (stamp_by held 3) (Some (OfObserved observed.now)) result }
{
    match before {
        Some(held) => {
            if are_same_places(&held.test.observed, observed) {
                held.row.observed
            } else {
                fresh
            }
        }
        None => fresh,
    }
}

// The stamp of the set of locations.
fn locations_stamp(fresh: u64, before: Option<&HeldTest>, locations: &[Name]) -> u64
    ensures { let held = option_map (λ h. entry_of h.now) before.entry in
        IsStampOf fresh (held_by held 4) (stamp_by held 4) (Some (OfLocations locations.now))
        result }
{
    match before {
        Some(held) => {
            if are_same_names(held.locations, locations) {
                held.row.locations
            } else {
                fresh
            }
        }
        None => fresh,
    }
}

// The stamp of the initial values.
fn init_stamp(fresh: u64, before: Option<&HeldTest>, init: &[InitEntry]) -> u64
    ensures { let held = option_map (λ h. entry_of h.now) before.entry in
        IsStampOf fresh (held_by held 5) (stamp_by held 5) (Some (OfInit init.now)) result }
{
    match before {
        Some(held) => {
            if are_same_entries(&held.test.init, init) {
                held.row.init
            } else {
                fresh
            }
        }
        None => fresh,
    }
}

// The stamp of that number, 0 where there is none.
fn stamp_at(stamps: &[u64], k: usize) -> u64
    ensures { result ≡ get_or stamps.now k 0 }
{
    if k < stamps.len() { stamps[k] } else { 0 }
}

// The stamp of the thread of that number of a test that was there.
fn held_stamp(fresh: u64, held: &HeldTest, k: usize, thread: &Thread) -> u64
    ensures { let was = Some (entry_of held.now) in
        IsStampOf fresh (thread_by was k) (thread_stamp_by was k)
        (Some (OfThread (thread_steps thread.now))) result }
{
    match held.test.threads.get(k) {
        Some(earlier) => {
            if are_same_steps(&earlier.steps, &thread.steps) {
                stamp_at(&held.row.threads, k)
            } else {
                fresh
            }
        }
        None => fresh,
    }
}

fn thread_stamp(fresh: u64, before: Option<&HeldTest>, k: usize, thread: &Thread) -> u64
    ensures { let held = option_map (λ h. entry_of h.now) before.entry in
        IsStampOf fresh (thread_by held k) (thread_stamp_by held k)
        (Some (OfThread (thread_steps thread.now))) result }
{
    match before {
        Some(held) => held_stamp(fresh, held, k, thread),
        None => fresh,
    }
}

fn thread_stamps(
    alloc: Global,
    fresh: u64,
    before: Option<&HeldTest>,
    threads: &[Thread],
) -> Result<Vec<u64>, AllocError>
    ensures count { IfOk result (λ v. length v.items ≡ length threads.now) }
    ensures each { let held = option_map (λ h. entry_of h.now) before.entry in
        IfOk result (λ v. (k : ℕ)
        → IsStampOf fresh (thread_by held k) (thread_stamp_by held k) (thread_at threads.now k)
        (get_or v.items k 0)) }
{
    let mut stamps = Vec::with_capacity(alloc, threads.len())?;
    for (k, thread) in threads.iter().enumerate() {
        stamps.push(thread_stamp(fresh, before, k, thread))?;
    }
    Ok(stamps)
}

/// The number that stands for the next edit until that is known.
pub fn next_number(last: u64) -> u64
    ensures { result ≡ next_number last }
{
    last.saturating_add(1)
}

/// The row of a test of this number, with the set of its locations. `before` is the test before the
/// edit, if it was there. Errors: out of memory.
pub fn test_row(
    alloc: Global,
    fresh: u64,
    before: Option<&HeldTest>,
    id: u64,
    test: &Test,
    locations: &[Name],
) -> Result<TestRow, AllocError>
    ensures { IfOk result (λ row. IsRowOf fresh (option_map (λ h. entry_of h.now) before.entry) id
        test.now locations.now row) }
{
    let threads = thread_stamps(alloc, fresh, before, &test.threads)?;
    Ok(TestRow {
        id,
        condition: condition_stamp(fresh, before, &test.condition),
        observed: observed_stamp(fresh, before, &test.observed),
        locations: locations_stamp(fresh, before, locations),
        init: init_stamp(fresh, before, &test.init),
        threads,
    })
}
