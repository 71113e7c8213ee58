//! What an edit touches: the slots whose use, inputs or stamps it changes, and their nodes.

ghost use Rattle.std.specs.Prelude.{◌≡◌, ◌++◌, IfOk, option_map};
ghost use Rattle.bench_nodes.specs.Touched.{same_slot_key, same_slot_keys, keeps_stamp, keep_stamps, is_slot_kept, changed_slots, gone_slots, touched_slots, rows_of, new_rows, keeps_part, keep_parts, same_stamps, same_space, keeps_inputs, is_node_kept, test_slots, nodes_named, nodes_of_tests, all_names};
ghost use Rattle.bench_nodes.specs.Places.{slot_name};
ghost use Rattle.bench_nodes.specs.Nodes.{has_slot};

use crate::find::{fault_stamp, has_slot, has_slot_among, number_of, slot_keys, stamp_in};
use crate::guesses::placed_stamp;
use crate::new_slots::NewSlots;
use crate::places::{SlotName, guessed};
use crate::table::{FAULT, NodeTable, Slot, SlotKey, TestRow};
use memo_core::keys::{Kind, Node};
use std::alloc::{AllocError, Global};

fn is_same_key(a: SlotKey, b: SlotKey) -> bool
    ensures { result ≡ same_slot_key a b }
{
    match (a, b) {
        (SlotKey::Test(x), SlotKey::Test(y)) => x == y,
        (SlotKey::Item(x), SlotKey::Item(y)) => x == y,
        (SlotKey::Fault(x), SlotKey::Fault(y)) => x == y,
        (SlotKey::Value(k, x, n), SlotKey::Value(l, y, m)) => {
            number_of(k) == number_of(l) && x == y && n == m
        }
        _ => false,
    }
}

fn are_same_keys(a: &[SlotKey], b: &[SlotKey]) -> bool
    ensures { result ≡ same_slot_keys a.now b.now }
{
    if a.len() != b.len() {
        return false;
    }
    for i in 0..a.len() {
        if !is_same_key(a[i], b[i]) {
            return false;
        }
    }
    true
}

// ---- an edit of models

// Whether the item or fault that an input names has the same stamp in both.
fn keeps_stamp(table: &NodeTable, new: &NewSlots<'_>, key: SlotKey) -> bool
    ensures { result ≡ keeps_stamp (rows_of table.now) (new_rows new.now) key }
{
    match key {
        SlotKey::Test(part) => part > FAULT,
        SlotKey::Item(number) => {
            placed_stamp(&table.item_guesses, &table.items, number)
                == placed_stamp(new.item_guesses, new.items, number)
        }
        SlotKey::Fault(id) => fault_stamp(&table.models, id) == fault_stamp(new.models, id),
        SlotKey::Value(_, _, _) => true,
    }
}

fn keep_stamps(table: &NodeTable, new: &NewSlots<'_>, keys: &[SlotKey]) -> bool
    ensures { result ≡ keep_stamps (rows_of table.now) (new_rows new.now) keys.now }
{
    for key in keys {
        if !keeps_stamp(table, new, *key) {
            return false;
        }
    }
    true
}

// Whether a new slot was there with the same inputs, and these keep their stamps.
fn is_slot_kept(table: &NodeTable, new: &NewSlots<'_>, slot: &Slot) -> bool
    ensures { result ≡ is_slot_kept (rows_of table.now) (new_rows new.now) slot.now }
{
    has_slot(table, slot.kind, slot.of)
        && are_same_keys(slot_keys(table, slot.kind, slot.of), &slot.inputs)
        && keep_stamps(table, new, &slot.inputs)
}

fn name_of(slot: &Slot) -> SlotName
    ensures { result ≡ slot_name slot.now }
{
    SlotName {
        kind: slot.kind,
        of: slot.of,
    }
}

// Adds those of the new slots that are not kept. Errors: want of memory.
fn put_changed(
    names: &mut Vec<SlotName>,
    table: &NodeTable,
    new: &NewSlots<'_>,
) -> Result<(), AllocError>
    ensures { IfOk result (λ _. names.new.items
        ≡ names.old.items ++ changed_slots (rows_of table.now) (new_rows new.now)
        new.now.slots.now) }
{
    for slot in new.slots {
        if !is_slot_kept(table, new, slot) {
            names.push(name_of(slot))?;
        }
    }
    Ok(())
}

// Whether one of the new slots is of that kind and number.
fn is_there(new: &NewSlots<'_>, kind: Kind, of: u64) -> bool
    ensures { result ≡ has_slot new.now.slots.now kind of }
{
    match guessed(&new.places.guesses, new.slots, kind, of) {
        Some(_) => true,
        None => has_slot_among(new.slots, kind, of),
    }
}

// Adds the slots that are not among the new ones. Errors: want of memory.
fn put_gone(names: &mut Vec<SlotName>, new: &NewSlots<'_>, slots: &[Slot]) -> Result<(), AllocError>
    ensures { IfOk result (λ _. names.new.items
        ≡ names.old.items ++ gone_slots new.now.slots.now slots.now) }
{
    for slot in slots {
        if !is_there(new, slot.kind, slot.of) {
            names.push(name_of(slot))?;
        }
    }
    Ok(())
}

/// The slots that an edit of models touches. Errors: want of memory.
pub fn touched_slots(
    alloc: Global,
    table: &NodeTable,
    new: &NewSlots<'_>,
) -> Result<Vec<SlotName>, AllocError>
    ensures { IfOk result (λ v. v.items ≡ touched_slots (rows_of table.now) (new_rows new.now)) }
{
    let mut names = Vec::new(alloc);
    put_changed(&mut names, table, new)?;
    put_gone(&mut names, new, &table.slots)?;
    Ok(names)
}

// ---- an edit of a test

// Whether a part of the test that an input names has the same stamp in both rows.
fn keeps_part(a: &TestRow, b: &TestRow, key: SlotKey) -> bool
    ensures { result ≡ keeps_part a.now b.now key }
{
    match key {
        SlotKey::Test(part) => stamp_in(a, part) == stamp_in(b, part),
        SlotKey::Item(_) => true,
        SlotKey::Fault(_) => true,
        SlotKey::Value(_, _, _) => true,
    }
}

fn keep_parts(a: &TestRow, b: &TestRow, keys: &[SlotKey]) -> bool
    ensures { result ≡ keep_parts a.now b.now keys.now }
{
    for key in keys {
        if !keeps_part(a, b, *key) {
            return false;
        }
    }
    true
}

fn are_same_stamps(a: &[u64], b: &[u64]) -> bool
    ensures { result ≡ same_stamps a.now b.now }
{
    if a.len() != b.len() {
        return false;
    }
    for i in 0..a.len() {
        if a[i] != b[i] {
            return false;
        }
    }
    true
}

// Whether initial values, locations and threads have the same stamps.
fn has_same_space(a: &TestRow, b: &TestRow) -> bool
    ensures { result ≡ same_space a.now b.now }
{
    a.init == b.init && a.locations == b.locations && are_same_stamps(&a.threads, &b.threads)
}

fn keeps_inputs(a: &TestRow, b: &TestRow, slot: &Slot) -> bool
    ensures { result ≡ keeps_inputs a.now b.now slot.now.kind slot.now.inputs.items }
{
    match slot.kind {
        Kind::Space => has_same_space(a, b),
        Kind::Group => keep_parts(a, b, &slot.inputs),
        Kind::Check => keep_parts(a, b, &slot.inputs),
        Kind::Verdict => keep_parts(a, b, &slot.inputs),
    }
}

// Whether the row was there, and the slot's node keeps its inputs and their stamps.
fn is_node_kept(before: Option<&TestRow>, row: &TestRow, slot: &Slot) -> bool
    ensures { result ≡ is_node_kept (option_map (λ r. r.now) before.entry) row.now slot.now.kind
        slot.now.inputs.items }
{
    match before {
        None => false,
        Some(before) => keeps_inputs(before, row, slot),
    }
}

/// Those of these slots that an edit touches which puts that row in the place of the one before, if
/// one was there. Errors: want of memory.
pub fn test_slots(
    alloc: Global,
    before: Option<&TestRow>,
    row: &TestRow,
    slots: &[Slot],
) -> Result<Vec<SlotName>, AllocError>
    ensures { IfOk result (λ v. v.items
        ≡ test_slots (option_map (λ r. r.now) before.entry) row.now slots.now) }
{
    let mut names = Vec::new(alloc);
    for slot in slots {
        if !is_node_kept(before, row, slot) {
            names.push(name_of(slot))?;
        }
    }
    Ok(names)
}

/// The names of slots. Errors: want of memory.
pub fn all_names(alloc: Global, slots: &[Slot]) -> Result<Vec<SlotName>, AllocError>
    ensures { IfOk result (λ v. v.items ≡ all_names slots.now) }
{
    let mut names = Vec::with_capacity(alloc, slots.len())?;
    for slot in slots {
        names.push(name_of(slot))?;
    }
    Ok(names)
}

// ---- nodes

// Adds the nodes of these slots of a test. Errors: want of memory.
fn put_nodes(nodes: &mut Vec<Node>, test: u64, names: &[SlotName]) -> Result<(), AllocError>
    ensures { IfOk result (λ _. nodes.new.items ≡ nodes.old.items ++ nodes_named test names.now) }
{
    for name in names {
        nodes.push(Node {
            kind: name.kind,
            test,
            of: name.of,
        })?;
    }
    Ok(())
}

/// The nodes of these slots of a test. Errors: want of memory.
pub fn nodes_named(alloc: Global, test: u64, names: &[SlotName]) -> Result<Vec<Node>, AllocError>
    ensures { IfOk result (λ v. v.items ≡ nodes_named test names.now) }
{
    let mut nodes = Vec::with_capacity(alloc, names.len())?;
    put_nodes(&mut nodes, test, names)?;
    Ok(nodes)
}

/// The nodes of these slots of each of these tests. Errors: want of memory.
pub fn nodes_of_tests(
    alloc: Global,
    names: &[SlotName],
    tests: &[TestRow],
) -> Result<Vec<Node>, AllocError>
    ensures { IfOk result (λ v. v.items ≡ nodes_of_tests names.now tests.now) }
{
    let mut nodes = Vec::with_capacity(alloc, names.len().saturating_mul(tests.len()))?;
    for test in tests {
        put_nodes(&mut nodes, test.id, names)?;
    }
    Ok(nodes)
}
