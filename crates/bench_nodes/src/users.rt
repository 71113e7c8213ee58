//! Which nodes of a test stand on one of its nodes.

ghost use Rattle.std.specs.Prelude.{◌≡◌, ◌<◌, Some, IfSome, length, map, slice_get};
ghost use Rattle.bench_nodes.specs.Nodes.{users_at};
ghost use Rattle.bench_nodes.specs.Slots.{is_output_of, uses};
ghost use Rattle.bench_nodes.specs.Places.{node_named};

use crate::find::number_of;
use crate::nodes::node_of;
use crate::places::{SlotName, guessed};
use crate::table::{NodeTable, Slot, SlotKey};
use memo_core::keys::{Kind, Node};

// Whether an input is an output of the test's node of this kind, of that item or model.
fn is_output_of(kind: Kind, of: u64, key: SlotKey) -> bool
    ensures { result ≡ is_output_of kind of key }
{
    match key {
        SlotKey::Test(_) => false,
        SlotKey::Item(_) => false,
        SlotKey::Fault(_) => false,
        SlotKey::Value(other, from, _) => number_of(kind) == number_of(other) && of == from,
    }
}

/// Whether one of these inputs is an output of the test's node of this kind, of that item or model.
pub(crate) fn uses(kind: Kind, of: u64, keys: &[SlotKey]) -> bool
    ensures { result ≡ uses kind of keys.now }
{
    for key in keys {
        if is_output_of(kind, of, *key) {
            return true;
        }
    }
    false
}

// How many of these slots use the slot of a node.
fn count_users(slots: &[Slot], node: Node) -> usize
    ensures { result ≡ length (users_at slots.now node.kind node.of node.test) }
{
    let mut count = 0;
    for slot in slots {
        if uses(node.kind, node.of, &slot.inputs) {
            count += 1;
        }
    }
    count
}

// A node that stands on a node, by its index from 0, where these are all slots.
fn find_user(slots: &[Slot], node: Node, i: usize) -> Node
    requires { i < length (users_at slots.now node.kind node.of node.test) }
    ensures { slice_get (users_at slots.now node.kind node.of node.test) i ≡ Some result }
{
    let mut left = i;
    for slot in slots {
        if uses(node.kind, node.of, &slot.inputs) {
            if left == 0 {
                return node_of(node.test, slot);
            }
            left -= 1;
        }
    }
    unreachable!()
}

// The slots that use the slot of a node, where they are listed and its place is guessed.
fn listed_users(table: &NodeTable, node: Node) -> Option<&[SlotName]>
    ensures { IfSome result (λ names. users_at table.now.slots.items node.kind node.of node.test
        ≡ map (node_named node.test) names.now) }
{
    if !table.places.are_listed {
        return None;
    }
    let at = guessed(&table.places.guesses, &table.slots, node.kind, node.of)?;
    let users = table.places.users.get(at)?;
    Some(users.as_slice())
}

/// How many nodes stand on a node.
pub(crate) fn user_count(table: &NodeTable, node: Node) -> usize
    ensures { result ≡ length (users_at table.now.slots.items node.kind node.of node.test) }
{
    match listed_users(table, node) {
        Some(names) => names.len(),
        None => count_users(&table.slots, node),
    }
}

// The node of a test and a slot's name.
fn named(test: u64, name: SlotName) -> Node
    ensures { result ≡ node_named test name }
{
    Node {
        kind: name.kind,
        test,
        of: name.of,
    }
}

/// A node that stands on a node, by its index from 0.
pub(crate) fn user_node(table: &NodeTable, node: Node, i: usize) -> Node
    requires { i < length (users_at table.now.slots.items node.kind node.of node.test) }
    ensures { slice_get (users_at table.now.slots.items node.kind node.of node.test) i
        ≡ Some result }
{
    match listed_users(table, node) {
        Some(names) => named(node.test, names[i]),
        None => find_user(&table.slots, node, i),
    }
}
