//! The calls of a table.

ghost use Rattle.std.specs.Prelude.{◌≡◌, ◌+◌, ◌*◌, ◌<◌, Some, length, slice_get};
ghost use Rattle.memo_core.specs.Tests.{has_node};
ghost use Rattle.bench_nodes.specs.Nodes.{node_of, used_in, key_at, keys_at, row_of, space_parts, space_keys};

use crate::find::{fault_stamp, has_slot, has_test, row_of, slot_keys, test_index, test_stamp};
use crate::guesses::placed_stamp;
use crate::table::{FAULT, INIT, ITEM, LOCATIONS, NodeTable, Slot, SlotKey, THREAD, TestRow};
use crate::users::{user_count, user_node};
use memo_core::keys::{Key, Kind, Node};

pub(crate) fn node_of(test: u64, slot: &Slot) -> Node
    ensures { result ≡ node_of test slot.now }
{
    Node {
        kind: slot.kind,
        test,
        of: slot.of,
    }
}

fn key_at(test: u64, key: SlotKey) -> Key
    ensures { result ≡ key_at test key }
{
    match key {
        SlotKey::Test(part) => Key::Part(part, test),
        SlotKey::Item(number) => Key::Part(ITEM, number),
        SlotKey::Fault(id) => Key::Part(FAULT, id),
        SlotKey::Value(kind, of, name) => Key::Output(Node { kind, test, of }, name),
    }
}

// One of these inputs, of a node of that test.
fn key_in(test: u64, keys: &[SlotKey], i: usize) -> Key
    requires { i < length keys.now }
    ensures { slice_get (keys_at test keys.now) i ≡ Some result }
{
    key_at(test, keys[i])
}

// The same, where it is said of the inputs.
fn key_of(test: u64, keys: &[SlotKey], i: usize) -> Key
    requires { i < length (keys_at test keys.now) }
    ensures { slice_get (keys_at test keys.now) i ≡ Some result }
{
    key_in(test, keys, i)
}

// How many these inputs are, of a node of that test.
fn key_count(_test: u64, keys: &[SlotKey]) -> usize
    ensures { result ≡ length (keys_at _test keys.now) }
{
    keys.len()
}

// How many inputs the space of a test has.
fn space_count(table: &NodeTable, id: u64) -> usize
    ensures { result ≡ length (space_keys table.now.tests.items id) }
{
    match row_of(table, id) {
        Some(test) => test.threads.len() + 2,
        None => 0,
    }
}

// An input of the space of this test.
fn space_part(test: &TestRow, i: usize) -> Key
    requires { i < length (space_parts test.now) }
    ensures { slice_get (space_parts test.now) i ≡ Some result }
{
    if i == 0 {
        Key::Part(INIT, test.id)
    } else if i <= test.threads.len() {
        Key::Part(THREAD + (i as u64 - 1), test.id)
    } else {
        Key::Part(LOCATIONS, test.id)
    }
}

// An input of the space of a test.
fn space_key(table: &NodeTable, id: u64, i: usize) -> Key
    requires { i < length (space_keys table.now.tests.items id) }
    ensures { slice_get (space_keys table.now.tests.items id) i ≡ Some result }
{
    match row_of(table, id) {
        Some(test) => space_part(test, i),
        None => unreachable!(),
    }
}

// The node of a test and a slot.
fn node_in(slots: &[Slot], tests: &[TestRow], test: usize, slot: usize) -> Node
    requires test { test < length tests.now }
    requires slot { slot < length slots.now }
    ensures { slice_get (used_in slots.now tests.now) (test * length slots.now + slot)
        ≡ Some result }
{
    node_of(tests[test].id, &slots[slot])
}

// A used node.
fn used_node(slots: &[Slot], tests: &[TestRow], i: usize) -> Node
    requires { i < length (used_in slots.now tests.now) }
    ensures { slice_get (used_in slots.now tests.now) i ≡ Some result }
{
    let each = slots.len();
    node_in(slots, tests, i / each, i % each)
}

fn is_used(table: &NodeTable, node: Node) -> bool
    ensures { result ≡ has_node node (used_in table.now.slots.items table.now.tests.items) }
{
    has_test(table, node.test) && has_slot(table, node.kind, node.of)
}

impl NodeTable {
    ghost use Rattle.std.specs.Prelude.{◌≡◌, ◌==◌, ◌∷◌, ◌+◌, ◌<◌, ◌≤◌, Some, length, drop, slice_get};
    ghost use Rattle.std.specs.List.{position_or_len};
    ghost use Rattle.memo_core.specs.Tests.{has_node};
    ghost use Rattle.bench_nodes.specs.Nodes.{part_stamp, used, node_inputs, inputs, users, has_test_row, slot_keys};

    /// The stamp of a part, 0 where it is not there.
    pub fn part_stamp(&self, part: u64, of: u64) -> u64
        ensures { result ≡ part_stamp self.now part of }
    {
        if part == ITEM {
            placed_stamp(&self.item_guesses, &self.items, of)
        } else if part == FAULT {
            fault_stamp(&self.models, of)
        } else {
            test_stamp(self, part, of)
        }
    }

    /// The index of the first test of that number, or how many tests there are.
    pub fn test_index(&self, id: u64) -> usize
        ensures found { result ≡ position_or_len (λ t. t.id == id) self.now.tests.items }
        ensures within { result ≤ length self.now.tests.items }
    {
        test_index(self, id)
    }

    /// Whether a test of that number is there.
    pub fn has_test(&self, id: u64) -> bool
        ensures { result ≡ has_test_row self.now.tests.items id }
    {
        has_test(self, id)
    }

    /// The inputs of the nodes of this kind of the item or model of that number, without their
    /// test.
    pub fn slot_keys(&self, kind: Kind, of: u64) -> &[SlotKey]
        ensures { result.now ≡ slot_keys self.now.slots.items kind of }
    {
        slot_keys(self, kind, of)
    }

    /// How many inputs a node has.
    pub fn input_count(&self, node: Node) -> usize
        ensures { result ≡ length (node_inputs self.now node.kind node.test node.of) }
    {
        match node.kind {
            Kind::Space => space_count(self, node.test),
            Kind::Group => key_count(node.test, slot_keys(self, Kind::Group, node.of)),
            Kind::Check => key_count(node.test, slot_keys(self, Kind::Check, node.of)),
            Kind::Verdict => key_count(node.test, slot_keys(self, Kind::Verdict, node.of)),
        }
    }

    // An input of a node.
    fn input(&self, node: Node, i: usize) -> Key
        requires { i < length (node_inputs self.now node.kind node.test node.of) }
        ensures { slice_get (node_inputs self.now node.kind node.test node.of) i ≡ Some result }
    {
        match node.kind {
            Kind::Space => space_key(self, node.test, i),
            Kind::Group => key_of(node.test, slot_keys(self, Kind::Group, node.of), i),
            Kind::Check => key_of(node.test, slot_keys(self, Kind::Check, node.of), i),
            Kind::Verdict => key_of(node.test, slot_keys(self, Kind::Verdict, node.of), i),
        }
    }

    /// An input of a node, by its index from 0.
    pub fn input_at(&self, node: Node, i: usize) -> Key
        requires { i < length (inputs self.now node) }
        ensures at { slice_get (inputs self.now node) i ≡ Some result }
        ensures rest { drop i (inputs self.now node)
            ≡ result ∷ drop (i + 1) (inputs self.now node) }
    {
        self.input(node, i)
    }

    /// How many nodes the cells use.
    pub fn used_count(&self) -> usize
        ensures { result ≡ length (used self.now) }
    {
        self.tests.len() * self.slots.len()
    }

    /// A used node, by its index from 0.
    pub fn used_at(&self, i: usize) -> Node
        requires { i < length (used self.now) }
        ensures at { slice_get (used self.now) i ≡ Some result }
        ensures rest { drop i (used self.now) ≡ result ∷ drop (i + 1) (used self.now) }
    {
        used_node(&self.slots, &self.tests, i)
    }

    /// Whether some cell uses a node.
    pub fn is_used(&self, node: Node) -> bool
        ensures { result ≡ has_node node (used self.now) }
    {
        is_used(self, node)
    }

    /// How many users a node has.
    pub fn user_count(&self, node: Node) -> usize
        ensures { result ≡ length (users self.now node) }
    {
        user_count(self, node)
    }

    /// A user of a node, by its index from 0.
    pub fn user_at(&self, node: Node, i: usize) -> Node
        requires { i < length (users self.now node) }
        ensures at { slice_get (users self.now node) i ≡ Some result }
        ensures rest { drop i (users self.now node) ≡ result ∷ drop (i + 1) (users self.now node) }
    {
        user_node(self, node, i)
    }
}
