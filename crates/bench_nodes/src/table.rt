//! The table of the stamps and of the nodes that each test has.

ghost use Rattle.std.specs.Prelude.{◌≡◌, ◌≤◌, ◌||◌, not, true, [], vec_len};
ghost use Rattle.bench_nodes.specs.Guesses.{are_items_guessed};
ghost use Rattle.bench_nodes.specs.Places.{are_rising, are_apart, lists_if, lists_in};

use crate::places::SlotPlaces;
use memo_core::keys::Kind;
use std::alloc::Global;

/// The part of an item: its text, with the label of a check.
pub const ITEM: u64 = 0;

/// The part of a model: its first fault.
pub const FAULT: u64 = 1;

/// The part of a test: its condition.
pub const CONDITION: u64 = 2;

/// The part of a test: the list of what is observed.
pub const OBSERVED: u64 = 3;

/// The part of a test: the set of its locations.
pub const LOCATIONS: u64 = 4;

/// The part of a test: its initial values.
pub const INIT: u64 = 5;

/// The part of a test: its first thread. The other threads follow.
pub const THREAD: u64 = 6;

/// A test by its number, with the stamps of its parts.
#[derive(Drop)]
pub struct TestRow {
    /// The number of the test.
    pub id: u64,
    /// The stamp of its condition.
    pub condition: u64,
    /// The stamp of what is observed.
    pub observed: u64,
    /// The stamp of the set of its locations.
    pub locations: u64,
    /// The stamp of its initial values.
    pub init: u64,
    /// The stamps of its threads.
    pub threads: Vec<u64>,
}

/// A model by its number, with the stamp of its fault.
#[derive(Clone, Copy, Debug)]
pub struct ModelRow {
    /// The number of the model.
    pub id: u64,
    /// The stamp of its fault.
    pub stamp: u64,
}

/// An item by its number, with its stamp.
#[derive(Clone, Copy, Debug)]
pub struct ItemRow {
    /// The number of the item.
    pub number: u64,
    /// The stamp of its text.
    pub stamp: u64,
}

/// An input of a node, without its test.
#[derive(Clone, Copy, Debug)]
pub enum SlotKey {
    /// A part of the test.
    Test(u64),
    /// The part of the item of that number.
    Item(u64),
    /// The fault of the model of that number.
    Fault(u64),
    /// An output of the test's node of this kind, of an item or model of that number: the output's
    /// name comes last.
    Value(Kind, u64, u64),
}

/// A node that each test has.
pub struct Slot {
    /// Its kind.
    pub kind: Kind,
    /// The number of its item or model, 0 for the space.
    pub of: u64,
    /// Its inputs in order. Those of the space stand at the test.
    pub inputs: Vec<SlotKey>,
}

impl Drop for Slot {
    fn drop(self) {
        let Slot {
            kind: _,
            of: _,
            inputs: _,
        } = self;
    }
}

/// The stamps of all parts, and the nodes that each test has.
pub struct NodeTable {
    /// The tests.
    pub tests: Vec<TestRow>,
    /// The models.
    pub models: Vec<ModelRow>,
    /// The items of all models.
    pub items: Vec<ItemRow>,
    /// The guesses of where these stand.
    pub item_guesses: Vec<usize>,
    /// The nodes that each test has: each behind those that it uses.
    pub slots: Vec<Slot>,
    /// Where the slots stand.
    pub places: SlotPlaces,
    /// Whether the numbers of the tests rise, so that a test is found without a search.
    pub is_rising: bool,
    ghost few_tests: { vec_len tests ≤ 65536 },
    ghost few_slots: { vec_len slots ≤ 65536 },
    ghost rising: { (not is_rising || are_rising tests.items) ≡ true },
    ghost guessed: { are_items_guessed item_guesses.items items.items ≡ true },
    ghost apart: { (not places.are_listed || are_apart slots.items) ≡ true },
    ghost listed: { lists_in places.are_listed places.users.items
        ≡ lists_if places.are_listed slots.items },
}

impl Drop for NodeTable {
    fn drop(self) {
        let NodeTable {
            tests: _,
            models: _,
            items: _,
            item_guesses: _,
            slots: _,
            places: _,
            is_rising: _,
        } = self;
    }
}

impl NodeTable {
    /// No tests, models, items and nodes.
    pub fn new(alloc: Global) -> NodeTable
        ensures tests { result.tests.items ≡ [] }
        ensures models { result.models.items ≡ [] }
        ensures items { result.items.items ≡ [] }
        ensures slots { result.slots.items ≡ [] }
    {
        NodeTable {
            tests: Vec::new(alloc),
            models: Vec::new(alloc),
            items: Vec::new(alloc),
            item_guesses: Vec::new(alloc),
            slots: Vec::new(alloc),
            places: SlotPlaces::new(alloc),
            is_rising: false,
        }
    }
}
