//! The stamps of the parts of the texts, and what jobs are given of these parts beside the tests.

use crate::find::model_index;
use bench_items::SharedItem;
use bench_nodes::{NodeTable, item_index};
use binding_graph::ModelFault;
use memo_core::keys::Kind;
use std::alloc::Global;
use text_values::Name;

/// The stamps of the parts, with what jobs are given of these parts that the tests do not hold.
pub struct Parts {
    /// The stamps, of an item that of its text, and the nodes of each test.
    pub table: NodeTable,
    /// The set of the locations of each test.
    pub locations: Vec<Vec<Name>>,
    /// The fault of each model, if it has one.
    pub faults: Vec<Option<ModelFault>>,
    /// What each item does, or under a fault of its model what it did when the model was last
    /// without one, if it was there then.
    pub roles: Vec<Option<SharedItem>>,
    /// The kind of node that each item is by its text, if it is one: a group of bindings, or a
    /// check or a flag.
    pub kinds: Vec<Option<Kind>>,
    /// The number of the last edit.
    pub last: u64,
}

impl Drop for Parts {
    fn drop(self) {
        let Parts {
            table: _,
            locations: _,
            faults: _,
            roles: _,
            kinds: _,
            last: _,
        } = self;
    }
}

impl Parts {
    ghost use Rattle.std.specs.Prelude.{◌≡◌, ◌==◌, ◌≤◌, [], length};
    ghost use Rattle.std.specs.List.{position_or_len};
    ghost use Rattle.bench_parts.specs.Built.{IsBuilt};
    ghost use Rattle.bench_parts.specs.Contents.{parts_state};

    /// The parts of a bench without tests and models, before its first edit.
    pub fn new(alloc: Global) -> Parts
        ensures built { IsBuilt (parts_state result []) [] }
        ensures items { result.table.items.items ≡ [] }
        ensures models { result.table.models.items ≡ [] }
        ensures last { result.last ≡ 0 }
    {
        Parts {
            table: NodeTable::new(alloc),
            locations: Vec::new(alloc),
            faults: Vec::new(alloc),
            roles: Vec::new(alloc),
            kinds: Vec::new(alloc),
            last: 0,
        }
    }

    /// The index of the first test of that number, or how many tests there are.
    pub fn test_index(&self, id: u64) -> usize
        ensures found { result ≡ position_or_len (λ t. t.id == id) self.now.table.tests.items }
        ensures within { result ≤ length self.now.table.tests.items }
    {
        self.table.test_index(id)
    }

    /// The index of the first model of that number, or how many models there are.
    pub fn model_index(&self, id: u64) -> usize
        ensures found { result ≡ position_or_len (λ m. m.id == id) self.now.table.models.items }
        ensures within { result ≤ length self.now.table.models.items }
    {
        model_index(&self.table.models, id)
    }

    /// The index of the first item of that number, or how many items there are.
    pub fn item_index(&self, number: u64) -> usize
        ensures found { result
            ≡ position_or_len (λ i. i.number == number) self.now.table.items.items }
        ensures within { result ≤ length self.now.table.items.items }
    {
        item_index(&self.table.item_guesses, &self.table.items, number)
    }
}
