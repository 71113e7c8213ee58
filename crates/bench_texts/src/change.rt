//! What an edit changes, where each thing stands.

use crate::model::NamedModel;
use text_values::{Condition, InitEntry, Item, Place, Test, Thread};

/// A change of the texts, by the indexes of what it changes.
#[derive(Drop)]
pub enum Change {
    /// A test takes an index, which may be that behind the last.
    PutTest {
        at: usize,
        test: Test,
    },
    /// A test goes.
    DropTest {
        at: usize,
    },
    /// A test gets other initial values.
    SetInit {
        at: usize,
        init: Vec<InitEntry>,
    },
    /// A test gets another thread in the place of one.
    SetThread {
        at: usize,
        thread: usize,
        other: Thread,
    },
    /// A test gets another condition.
    SetCond {
        at: usize,
        condition: Condition,
    },
    /// A test gets another list of observables.
    SetObserved {
        at: usize,
        observed: Vec<Place>,
    },
    /// A model takes an index, which may be that behind the last, and the next item is given a
    /// number.
    PutModel {
        at: usize,
        model: NamedModel,
        next: u64,
    },
    /// A model goes.
    DropModel {
        at: usize,
    },
    /// An item of a model takes the place of the one of that number.
    SetItem {
        at: usize,
        index: usize,
        number: u64,
        item: Item,
    },
    /// A model gets one item more.
    InsertItem {
        at: usize,
        index: usize,
        item: Item,
    },
    /// An item of a model goes.
    RemoveItem {
        at: usize,
        index: usize,
    },
}
