//! Combinations of runs, with what makes candidates of them.
ghost use Rattle.std.specs.Prelude.{◌≡◌, ◌-◌, ◌^◌, ◌<◌, ◌≤◌, ◌↔◌, min, length, IsTrue};

use crate::store_orders::StoreOrders;
use dataflow::Dependencies;
use text_values::Fence;
use thread_runs::Value;

/// What an event does.
#[derive(Clone, Copy)]
pub enum Action {
    /// A load of the value from the location, by its index among the test's.
    Load { location: usize, value: Value },
    /// A store of the value at the location, by its index among the test's.
    Store { location: usize, value: Value },
    /// A fence.
    Fence(Fence),
}

/// An event: an initial store, which has no thread, or an access or fence of a thread.
#[derive(Clone, Copy)]
pub struct Event {
    /// The thread's number, from 0; none for an initial store.
    pub thread: Option<usize>,
    /// What it does.
    pub action: Action,
}

/// One run for each thread, with all read choices and all orders of the stores that make
/// candidates of it: each read choice with each order is one candidate, the read choices outside.
/// Events are numbered: initial stores by location, then threads in order, each in program
/// order.
#[derive(Drop)]
pub struct Combination {
    /// The events, by their numbers.
    pub events: Vec<Event>,
    /// The dependencies, by the numbers of their events.
    pub dependencies: Dependencies,
    /// For each thread, the index of its run in `Space::registers`.
    pub runs: Vec<usize>,
    /// Each a read choice: for each load in event order, the number of the store that it reads.
    pub reads_from: Vec<Vec<u8>>,
    /// The orders of the stores: in each, those of each location after one another, locations in
    /// order, the initial store first.
    pub orders: StoreOrders,
    /// There are at most 128 events.
    pub ghost few: { length events.items ≤ 128 },
}

impl Combination {
    ghost use Rattle.store_orders.specs.Combinations.{candidates_of};

    /// How many candidates it has, or the greatest number where that is less.
    pub fn candidate_count(&self) -> usize
        ensures { result ≡ min (length (candidates_of self.now)) (2 ^ 64 - 1) }
    {
        self.reads_from.len().saturating_mul(self.orders.len())
    }

    /// Whether it has a candidate at this index.
    pub fn has(&self, index: usize) -> bool
        ensures { IsTrue result ↔ (index < length (candidates_of self.now)) }
    {
        let orders = self.orders.len();
        if orders == 0 {
            return false;
        }
        index / orders < self.reads_from.len()
    }
}
