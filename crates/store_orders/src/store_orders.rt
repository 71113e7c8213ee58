//! Orders of stores, in one flat list.
ghost use Rattle.std.specs.Prelude.{◌≡◌, ◌<◌, ◌≤◌, ◌∷◌, ◌++◌, [], length, slice_index_or, All, IfOk, OnOk};
ghost use Rattle.std.specs.List.{concat, flat_map};
ghost use Rattle.store_orders.specs.Lists.{each_behind};
ghost use Rattle.store_orders.specs.Rows.{rows_kept};

use std::alloc::{AllocError, Global};
use std::marker::Model;

/// Orders of the same stores, one after another in one list. Contracts see the list of the orders.
#[derive(Drop)]
pub struct StoreOrders {
    /// The stores of the first order, then those of the next.
    pub stores: Vec<u8>,
    /// How many stores an order has.
    pub(crate) width: usize,
    /// How many orders there are.
    pub count: usize,
}

impl Model for StoreOrders {
    ghost use Rattle.std.specs.Prelude.{ℕ, ◌≡◌, ◌*◌, List, length};
    ghost use Rattle.store_orders.specs.Lists.{rows_in};

    ghost Value = { List (List ℕ) };

    ghost view = { λ o. rows_in o.width o.count o.stores.items };

    ghost invariant = { λ o. length o.stores.items ≡ o.count * o.width };
}

impl StoreOrders {
    /// No order.
    pub fn none(alloc: Global) -> StoreOrders
        ensures { result ≡ [] }
    {
        StoreOrders {
            stores: Vec::new(alloc),
            width: 0,
            count: 0,
        }
    }

    /// How many orders there are.
    pub fn len(&self) -> usize
        ensures { result ≡ length self.now }
    {
        self.count
    }

    /// The order at an index, from 0.
    pub fn order(&self, index: usize) -> &[u8]
        requires { index < length self.now }
        ensures { result.now ≡ slice_index_or self.now index [] }
    {
        let begin = index * self.width;
        &self.stores[begin..begin + self.width]
    }

    /// One order, of no store.
    pub fn of_no_store(alloc: Global) -> StoreOrders
        ensures { result ≡ [] ∷ [] }
    {
        StoreOrders {
            stores: Vec::new(alloc),
            width: 0,
            count: 1,
        }
    }

    /// Those of the orders that have `true` at their index. Errors: want of memory.
    pub fn kept(&self, alloc: Global, answers: &[bool]) -> Result<StoreOrders, AllocError>
        requires { length self.now ≤ length answers.now }
        ensures { IfOk result (λ v. v ≡ rows_kept self.now answers.now) }
    {
        let mut stores = Vec::with_capacity(alloc, self.width)?;
        let mut count = 0usize;
        for index in 0..self.count {
            if answers[index] {
                stores.extend_from_slice(self.order(index))?;
                count += 1;
            }
        }
        Ok(StoreOrders {
            stores,
            width: self.width,
            count,
        })
    }

    /// Adds each of the orders, with these stores before it.
    fn add_behind(&self, front: &[u8], stores: &mut Vec<u8>) -> Result<(), AllocError>
        ensures { OnOk result (stores.new.items
            ≡ stores.old.items ++ concat (each_behind self.now front.now)) }
    {
        for index in 0..self.count {
            stores.extend_from_slice(front)?;
            stores.extend_from_slice(self.order(index))?;
        }
        Ok(())
    }

    /// Each order with each of the rows behind it. Errors: want of memory.
    pub fn followed_by(&self, alloc: Global, rows: &StoreOrders) -> Result<StoreOrders, AllocError>
        requires { All (λ row. 0 < length row) rows.now }
        ensures { IfOk result (λ v. v ≡ flat_map (each_behind rows.now) self.now) }
    {
        let width = self.width.saturating_add(rows.width);
        let mut stores = Vec::with_capacity(alloc, width)?;
        for index in 0..self.count {
            rows.add_behind(self.order(index), &mut stores)?;
        }
        Ok(StoreOrders {
            stores,
            width,
            count: self.count.saturating_mul(rows.count),
        })
    }
}
