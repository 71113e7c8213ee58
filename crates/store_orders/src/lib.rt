//! Combinations of runs, and the orders of their stores. Read `specs/Events` first, then
//! `specs/Orders`.
#![tactic(auto)]

mod combination;
mod orders;
mod store_orders;

pub use combination::{Action, Combination, Event};
pub use orders::{order_count, row_count, rows_at, with_orders};
pub use store_orders::StoreOrders;
