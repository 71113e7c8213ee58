//! Orders of stores that are made of kept rows, a row being an order of the stores of one location.
//!
//! Read specs/Kept first, then specs/KeptRows.

ghost use Rattle.whole_outcomes.specs.KeptRows.{OrdersHaveKeptRows};

use run_combinations::Event;

/// The orders with kept rows are all orders, without those that have a row that is not kept.
pub fn orders_have_kept_rows(events: &[Event])
    ensures { OrdersHaveKeptRows events.now }
{
    let _events = events;
}
