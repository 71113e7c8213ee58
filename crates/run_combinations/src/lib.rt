//! The search for the candidates of a test: the parts that runs of its threads give, the
//! combinations of a run of each thread, and for each of them the read choices and the orders of
//! the stores.
//!
//! Read `specs/Events` of `store_orders` first, then `specs/ReadChoices`, `specs/Orders` of
//! `store_orders`, and `specs/Candidates`. What `space` makes of these, in the words of the field,
//! stands in `candidates`.
#![tactic(auto)]

mod key_words;
mod keys;
mod layout;
mod part;
mod reading;
mod search;

pub use layout::{Layout, ThreadParts, registers};
pub use part::Part;
pub use search::{Found, find_combinations};
pub use store_orders::{Action, Combination, Event, StoreOrders, row_count, rows_at, with_orders};
pub use thread_runs::is_same;

/// The greatest number of candidates that a test may have.
pub const MAX_CANDIDATES: usize = 16_384;
