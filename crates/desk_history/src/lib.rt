//! A history of operations that only grows, the board that they make, a writer that publishes it
//! and viewers that read it without waiting. Read `specs/Histories` first, then `specs/Rules`.
#![tactic(auto)]

mod book;
mod operations;
mod plate;
mod press;
mod seats;
mod viewer;

pub use book::{Book, Front, Naming, Opened};
pub use operations::Operations;
pub use plate::{Entry, Plate};
pub use press::Press;
pub use seats::{OpenFault, Opening, SEATS, Seats, open};
pub use viewer::{View, Viewer};
