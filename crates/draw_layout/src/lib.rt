//! Where the boxes and lines of a drawing stand: a plain function of a picture, in whole numbers.
//! Read specs/Ends first (sides, ports and wires), then specs/Layout (columns, rows and lines).
//! Other crates cite `lay_out` and the laws of `laws`.
#![tactic(auto)]

mod arrow;
mod ends;
mod frame;
pub mod laws;
mod layout;
mod picture;
mod ports;

pub use arrow::{Arrow, Point};
pub use ends::{Course, End, Side};
pub use frame::{Frame, top_of};
pub use layout::{Layout, LayoutError, fits, lay_out};
pub use picture::{Ink, Label, Line, Picture, Position};
