//! The picture of an execution's drawing, and its bytes. Read specs/Lines first (which lines there
//! are), then specs/Scene (the boxes) and specs/Drawn (the bytes). Other crates cite
//! `put_unless_skipped`, and `texts_on` of proofs/Texts; `laws` says what each line is.
#![tactic(auto)]

mod boxes;
mod drawn;
pub mod laws;
mod lines;
mod links;
mod places;

pub use drawn::{Format, put_unless_skipped};
pub use lines::picture_of;
pub use links::Link;
