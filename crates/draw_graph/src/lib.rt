//! The graph of an execution, as data and as a text for `dot`. Read specs/Drawn first (which events
//! and which pairs of a relation are drawn), then specs/Texts (the bytes).
#![tactic(auto)]

mod drawing;
mod events;
mod relation;
mod text;

pub use drawing::{Cluster, Drawing, Edge, Edges, Ink};
pub use events::drawn_events;
pub use relation::edges;
pub use text::put_drawing;
