//! The parts of the bench after an edit of its texts, and the laws of what the bench gives then.
//!
//! - What an edit needs is made beside the parts, and then put in place under the number of the
//!   edit without memory. Read `specs/Readings` first, then `specs/Edited`; `laws` has the
//!   statements.
//! - Where the nodes under a verdict are solved, its outcome is that of evaluating the test under
//!   the model from nothing: `specs/Solved`, `node_laws`. So it is where the core says that the
//!   verdict of a cell is settled: `specs/Settled`, `cell_laws`.
//! - A bench whose state is built of its tests and models: which nodes it uses, that its cells are
//!   those of the texts, and that an edit which leaves a cell's slice as it was touches nothing
//!   that the cell stands on. Read `specs/Kept`, `specs/BenchCells`, `specs/Left` and
//!   `specs/Slices` in this order, after bench_slices' `specs/Slices`; `bench_laws` has the
//!   statements.
#![tactic(auto)]

pub mod bench_laws;
pub mod cell_laws;
mod commit;
mod edited;
mod gone;
mod item_texts;
pub mod laws;
mod models;
pub mod node_laws;
mod prepare;
mod slots;
mod tests;
mod texts;
mod touched;

pub use commit::commit_parts;
pub use edited::{EditedParts, ModelParts};
pub use gone::may_drop;
pub use prepare::prepare_parts;
pub use touched::touched_nodes;
