//! Why a model forbids what a test asks for. Read specs/Checked first: the checks, and the first
//! that refuses a candidate. Laws: `laws`.
#![tactic(auto)]

mod answer;
mod boxes;
mod checks;
mod drawing;
mod evaluated;
mod labels;
pub mod laws;
mod lines;
mod telling;

pub use answer::{Asked, why};
pub use checks::{CheckValues, FirstRefusal, all_checks, first_refusal};
pub use draw_scene::Format;
pub use drawing::{DrawRequest, Wanted, draw};
pub use labels::predefined_values;
