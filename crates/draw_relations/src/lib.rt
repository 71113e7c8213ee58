//! The relations that the `show` and `unshow` items of a model name, with their values in the
//! candidates of a test. Read specs/Shown first (which they are, and what each stands for), then
//! specs/Values.
#![tactic(auto)]

mod names;
mod texts;
mod values;

pub use names::{ShownName, shown_names};
pub use texts::text_of;
pub use values::{ShownValues, shown_values};
