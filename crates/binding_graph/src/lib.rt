//! The first fault of a model, and its items as steps: each item is read in one walk. Read
//! specs/Resolved.antt first, and specs/Readings.antt for what one walk finds.
#![tactic(auto)]

mod bodies;
mod declare;
mod fault;
mod function;
mod inside;
mod items;
mod lower;
mod reach;
mod reading;
mod resolved;
mod uses;
mod workspace;

pub use binding_kinds::{Input, Kind, ModelFault};
pub use declare::declare_own;
pub use fault::ResolveFault;
pub use function::read_function;
pub use items::resolve;
pub use reach::{inputs_of, used};
pub use resolved::{Blend, Body, CheckCode, Code, Resolved, ResolvedItem, Role, Source, Step};
