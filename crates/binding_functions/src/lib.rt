//! What is kept of a function of a model, so that its body is never gone through again: the first
//! fault of the body, the parameters under a complement, the kinds that it makes, and the body with
//! the functions that it applies put in. Read specs/Templates.antt first, and specs/Parts.antt;
//! proofs/Applied, proofs/Filling and proofs/Parts are cited above.
#![tactic(auto)]

mod kept;
mod part;
mod template;

pub use kept::{ReadBody, function_of};
pub use part::{BodyArguments, BodyPart, Columns};
pub use template::Template;
