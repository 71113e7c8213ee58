//! What an item does whatever the kinds of the names that it uses, and what it does where these are
//! given. Read specs/Shapes: `role_shape` leaves the kinds out, and `role_with` puts them in.
#![tactic(auto)]

mod kinded;
mod same;

pub use kinded::role_with_kinds;
pub use same::same_shape;
