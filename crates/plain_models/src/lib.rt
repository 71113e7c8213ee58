//! A plain evaluator of a model without faults over one execution, by the definitions of `meaning`:
//! what its expressions mean, what the names of a group stand for, with `let rec` by rounds from
//! nothing, what its items bind, which checks are met and which flags are raised. Sets are lists of
//! events and relations lists of pairs, so nothing of it is fast. Read in specs/: Values, Scopes,
//! Groups, Items, then Answers.
#![tactic(auto)]

pub mod expression;
pub mod group;
pub mod item;
pub mod model;
pub mod scope;
pub mod value;
