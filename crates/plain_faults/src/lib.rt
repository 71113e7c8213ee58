//! A plain evaluator of the faults of a model, by the definitions of `meaning`: small functions,
//! one for each of these. Read specs/Found first.
#![tactic(auto)]

pub mod application;
pub mod expression;
pub mod fault;
pub mod finding;
pub mod item;
pub mod kind;
pub mod model;
pub mod scope;
