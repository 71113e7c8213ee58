//! What the names of a model stand for, and the kinds and the faults of its expressions. Read
//! specs/Kinds first, then specs/Faults: `FirstFault` is the first fault of a model.
#![tactic(auto)]

mod column;
mod fault;
mod function;
mod judged;
mod judging;
mod kinds;
mod scope;
mod sight;
mod signature;

pub use column::{
    Gathered, applied_column, constant_column, identity_column, infix_column, no_arguments,
    parameter_column, postfix_column, signatures, with_argument,
};
pub use fault::ModelFault;
pub use function::{Function, MAX_SIZE, Piece, count_parts};
pub use judged::{
    Arguments, Judged, either, judged_complement, judged_faulty, judged_identity, judged_infix,
    judged_name, judged_postfix, judged_sign, or_else, unless,
};
pub use judging::{binding_fault, function_of, judge, one_parameter_fault, parameter_fault};
pub use kinds::{Kind, is_turned, takes, takes_body};
pub use scope::{Binder, Entry, Found, Input, Scope, Used, find};
pub use sight::{Meaning, Named, Sight};
pub use signature::{Signature, weight};
