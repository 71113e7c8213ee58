//! The command line: what its words ask for, why a run stops before its end, and the exit statuses.
//! Read specs/Options, Words and Forms first, then Statuses.
#![tactic(auto)]

mod fault;
mod form;
mod option;
mod status;
mod words;

pub use command_usage::UsageFault;
pub use fault::SessionFault;
pub use form::{Drawn, Form, Pictures, ResultFormat, form_of};
pub use status::{RunEnd, exit_status};
