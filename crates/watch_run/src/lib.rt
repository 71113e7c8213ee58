//! Watching: a desk of some models and tests, whose files are read again on demand. Only the items
//! and the parts that differ are edited, and only what the edits reach is computed again.
//! Read specs/Holding first: what a version of a file makes of what is held; then Lines, Runs and
//! Ends.
#![tactic(auto)]

mod answers;
mod author;
mod changes;
mod desk_author;
mod lines;
mod model_names;
mod settling;
mod start;
mod telling;
mod turnstile;
mod versions;
mod watched;

pub use start::{Ended, watch};
pub use telling::VersionTeller;
pub use versions::{FileVersions, Version, Versions};
