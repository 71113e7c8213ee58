//! A source of lines that names files: those whose names an input has, at once, and those that
//! changed, as their times and sizes tell. `PolledSource` is a source for `watch`, which reads a
//! file again whose path a line has. No contract says that a change is noticed; `PolledFile` says
//! when a file is due.
#![tactic(auto)]

mod file;
mod inbox;
mod source;

pub use source::PolledSource;
