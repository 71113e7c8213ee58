//! Laws of the layout of texts: comments nest. Read specs/Comments.antt first; `laws` has the
//! statements.
#![tactic(auto)]

pub mod laws;
