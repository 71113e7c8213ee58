//! The answers of a flag.

use text_values::Name;

/// A flag: its name, and whether its check holds on each candidate.
#[derive(Clone, Copy)]
pub struct Raised<'a> {
    /// The name after `as`.
    pub name: &'a Name,
    /// For each candidate of the space, whether the check holds there.
    pub holds: &'a [bool],
}
