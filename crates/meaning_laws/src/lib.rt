//! Laws of the definitions of `meaning`. Read in specs/:
//!
//! - Words, after `Outcome` of `meaning/specs`: the numbers that an execution ends with have 32
//!   bits, as those of the text have.
//! - CarriedLaws, after `Cat`: how things are numbered does not matter to a model.
//! - Inside, then RisingLaws: the bodies of a recursive group without faults grow, and so its least
//!   solution solves its equations.
#![tactic(auto)]

mod carried;
mod rising;
mod written;

ghost use Rattle.meaning_laws.specs.Words.{NumbersAreWords, LocationsHold};

pub use carried::numbers_do_not_matter;
pub use rising::{faultless_groups_are_solved, groups_grow};
pub use written::test_is_of_words;

/// Where a test writes numbers of 32 bits, its executions end with such numbers.
pub fn numbers_are_words()
    ensures { NumbersAreWords }
{}

/// Each location of a test holds some value where an execution ends.
pub fn locations_hold()
    ensures { LocationsHold }
{}
