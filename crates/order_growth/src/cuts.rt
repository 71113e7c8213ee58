//! What a check refuses in a candidate, it refuses in each candidate that has more pairs of
//! reads-from and of coherence. So an order of stores that it refuses alone need not be tried with
//! the orders of other locations, nor with what the loads read.
//!
//! Read specs/Growths first, then specs/CutLaws.

ghost use Rattle.order_growth.specs.CutLaws.{RefusalsAreKept};

/// What a check refuses in a candidate, it refuses in each that this lies within.
pub fn refusals_are_kept()
    ensures { RefusalsAreKept }
{}
