//! A law of shortest cycles.

ghost use Rattle.bit_rows.specs.Relation.{Relation, Has};
ghost use Rattle.relation_cycles.specs.Cycles.{HasOneShortestCycle};

/// A relation has at most one cycle that is the first of the shortest ones.
pub fn shortest_cycle_is_one()
    ensures { (r : Relation) → HasOneShortestCycle (Has r) }
{}
