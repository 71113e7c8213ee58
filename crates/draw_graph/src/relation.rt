//! The pairs of a relation that are drawn.

ghost use Rattle.std.specs.Prelude.{◌≡◌, ◌↔◌, IfOk, IsTrue};
ghost use Rattle.bit_rows.specs.Relation.{Has, IsMember, IsRelation};
ghost use Rattle.draw_graph.specs.Drawn.{AreEdges, Drawn, DrawnAmong, IsStrictOrder, IsTransitive};

use crate::drawing::Edge;
use bit_relations::{EventSet, Rel};
use std::alloc::{AllocError, Global};

#[inline(never)]
fn is_transitive(relation: &Rel) -> bool
    ensures { IsTrue result ↔ IsTransitive (Has relation.now) }
{
    let composed = relation.compose(relation);
    let outside = composed.minus(relation);
    outside.is_empty()
}

fn is_order(relation: &Rel) -> bool
    ensures { IsTrue result ↔ IsStrictOrder (Has relation.now) }
{
    relation.is_irreflexive() && is_transitive(relation)
}

// The pairs that are drawn.
#[inline(never)]
fn drawn(relation: &Rel) -> Rel
    ensures { IsRelation result relation.now.count (Drawn (Has relation.now)) }
{
    let _regular = relation.count();
    let composed = relation.compose(relation);
    let between = relation.minus(&composed);
    let ordered = is_order(relation);
    if ordered { between } else { *relation }
}

// All pairs, in rising order.
#[inline(never)]
fn pairs(alloc: Global, relation: &Rel) -> Result<Vec<Edge>, AllocError>
    ensures { IfOk result (λ v. AreEdges (Has relation.now) v.items) }
{
    let count = relation.count();
    let mut pairs = Vec::new(alloc);
    for from in 0..count {
        for to in 0..count {
            if relation.contains(from, to) {
                pairs.push((from, to))?;
            }
        }
    }
    Ok(pairs)
}

/// Of the pairs of a relation between events of a set, those that are drawn, in rising order.
/// Errors: want of memory.
pub fn edges(alloc: Global, relation: &Rel, events: &EventSet) -> Result<Vec<Edge>, AllocError>
    requires { events.now.count ≡ relation.now.count }
    ensures { IfOk result (λ v.
        AreEdges (DrawnAmong (IsMember events.now) (Has relation.now)) v.items) }
{
    let among = relation.restrict(events);
    let drawn = drawn(&among);
    pairs(alloc, &drawn)
}
