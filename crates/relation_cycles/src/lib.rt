//! Why a relation fails a check: a shortest cycle or path, an event related to itself, a pair.
//!
//! Paths are searched breadth first over rows of bits, from all events at once. Definitions:
//! specs/Cycles. Law: `laws`.
#![tactic(auto)]

ghost use Rattle.std.specs.Prelude.{◌≡◌, ℕ, ◌<◌, ◌≤◌, ◌+◌, length, IfOk, MatchOption};
ghost use Rattle.bit_rows.specs.Pairs.{Composite, Plus, IsAcyclic, IsEmpty, IsIrreflexive};
ghost use Rattle.bit_rows.specs.Relation.{Has, IsRegular, IsRelation};
ghost use Rattle.relation_cycles.specs.Cycles.{IsPathFrom, IsShortestPath, IsShortestCycle, IsShortestThrough, IsReachableIn, AreLevels, HasShortPaths, IsFirstReflexive, IsFirstUpTo, IsLeastPair};

pub mod laws;

use bit_relations::Rel;
use std::alloc::{AllocError, Global};

/// The least event that is related to itself: what `irreflexive` finds fault with.
pub fn first_reflexive(relation: &Rel) -> Option<usize>
    ensures { MatchOption result (IsIrreflexive (Has relation.now))
        (λ a. IsFirstReflexive (Has relation.now) a) }
{
    for event in 0..relation.count() {
        if relation.contains(event, event) {
            return Some(event);
        }
    }
    None
}

/// The least pair, by its first event and then by its second: what `empty` finds fault with.
pub fn least_pair(relation: &Rel) -> Option<(usize, usize)>
    ensures { MatchOption result (IsEmpty (Has relation.now))
        (λ pair. IsLeastPair (Has relation.now) pair.0 pair.1) }
{
    let count = relation.count();
    for from in 0..count {
        for to in 0..count {
            if relation.contains(from, to) {
                return Some((from, to));
            }
        }
    }
    None
}

/// The pairs with a path of at most one step more.
fn next_level(relation: &Rel, level: &Rel) -> Rel
    requires { level.now.count ≡ relation.now.count }
    ensures { (k : ℕ) → IsRelation level.now relation.now.count (IsReachableIn (Has relation.now) k)
        → IsRelation result relation.now.count (IsReachableIn (Has relation.now) (k + 1)) }
{
    let mut next = relation.compose(level);
    next.union_with(relation);
    next
}

/// For each number of steps, from 0 on, the pairs with a path of at most so many, until there are
/// no more.
fn levels_of(alloc: Global, relation: &Rel) -> Result<Vec<Rel>, AllocError>
    ensures levels { IfOk result (λ v. AreLevels (Has relation.now) relation.now.count v.items) }
    ensures some { IfOk result (λ v. 0 < length v.items) }
    ensures whole { IfOk result (λ v. (k : ℕ) → k + 1 ≡ length v.items
        → HasShortPaths (Has relation.now) k) }
{
    let mut level = Rel::empty(relation.count());
    let mut levels = Vec::new(alloc);
    levels.push(level)?;
    'growing: loop {
        let next = next_level(relation, &level);
        if next.is_same(&level) {
            return Ok(levels);
        }
        levels.push(next)?;
        level = next;
    }
}

/// The least event that one relation leads to from an event, and from which another leads to a
/// second event.
fn middle(left: &Rel, right: &Rel, from: usize, to: usize) -> usize
    requires from { from < left.now.count }
    requires to { to < left.now.count }
    requires count { right.now.count ≡ left.now.count }
    requires regular { IsRegular left.now }
    requires some { Composite (Has left.now) (Has right.now) from to }
    ensures left { Has left.now from result }
    ensures right { Has right.now result to }
    ensures least { (event : ℕ) → event < result → Has left.now from event → Has right.now event to
        → ⊥ }
{
    let mut event = 0;
    while !(left.contains(from, event) && right.contains(event, to)) {
        event += 1;
    }
    event
}

/// The events where the steps of a path begin, of at most so many steps: the first such path, event
/// by event.
fn path_within(
    alloc: Global,
    relation: &Rel,
    levels: &[Rel],
    from: usize,
    to: usize,
    steps: usize,
) -> Result<Vec<usize>, AllocError>
    requires regular { IsRegular relation.now }
    requires levels { AreLevels (Has relation.now) relation.now.count levels.now }
    requires steps { steps < length levels.now }
    requires some { IsReachableIn (Has relation.now) steps from to }
    requires inside { to < relation.now.count }
    ensures path { IfOk result (λ v. IsPathFrom (Has relation.now) from to v.items) }
    ensures short { IfOk result (λ v. length v.items ≤ steps) }
    ensures first { IfOk result (λ v. IsFirstUpTo (Has relation.now) from to steps v.items) }
{
    let mut path = Vec::new(alloc);
    path.push(from)?;
    let mut at = from;
    let mut left = steps;
    'tracing: while !relation.contains(at, to) {
        left -= 1;
        at = middle(relation, &levels[left], at, to);
        path.push(at)?;
    }
    Ok(path)
}

/// A shortest path from one event to another, as the events where its steps begin: the first of
/// them, event by event.
pub fn shortest_path(
    alloc: Global,
    relation: &Rel,
    from: usize,
    to: usize,
) -> Result<Option<Vec<usize>>, AllocError>
    requires from { from < relation.now.count }
    requires to { to < relation.now.count }
    ensures { IfOk result (λ found. MatchOption found (Plus (Has relation.now) from to → ⊥)
        (λ v. IsShortestPath (Has relation.now) from to v.items)) }
{
    let _regular = relation.count();
    let levels = levels_of(alloc, relation)?;
    for steps in 0..levels.len() {
        if levels[steps].contains(from, to) {
            let path = path_within(alloc, relation, &levels, from, to, steps)?;
            return Ok(Some(path));
        }
    }
    Ok(None)
}

/// A shortest cycle of those through an event, which it begins with: the first of them, event by
/// event.
pub fn cycle_through(
    alloc: Global,
    relation: &Rel,
    event: usize,
) -> Result<Option<Vec<usize>>, AllocError>
    requires { event < relation.now.count }
    ensures { IfOk result (λ found. MatchOption found (Plus (Has relation.now) event event → ⊥)
        (λ v. IsShortestThrough (Has relation.now) event v.items)) }
{
    let _regular = relation.count();
    let levels = levels_of(alloc, relation)?;
    for steps in 0..levels.len() {
        if levels[steps].contains(event, event) {
            let cycle = path_within(alloc, relation, &levels, event, event, steps)?;
            return Ok(Some(cycle));
        }
    }
    Ok(None)
}

/// A shortest cycle, the first of them, event by event: what `acyclic` finds fault with.
pub fn shortest_cycle(alloc: Global, relation: &Rel) -> Result<Option<Vec<usize>>, AllocError>
    ensures { IfOk result (λ found. MatchOption found (IsAcyclic (Has relation.now))
        (λ v. IsShortestCycle (Has relation.now) v.items)) }
{
    let _regular = relation.count();
    let levels = levels_of(alloc, relation)?;
    for steps in 0..levels.len() {
        if let Some(event) = first_reflexive(&levels[steps]) {
            let cycle = path_within(alloc, relation, &levels, event, event, steps)?;
            return Ok(Some(cycle));
        }
    }
    Ok(None)
}
