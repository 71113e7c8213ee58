//! Walks through relations in turn.

ghost use Rattle.std.specs.Prelude.{◌≡◌, ◌↔◌, ◌<◌, ◌≤◌, IfOk, IfSome, IsTrue, MatchOption, None, length};
ghost use Rattle.bit_rows.specs.Pairs.{Composite, Plus};
ghost use Rattle.bit_rows.specs.Relation.{Has, IsRelation};
ghost use Rattle.why_walks.specs.Walks.{AreLinksOn, AreRests, IsFirstRun, IsFirstWalk, IsLeastMiddle, IsNoWalk, IsOneStep, IsRunInto, IsWalk, LinkPairs, runs_of};
ghost use Rattle.relation_cycles.specs.Cycles.{IsShortestPath};

use crate::factor::Repeats;
use bit_relations::Rel;
use relation_cycles::shortest_path;
use std::alloc::{AllocError, Global};

/// A relation whose steps a walk takes.
#[derive(Drop)]
pub struct Link {
    /// How often.
    pub repeats: Repeats,
    /// The relation.
    pub relation: Rel,
}

fn is_pair(relation: &Rel, from: usize, to: usize) -> bool
    ensures { IsTrue result ↔ Has relation.now from to }
{
    from < relation.count() && to < relation.count() && relation.contains(from, to)
}

fn one_step(
    alloc: Global,
    relation: &Rel,
    from: usize,
    to: usize,
) -> Result<Option<Vec<usize>>, AllocError>
    ensures { IfOk result (λ found. MatchOption found (Has relation.now from to → ⊥)
        (λ v. IsOneStep (Has relation.now) from v.items to)) }
{
    if is_pair(relation, from, to) {
        Ok(Some(Vec::from_slice(alloc, &[from])?))
    } else {
        Ok(None)
    }
}

fn path(
    alloc: Global,
    relation: &Rel,
    from: usize,
    to: usize,
) -> Result<Option<Vec<usize>>, AllocError>
    ensures { IfOk result (λ found. MatchOption found (Plus (Has relation.now) from to → ⊥)
        (λ v. IsShortestPath (Has relation.now) from to v.items)) }
{
    if from < relation.count() && to < relation.count() {
        shortest_path(alloc, relation, from, to)
    } else {
        Ok(None)
    }
}

// The steps of a link from one event to another, with as few as there can be.
fn run_between(
    alloc: Global,
    link: &Link,
    from: usize,
    to: usize,
) -> Result<Option<Vec<usize>>, AllocError>
    ensures { IfOk result (λ found. MatchOption found (LinkPairs link.now from to → ⊥)
        (λ v. IsFirstRun link.now.repeats (Has link.now.relation) from v.items to)) }
{
    match link.repeats {
        Repeats::Once => one_step(alloc, &link.relation, from, to),
        Repeats::AtMostOnce => {
            if from == to {
                Ok(Some(Vec::new(alloc)))
            } else {
                one_step(alloc, &link.relation, from, to)
            }
        }
        Repeats::OnceOrMore => path(alloc, &link.relation, from, to),
        Repeats::AnyNumber => {
            if from == to {
                Ok(Some(Vec::new(alloc)))
            } else {
                path(alloc, &link.relation, from, to)
            }
        }
    }
}

// The pairs that the steps of a link lead from and to.
fn whole(link: &Link) -> Rel
    ensures { IsRelation result link.now.relation.count (LinkPairs link.now) }
{
    let _regular = link.relation.count();
    match link.repeats {
        Repeats::Once => link.relation,
        Repeats::AtMostOnce => link.relation.opt(),
        Repeats::OnceOrMore => link.relation.plus(),
        Repeats::AnyNumber => link.relation.star(),
    }
}

fn then(left: &Rel, right: &Rel) -> Rel
    ensures { right.now.count ≡ left.now.count
        → IsRelation result left.now.count (Composite (Has left.now) (Has right.now)) }
{
    if left.count() == right.count() {
        left.compose(right)
    } else {
        Rel::empty(left.count())
    }
}

// For each link the pairs that those behind it lead from and to, the last link first.
fn rests(alloc: Global, links: &[Link], count: usize) -> Result<Vec<Rel>, AllocError>
    requires { count ≤ 128 }
    ensures length { IfOk result (λ v. length v.items ≡ length links.now) }
    ensures rests { AreLinksOn count links.now
        → IfOk result (λ v. AreRests count links.now v.items) }
{
    let mut rests = Vec::new(alloc);
    let mut rest = Rel::identity(count);
    let mut left = links.len();
    'back: while left > 0 {
        left -= 1;
        rests.push(rest)?;
        rest = then(&whole(&links[left]), &rest);
    }
    Ok(rests)
}

// The least event that a relation leads to and from which the other leads on.
fn least_middle(left: &Rel, right: &Rel, from: usize, to: usize) -> Option<usize>
    ensures { MatchOption result (Composite (Has left.now) (Has right.now) from to → ⊥)
        (IsLeastMiddle (Has left.now) (Has right.now) from to) }
{
    for event in 0..left.count() {
        if is_pair(left, from, event) && is_pair(right, event, to) {
            return Some(event);
        }
    }
    None
}

// Steps of a link to the least event from which the rest leads on, and that event.
fn run_into(
    alloc: Global,
    link: &Link,
    rest: &Rel,
    from: usize,
    to: usize,
) -> Result<Option<(Vec<usize>, usize)>, AllocError>
    ensures { IfOk result (λ found. MatchOption found
        (Composite (LinkPairs link.now) (Has rest.now) from to → ⊥)
        (λ run. IsRunInto link.now rest.now from run.0.items run.1 to)) }
{
    let Some(next) = least_middle(&whole(link), rest, from, to) else {
        return Ok(None);
    };
    match run_between(alloc, link, from, next)? {
        Some(run) => Ok(Some((run, next))),
        None => Ok(None),
    }
}

/// A walk from one event to another, through steps of each link in turn: for each the events where
/// its steps begin. If the links are relations on so many events, and it begins at one of these,
/// there is one wherever there is a walk, and it is the first: each link in turn ends at the least
/// event from which the further links lead on, by the first of its shortest runs of steps. Errors:
/// want of memory.
pub fn walk(
    alloc: Global,
    links: &[Link],
    count: usize,
    from: usize,
    to: usize,
) -> Result<Option<Vec<Vec<usize>>>, AllocError>
    requires { count ≤ 128 }
    ensures walk { IfOk result (λ found.
        IfSome found (λ v. IsWalk links.now from (runs_of v.items) to)) }
    ensures first { AreLinksOn count links.now → from < count → IfOk result (λ found.
        IfSome found (λ v. IsFirstWalk links.now from (runs_of v.items) to)) }
    ensures none { AreLinksOn count links.now → from < count
        → IfOk result (λ found. found ≡ None → IsNoWalk links.now from to) }
{
    let rests = rests(alloc, links, count)?;
    let mut runs = Vec::new(alloc);
    let mut at = from;
    for index in 0..links.len() {
        let rest = &rests[links.len() - 1 - index];
        let Some((run, next)) = run_into(alloc, &links[index], rest, at, to)? else {
            return Ok(None);
        };
        runs.push(run)?;
        at = next;
    }
    if at == to { Ok(Some(runs)) } else { Ok(None) }
}
