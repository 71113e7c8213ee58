//! Why a check refuses a candidate.

ghost use Rattle.std.specs.Prelude.{◌≡◌, ◌<◌, IfOk, MatchOption, length};
ghost use Rattle.bit_rows.specs.Relation.{Has, IsMember};
ghost use Rattle.cat_machine.specs.Checks.{Holds, IsEmptySet};
ghost use Rattle.cat_machine.specs.Values.{column_len};
ghost use Rattle.why_witness.specs.Refusals.{IsWitness};
ghost use Rattle.why_witness.specs.Witnesses.{Breaks, BreaksSet, IsExplanation};
ghost use Rattle.relation_columns.specs.Runs.{rel_at, set_at};

use binding_graph::CheckCode;
use bit_relations::{EventSet, Rel};
use cat_eval::Column;
use relation_columns::{Cursor, RunColumn, SetRuns};
use relation_cycles::{first_reflexive, least_pair, shortest_cycle};
use std::alloc::{AllocError, Global};
use text_values::CheckWord;

/// Why a check refuses a candidate. Events go by their numbers.
#[derive(Debug, Drop, PartialEq)]
pub enum Witness {
    /// A shortest cycle of the relation: each event is related to the next, and the last to the
    /// first.
    Cycle(Vec<usize>),
    /// The least event that is related to itself.
    Reflexive(usize),
    /// The least pair of the relation, by its first event and then by its second.
    Pair(usize, usize),
    /// The least event of the set.
    Member(usize),
    /// What a negated check asks for holds.
    Met,
}

// What shows that a relation does not meet the word.
fn relation_witness(
    alloc: Global,
    word: CheckWord,
    relation: &Rel,
) -> Result<Option<Witness>, AllocError>
    ensures { IfOk result (λ found.
        MatchOption found (Holds word (Has relation.now)) (Breaks word (Has relation.now))) }
{
    match word {
        CheckWord::Acyclic => match shortest_cycle(alloc, relation)? {
            Some(events) => Ok(Some(Witness::Cycle(events))),
            None => Ok(None),
        },
        CheckWord::Irreflexive => match first_reflexive(relation) {
            Some(event) => Ok(Some(Witness::Reflexive(event))),
            None => Ok(None),
        },
        CheckWord::Empty => match least_pair(relation) {
            Some((from, to)) => Ok(Some(Witness::Pair(from, to))),
            None => Ok(None),
        },
    }
}

// What shows that a set is not empty.
fn set_witness(set: &EventSet) -> Option<Witness>
    ensures { MatchOption result (IsEmptySet (IsMember set.now)) (BreaksSet (IsMember set.now)) }
{
    for event in 0..set.count() {
        if set.contains(event) {
            return Some(Witness::Member(event));
        }
    }
    None
}

// Why a check that a set is empty refuses it.
fn set_refusal(negated: bool, set: &EventSet) -> Option<Witness>
    ensures { IsExplanation negated (IsEmptySet (IsMember set.now)) (BreaksSet (IsMember set.now))
        result }
{
    if !negated {
        return set_witness(set);
    }
    if set.is_empty() {
        Some(Witness::Met)
    } else {
        None
    }
}

// Why a check of a relation refuses it.
fn relation_refusal(
    alloc: Global,
    negated: bool,
    word: CheckWord,
    relation: &Rel,
) -> Result<Option<Witness>, AllocError>
    ensures { IfOk result (IsExplanation negated (Holds word (Has relation.now))
        (Breaks word (Has relation.now))) }
{
    let found = relation_witness(alloc, word, relation)?;
    if !negated {
        return Ok(found);
    }
    match found {
        Some(_) => Ok(None),
        None => Ok(Some(Witness::Met)),
    }
}

fn pair_relation(values: &RunColumn, candidate: usize) -> Rel
    requires { candidate < length values.now }
    ensures { result ≡ rel_at values.now candidate }
{
    let mut relation = Rel::empty(0);
    values.read(&mut Cursor::new(), candidate, &mut relation);
    relation
}

fn member_set(values: &SetRuns, candidate: usize) -> EventSet
    requires { candidate < length values.now }
    ensures { result ≡ set_at values.now candidate }
{
    let (set, _) = values.read(&mut Cursor::new(), candidate);
    set
}

/// Why a check refuses the candidate of this number; none where it accepts it. `values` are the
/// values of the check's expression in all candidates. Errors: want of memory.
pub fn refusal_of(
    alloc: Global,
    check: &CheckCode,
    values: &Column,
    candidate: usize,
) -> Result<Option<Witness>, AllocError>
    requires { candidate < column_len values.now }
    ensures { IfOk result (IsWitness check.now values.now candidate) }
{
    match values {
        Column::Sets(sets) => Ok(set_refusal(check.negated, &member_set(sets, candidate))),
        Column::Relations(relations) => {
            let relation = pair_relation(relations, candidate);
            relation_refusal(alloc, check.negated, check.word, &relation)
        }
    }
}
