//! The innermost name that relates two events.

ghost use Rattle.std.specs.Prelude.{◌↔◌, IfOk, IfSome, IsTrue, MatchOption, ◌≡◌, option_map};
ghost use Rattle.why_labels.specs.Labels.{IsFirstOf, IsInnermost, NoneOf, Relates, RelatesAs, bound_value};
ghost use Rattle.why_labels.specs.Operands.{AreEarlier};

use crate::unions::{ModelName, operands_of};
use binding_graph::{Input, ResolvedItem};
use cat_eval::Column;
use std::alloc::{AllocError, Global};
use text_values::Predefined;
use why_witness::has_pair;

/// The values of a name of the language in each candidate.
#[derive(Drop)]
pub struct PredefinedValue {
    /// The name.
    pub name: Predefined,
    /// Its values.
    pub column: Column,
}

/// The values of the names of a model in each candidate.
#[derive(Clone, Copy)]
pub struct NameValues<'a> {
    /// For each item the values of the names that it binds, by their positions.
    pub bound: &'a [Vec<Column>],
    /// The values of names of the language.
    pub predefined: &'a [PredefinedValue],
}

/// Two events of a candidate, by their numbers.
#[derive(Clone, Copy)]
pub struct EventPair {
    /// The number of the candidate.
    pub candidate: usize,
    /// The event that a step leads from.
    pub from: usize,
    /// The event that it leads to.
    pub to: usize,
}

fn is_related(value: &PredefinedValue, name: Predefined, pair: EventPair) -> bool
    ensures { IsTrue result ↔ RelatesAs name pair value.now }
{
    value.name == name && has_pair(&value.column, pair.candidate, pair.from, pair.to)
}

impl NameValues<'_> {
    // The values of a bound name.
    fn bound_value(&self, input: Input) -> Option<&Column>
        ensures { option_map (λ c. c.now) result ≡ bound_value self.now input }
    {
        match self.bound.get(input.item) {
            Some(columns) => columns.get(input.position),
            None => None,
        }
    }

    /// Whether a name relates two events in a candidate.
    pub fn relates(&self, name: ModelName, pair: EventPair) -> bool
        ensures { IsTrue result ↔ Relates self.now pair name }
    {
        match name {
            ModelName::Predefined(name) => {
                self.predefined
                    .iter()
                    .any(|value| is_related(value, name, pair))
            }
            ModelName::Bound(input) => match self.bound_value(input) {
                Some(column) => has_pair(column, pair.candidate, pair.from, pair.to),
                None => false,
            },
        }
    }

    // The first of the names that relates the events.
    fn first_related(&self, names: &[ModelName], pair: EventPair) -> Option<ModelName>
        ensures { MatchOption result (NoneOf (Relates self.now pair) names.now)
            (λ name. IsFirstOf (Relates self.now pair) names.now name) }
    {
        for index in 0..names.len() {
            if self.relates(names[index], pair) {
                return Some(names[index]);
            }
        }
        None
    }
}

/// Of the names of a union, which stand before an item, the innermost that relates the events.
/// Errors: want of memory.
pub fn innermost(
    alloc: Global,
    items: &[ResolvedItem],
    values: &NameValues<'_>,
    names: &[ModelName],
    item: usize,
    pair: EventPair,
) -> Result<Option<ModelName>, AllocError>
    requires { AreEarlier item names.now }
    ensures innermost { IfOk result (IsInnermost items.now (Relates values.now pair) names.now) }
    ensures related { IfOk result (λ found. IfSome found (Relates values.now pair)) }
{
    let Some(name) = values.first_related(names, pair) else {
        return Ok(None);
    };
    match name {
        ModelName::Predefined(_) => Ok(Some(name)),
        ModelName::Bound(input) => {
            let inside = operands_of(alloc, items, input)?;
            match innermost(alloc, items, values, &inside, input.item, pair)? {
                Some(inner) => Ok(Some(inner)),
                None => Ok(Some(name)),
            }
        }
    }
}
