//! The predefined names that an item uses, as they are in one candidate.

ghost use Rattle.std.specs.Prelude.{◌≡◌, ℕ, ◌≤◌, ◌↔◌, [], map};
ghost use Rattle.bit_rows.specs.Relation.{IsRelation, IsEvents};
ghost use Rattle.cat_machine.specs.Named.{InputEvents, InputPairs};
ghost use Rattle.cat_machine.specs.Seen.{EventsNamedBy, PairsNamedBy, EventsAmong, PairsAmong, values_seen, value_at};

use crate::column::Column;
use crate::few::Few;
use bit_relations::{EventSet, Rel};
use std::alloc::Global;
use std::marker::Model;
use text_values::Predefined;

/// A predefined name, and what it stands for in each candidate.
#[derive(Clone, Copy)]
pub struct NamedColumn<'a> {
    /// Which of the predefined names.
    pub name: Predefined,
    /// Its values over the candidates.
    pub column: &'a Column,
}

impl<'a> NamedColumn<'a> {
    /// No name. A column is given all the same, which no name is looked up in.
    pub fn none(alloc: Global, column: &'a Column) -> Few<NamedColumn<'a>>
        ensures { result ≡ [] }
    {
        Few::new(
            alloc,
            NamedColumn {
                name: Predefined::Loads,
                column,
            },
        )
    }
}

/// The predefined names that an item uses, as they are in one candidate. Contracts see the number
/// of its events, and what stands under the names.
#[derive(Drop)]
pub struct Seen<'a> {
    named: &'a [NamedColumn<'a>],
    /// The number of the candidate.
    candidate: usize,
    /// How many events it has.
    count: usize,
}

impl<'a> Model for Seen<'a> {
    ghost use Rattle.std.specs.Prelude.{◌≤◌};
    ghost use Rattle.cat_machine.specs.Seen.{NamedValues, values_seen};

    ghost Value = { NamedValues };

    ghost view = { λ s. values_seen s.named.now s.candidate s.count };

    ghost invariant = { λ s. s.count ≤ 128 };
}

/// The column of a name, if it is one of these.
pub fn column_of<'c>(named: &[NamedColumn<'c>], name: Predefined) -> Option<&'c Column>
    ensures events { (k n a : ℕ)
        → InputEvents result k n a ↔ EventsAmong (map (value_at k) named.now) name n a }
    ensures pairs { (k n a b : ℕ)
        → InputPairs result k n a b ↔ PairsAmong (map (value_at k) named.now) name n a b }
{
    for one in named {
        if one.name == name {
            return Some(one.column);
        }
    }
    None
}

impl<'a> Seen<'a> {
    /// The names in a candidate of so many events.
    pub fn new(named: &'a [NamedColumn<'a>], candidate: usize, count: usize) -> Seen<'a>
        requires { count ≤ 128 }
        ensures { result ≡ values_seen named.now candidate count }
    {
        Seen {
            named,
            candidate,
            count,
        }
    }

    /// How many events the candidate has.
    pub fn count(&self) -> usize
        ensures value { result ≡ self.now.count }
        ensures few { result ≤ 128 }
    {
        self.count
    }

    /// The set of a name: empty where it stands for none.
    pub fn set(&self, name: Predefined) -> EventSet
        ensures { IsEvents result self.now.count (EventsNamedBy self.now name) }
    {
        match column_of(self.named, name) {
            Some(column) => column.set(self.candidate, self.count),
            None => EventSet::empty(self.count),
        }
    }

    /// Makes `target` the relation of a name: empty where it stands for none.
    pub fn write_relation(&self, name: Predefined, target: &mut Rel)
        ensures { IsRelation target.new self.now.count (PairsNamedBy self.now name) }
    {
        match column_of(self.named, name) {
            Some(column) => column.write_relation(self.candidate, self.count, target),
            None => target.clear(self.count),
        }
    }
}
