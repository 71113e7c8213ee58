//! What the names of an item stand for, in one candidate and in those behind it that have the same.

ghost use Rattle.std.specs.Prelude.{ℕ, ◌+◌, ◌^◌, ◌<◌, ◌≤◌, ◌↔◌};
ghost use Rattle.bit_rows.specs.Relation.{IsRelation, IsEvents};
ghost use Rattle.cat_machine.specs.Named.{InputEvents, InputPairs, EventsIn, PairsOutside};
ghost use Rattle.cat_machine.specs.Seen.{values_seen};

use binding_graph::Source;
use bit_relations::{EventSet, Rel};
use cat_machine::{Column, NamedColumn, column_of};

/// The columns of all names that an item can use.
#[derive(Clone, Copy)]
pub(crate) struct Spread<'a> {
    /// The predefined names.
    pub(crate) named: &'a [NamedColumn<'a>],
    /// The item's inputs.
    pub(crate) inputs: &'a [&'a Column],
}

impl<'a> Spread<'a> {
    /// The column of a name, if it is not one of a recursive group itself.
    fn column(&self, source: Source) -> Option<&'a Column>
        ensures events { (k n a : ℕ)
            → InputEvents result k n a
            ↔ EventsIn (values_seen self.now.named.now k n) self.now.inputs.now k source a }
        ensures pairs { (k n a b : ℕ)
            → InputPairs result k n a b
            ↔ PairsOutside (values_seen self.now.named.now k n) self.now.inputs.now k source a b }
    {
        match source {
            Source::Predefined(name) => column_of(self.named, name),
            Source::Input(index) => match self.inputs.get(index) {
                Some(column) => Some(*column),
                None => None,
            },
            Source::Own(_) => None,
        }
    }

    /// The set of a name in a candidate of so many events, and up to where the candidates behind it
    /// have the same.
    pub(crate) fn set(&self, source: Source, candidate: usize, count: usize) -> (EventSet, usize)
        requires few { count ≤ 128 }
        requires more { candidate + 1 < 2 ^ 64 }
        ensures after { candidate < result.1 }
        ensures value { (k : ℕ) → candidate ≤ k → k < result.1
            → IsEvents result.0 count (EventsIn (values_seen self.now.named.now k count)
            self.now.inputs.now k source) }
    {
        match self.column(source) {
            Some(column) => column.read_set(candidate, count),
            None => (EventSet::empty(count), usize::MAX),
        }
    }

    /// Makes `target` the relation of a name in a candidate of so many events, and answers up to
    /// where the candidates behind it have the same.
    pub(crate) fn write_relation(
        &self,
        source: Source,
        candidate: usize,
        count: usize,
        target: &mut Rel,
    ) -> usize
        requires few { count ≤ 128 }
        requires more { candidate + 1 < 2 ^ 64 }
        ensures after { candidate < result }
        ensures value { (k : ℕ) → candidate ≤ k → k < result
            → IsRelation target.new count (PairsOutside (values_seen self.now.named.now k count)
            self.now.inputs.now k source) }
    {
        match self.column(source) {
            Some(column) => column.read_relation(candidate, count, target),
            None => {
                target.clear(count);
                usize::MAX
            }
        }
    }
}
