//! What the names of an item stand for in one candidate.

ghost use Rattle.std.specs.Prelude.{◌≡◌, ◌≤◌};
ghost use Rattle.bit_rows.specs.Relation.{IsRelation, IsEvents};
ghost use Rattle.cat_machine.specs.Named.{EventsNamed, PairsNamed, OwnPairs};

use crate::column::Column;
use crate::seen::Seen;
use binding_graph::Source;
use bit_relations::{EventSet, Rel};

/// The values of all names that an item can use, in one candidate.
#[derive(Clone, Copy)]
pub struct Names<'a> {
    /// The predefined names of the candidate.
    pub base: &'a Seen<'a>,
    /// The values of the item's inputs in all candidates.
    pub inputs: &'a [&'a Column],
    /// The present values of the names of its own recursive group.
    pub own: &'a [Rel],
    /// The number of the candidate.
    pub candidate: usize,
}

impl Names<'_> {
    /// How many events the candidate has.
    pub fn count(&self) -> usize
        ensures value { result ≡ self.now.base.now.count }
        ensures few { result ≤ 128 }
    {
        self.base.count()
    }

    /// The set that a name stands for: empty where it stands for none.
    pub fn set(&self, source: Source) -> EventSet
        ensures { IsEvents result self.now.base.now.count (EventsNamed self.now source) }
    {
        match source {
            Source::Predefined(name) => self.base.set(name),
            Source::Input(index) => match self.inputs.get(index) {
                Some(column) => column.set(self.candidate, self.count()),
                None => EventSet::empty(self.count()),
            },
            Source::Own(_) => EventSet::empty(self.count()),
        }
    }

    /// Writes the relation that a name stands for to `target`: the empty one where it stands for
    /// none.
    pub fn write_relation(&self, source: Source, target: &mut Rel)
        ensures { IsRelation target.new self.now.base.now.count (PairsNamed self.now source) }
    {
        match source {
            Source::Predefined(name) => self.base.write_relation(name, target),
            Source::Input(input) => match self.inputs.get(input) {
                Some(column) => column.write_relation(self.candidate, self.count(), target),
                None => target.clear(self.count()),
            },
            Source::Own(position) => self.write_own(position, target),
        }
    }

    /// Writes the present value of a name of the recursive group itself.
    fn write_own(&self, position: usize, target: &mut Rel)
        ensures { IsRelation target.new self.now.base.now.count
            (OwnPairs self.now.base.now.count self.now.own.now position) }
    {
        match self.own.get(position) {
            Some(value) if value.count() == self.count() => target.copy_from(value),
            _ => target.clear(self.count()),
        }
    }
}
