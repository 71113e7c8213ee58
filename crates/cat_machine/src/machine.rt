//! The evaluation of an expression, as steps over a stack of sets and a stack of relations.

ghost use Rattle.std.specs.Prelude.{◌≡◌, ◌≤◌, ◌<◌, ◌↔◌, List, [], ◌∷◌, length, reverse, false, IsTrue, OnOk};
ghost use Rattle.bit_rows.specs.Pairs.{Product, On};
ghost use Rattle.bit_rows.specs.Relation.{Relation, Events, Has, IsMember, IsEvents, IsRelation, IsSubset, room_of};
ghost use Rattle.binding_kinds.specs.declared.kinds.Kind.TheVariants as kinds;
ghost use Rattle.binding_graph.specs.Trees.{SetTree, RelTree};
ghost use Rattle.cat_machine.specs.Checks.{Holds, IsEmptySet};
ghost use Rattle.cat_machine.specs.Meaning.{BlendedSets, Others};
ghost use Rattle.cat_machine.specs.Named.{EventsNamed, PairsNamed};
ghost use Rattle.cat_machine.specs.Running.{Finds, BuildsTrees, AreSets, AreRels, sets_after, rels_after};

use crate::names::Names;
use crate::stack::Stack;
use binding_graph::{Blend, Kind, Step};
use bit_relations::{EventSet, Rel};
use std::alloc::{AllocError, Global};
use text_values::CheckWord;

/// The two stacks, whose memory serves one candidate after another.
#[derive(Drop)]
pub struct Machine {
    sets: Vec<EventSet>,
    relations: Stack,
}

/// Two sets as one. Sets of unlike counts are left alone: it is the first.
pub fn blend_sets(how: Blend, left: &EventSet, right: &EventSet) -> EventSet
    ensures { right.now.count ≡ left.now.count
        → IsEvents result left.now.count
        (BlendedSets how (IsMember left.now) (IsMember right.now)) }
{
    if left.count() != right.count() {
        return *left;
    }
    match how {
        Blend::Union => left.union(right),
        Blend::Intersection => left.inter(right),
        Blend::Difference => left.minus(right),
    }
}

impl Machine {
    /// A machine without a value.
    pub fn new(alloc: Global) -> Machine {
        Machine {
            sets: Vec::new(alloc),
            relations: Stack::new(alloc),
        }
    }

    /// Joins the uppermost relation into a value, and says whether that is a change.
    pub fn grow(&mut self, own: &mut Rel) -> bool
        ensures grown { IsTrue result → room_of own.new < room_of own.old }
        ensures kept { result ≡ false → own.new ≡ own.old }
        ensures value { (v : Relation) (rest : List Relation) → self.old.relations ≡ v ∷ rest
            → v.count ≡ own.old.count → IsSubset own.old v → own.new ≡ v }
    {
        self.relations.grow(own)
    }

    /// Takes all steps of an expression, from empty stacks.
    pub fn run(&mut self, steps: &[Step], names: &Names) -> Result<(), AllocError>
        ensures { OnOk result ((ss : List SetTree) (es : List RelTree)
            → BuildsTrees steps.now [] [] ss es
            → AreSets names.now.base.now.count (EventsNamed names.now) ss
            (reverse self.new.sets.items)
            × AreRels names.now.base.now.count (EventsNamed names.now)
            (PairsNamed names.now) es self.new.relations) }
    {
        self.sets.clear();
        self.relations.clear();
        for step in steps {
            self.take(*step, names)?;
        }
        Ok(())
    }

    /// The uppermost set: the empty one where there is none.
    pub fn set(&self, count: usize) -> EventSet
        requires { count ≤ 128 }
        ensures { (s : Events) (rest : List Events) → reverse self.now.sets.items ≡ s ∷ rest
            → result ≡ s }
    {
        match self.sets.last() {
            Some(value) => *value,
            None => EventSet::empty(count),
        }
    }

    /// The uppermost relation.
    pub fn relation(&self) -> &Rel
        ensures { (r : Relation) (rest : List Relation) → self.now.relations ≡ r ∷ rest
            → result.now ≡ r }
    {
        self.relations.top()
    }

    /// Whether the uppermost value, of a kind, is as the word asks, which changes it.
    pub fn is_as_asked(&mut self, kind: Kind, word: CheckWord, count: usize) -> bool
        requires { count ≤ 128 }
        ensures set { (s : Events) (rest : List Events) → kind ≡ kinds.OfSet
            → reverse self.old.sets.items ≡ s ∷ rest → IsTrue result ↔ IsEmptySet (IsMember s) }
        ensures relation { (r : Relation) (rest : List Relation) → (kind ≡ kinds.OfSet → ⊥)
            → self.old.relations ≡ r ∷ rest → IsTrue result ↔ Holds word (Has r) }
    {
        match kind {
            Kind::OfSet => self.set(count).is_empty(),
            Kind::OfRelation | Kind::OfAny => self.relations.is_as_asked(word),
        }
    }

    fn push_set(&mut self, value: EventSet) -> Result<(), AllocError>
        ensures sets { OnOk result (reverse self.new.sets.items
            ≡ value ∷ reverse self.old.sets.items) }
        ensures relations { self.new.relations ≡ self.old.relations }
    {
        self.sets.push(value)?;
        Ok(())
    }

    fn pop_set(&mut self, count: usize) -> EventSet
        requires { count ≤ 128 }
        ensures sets { (s : Events) (rest : List Events) → reverse self.old.sets.items ≡ s ∷ rest
            → (result ≡ s) × (reverse self.new.sets.items ≡ rest) }
        ensures relations { self.new.relations ≡ self.old.relations }
    {
        match self.sets.pop() {
            Some(value) => value,
            None => EventSet::empty(count),
        }
    }

    /// Makes one set of the upper two.
    fn blend_sets(&mut self, how: Blend, count: usize) -> Result<(), AllocError>
        requires { count ≤ 128 }
        ensures sets { OnOk result ((t s : Events) (rest : List Events)
            → reverse self.old.sets.items ≡ t ∷ s ∷ rest → t.count ≡ s.count
            → (v : Events) × (reverse self.new.sets.items ≡ v ∷ rest)
            × IsEvents v s.count (BlendedSets how (IsMember s) (IsMember t))) }
        ensures relations { self.new.relations ≡ self.old.relations }
    {
        let right = self.pop_set(count);
        let left = self.pop_set(count);
        self.push_set(blend_sets(how, &left, &right))?;
        Ok(())
    }

    /// Makes the complement of the uppermost set.
    fn turn_set(&mut self, count: usize) -> Result<(), AllocError>
        requires { count ≤ 128 }
        ensures sets { OnOk result ((s : Events) (rest : List Events)
            → reverse self.old.sets.items ≡ s ∷ rest
            → (v : Events) × (reverse self.new.sets.items ≡ v ∷ rest)
            × IsEvents v s.count (Others s.count (IsMember s))) }
        ensures relations { self.new.relations ≡ self.old.relations }
    {
        let inner = self.pop_set(count);
        self.push_set(inner.complement())?;
        Ok(())
    }

    /// Makes a product of the upper two sets.
    fn multiply(&mut self, count: usize) -> Result<(), AllocError>
        requires { count ≤ 128 }
        ensures { OnOk result ((t s : Events) (rest : List Events)
            → reverse self.old.sets.items ≡ t ∷ s ∷ rest → t.count ≡ s.count
            → (reverse self.new.sets.items ≡ rest) × (v : Relation)
            × (self.new.relations ≡ v ∷ self.old.relations)
            × IsRelation v s.count (Product (IsMember s) (IsMember t))) }
    {
        let right = self.pop_set(count);
        let left = self.pop_set(count);
        self.relations.push_product(&left, &right)?;
        Ok(())
    }

    /// Makes the identity on the uppermost set.
    fn restrict(&mut self, count: usize) -> Result<(), AllocError>
        requires { count ≤ 128 }
        ensures { OnOk result ((s : Events) (rest : List Events)
            → reverse self.old.sets.items ≡ s ∷ rest
            → (reverse self.new.sets.items ≡ rest) × (v : Relation)
            × (self.new.relations ≡ v ∷ self.old.relations)
            × IsRelation v s.count (On (IsMember s))) }
    {
        let members = self.pop_set(count);
        self.relations.push_identity_on(&members)?;
        Ok(())
    }

    /// Takes one step.
    fn take(&mut self, step: Step, names: &Names) -> Result<(), AllocError>
        ensures { OnOk result ((ss : List SetTree) (es : List RelTree)
            → Finds step (length ss) (length es)
            → AreSets names.now.base.now.count (EventsNamed names.now) ss
            (reverse self.old.sets.items)
            → AreRels names.now.base.now.count (EventsNamed names.now) (PairsNamed names.now) es
            self.old.relations
            → AreSets names.now.base.now.count (EventsNamed names.now) (sets_after step ss)
            (reverse self.new.sets.items)
            × AreRels names.now.base.now.count (EventsNamed names.now)
            (PairsNamed names.now) (rels_after step ss es) self.new.relations) }
    {
        let count = names.count();
        match step {
            Step::PushSet(source) => self.push_set(names.set(source)),
            Step::PushEverything => self.push_set(EventSet::all(count)),
            Step::PushNoEvents => self.push_set(EventSet::empty(count)),
            Step::BlendSets(how) => self.blend_sets(how, count),
            Step::ComplementSet => self.turn_set(count),
            Step::PushRelation(source) => self.relations.push(source, names),
            Step::PushNoPairs => self.relations.push_no_pairs(count),
            Step::BlendRelations(how) => {
                self.relations.blend(how);
                Ok(())
            }
            Step::SequenceRelations => {
                self.relations.compose();
                Ok(())
            }
            Step::ProductOfSets => self.multiply(count),
            Step::IdentityOn => self.restrict(count),
            Step::Close(how) => {
                self.relations.close(how);
                Ok(())
            }
            Step::ComplementRelation => {
                self.relations.turn();
                Ok(())
            }
        }
    }
}
