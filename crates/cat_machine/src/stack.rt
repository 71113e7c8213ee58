//! A stack of relations whose memory is used again.

ghost use Rattle.std.specs.Prelude.{◌≡◌, ◌<◌, ◌≤◌, ◌-◌, ◌↔◌, List, [], ◌∷◌, ◌++◌, length, take, slice_index_or, slice_set, false, IsTrue, OnOk, OnErr};
ghost use Rattle.bit_rows.specs.Pairs.{Composite, Complement, Product, On};
ghost use Rattle.bit_rows.specs.Relation.{Relation, Has, IsMember, IsRelation, IsSubset, no_slot, room_of};
ghost use Rattle.cat_machine.specs.Checks.{Holds};
ghost use Rattle.cat_machine.specs.Meaning.{Blended, Closed};
ghost use Rattle.cat_machine.specs.Named.{PairsNamed};

use crate::names::Names;
use binding_graph::{Blend, Source};
use bit_relations::{EventSet, Rel};
use std::alloc::{AllocError, Global};
use std::marker::Model;
use text_values::{CheckWord, Postfix};

// Room is made for so many slots at once: few items need more.
const FIRST_SLOTS: usize = 8;

/// Relations one above the other: contracts see them as a list, the uppermost first. A slot
/// that was used once is kept, so that the next evaluation takes no memory.
#[derive(Drop)]
pub(crate) struct Stack {
    slots: Vec<Rel>,
    /// How many of the slots are in use.
    live: usize,
    /// Where a result is made that no slot can hold while it is made.
    spare: Rel,
}

impl Model for Stack {
    ghost use Rattle.std.specs.Prelude.{◌≤◌, List, length, take, reverse};
    ghost use Rattle.bit_rows.specs.Relation.{Relation};

    ghost Value = { List Relation };

    ghost view = { λ s. reverse (take s.live s.slots.items) };

    ghost invariant = { λ s. s.live ≤ length s.slots.items };
}

impl Stack {
    /// A stack without a relation.
    pub fn new(alloc: Global) -> Stack
        ensures { result ≡ [] }
    {
        Stack {
            slots: Vec::new(alloc),
            live: 0,
            spare: Rel::empty(0),
        }
    }

    /// Takes all relations away.
    pub fn clear(&mut self)
        ensures { self.new ≡ [] }
    {
        self.live = 0;
    }

    /// Adds what a name stands for.
    pub fn push(&mut self, source: Source, names: &Names) -> Result<(), AllocError>
        ensures { OnOk result ((v : Relation) × (self.new ≡ v ∷ self.old)
            × IsRelation v names.now.base.now.count (PairsNamed names.now source)) }
    {
        open(&mut self.slots, self.live)?;
        names.write_relation(source, &mut self.slots[self.live]);
        self.live += 1;
        Ok(())
    }

    /// Adds the relation without pairs.
    pub(crate) fn push_no_pairs(&mut self, count: usize) -> Result<(), AllocError>
        requires { count ≤ 128 }
        ensures { OnOk result ((v : Relation) × (self.new ≡ v ∷ self.old)
            × IsRelation v count (λ a b. ⊥)) }
    {
        open(&mut self.slots, self.live)?;
        self.slots[self.live].clear(count);
        self.live += 1;
        Ok(())
    }

    /// Adds the pairs from one set to another, where both are of as many events.
    pub(crate) fn push_product(
        &mut self,
        left: &EventSet,
        right: &EventSet,
    ) -> Result<(), AllocError>
        ensures { OnOk result (right.now.count ≡ left.now.count
            → (v : Relation) × (self.new ≡ v ∷ self.old)
            × IsRelation v left.now.count
            (Product (IsMember left.now) (IsMember right.now))) }
    {
        if left.count() == right.count() {
            open(&mut self.slots, self.live)?;
            self.slots[self.live].set_product(left, right);
            self.live += 1;
        }
        Ok(())
    }

    /// Adds the members of a set, each with itself.
    pub(crate) fn push_identity_on(&mut self, members: &EventSet) -> Result<(), AllocError>
        ensures { OnOk result ((v : Relation) × (self.new ≡ v ∷ self.old)
            × IsRelation v members.now.count (On (IsMember members.now))) }
    {
        open(&mut self.slots, self.live)?;
        self.slots[self.live].set_on(members);
        self.live += 1;
        Ok(())
    }

    /// Makes one relation of the upper two.
    pub(crate) fn blend(&mut self, how: Blend)
        ensures { (s r : Relation) (rest : List Relation) → self.old ≡ s ∷ r ∷ rest
            → s.count ≡ r.count
            → (v : Relation) × (self.new ≡ v ∷ rest)
            × IsRelation v r.count (Blended how (Has r) (Has s)) }
    {
        if 2 <= self.live {
            blend_top(how, &mut self.slots, self.live);
            self.live -= 1;
        }
    }

    /// Makes one relation of the upper two: first the lower, then the upper.
    pub fn compose(&mut self)
        ensures { (s r : Relation) (rest : List Relation) → self.old ≡ s ∷ r ∷ rest
            → s.count ≡ r.count
            → (v : Relation) × (self.new ≡ v ∷ rest)
            × IsRelation v r.count (Composite (Has r) (Has s)) }
    {
        if 2 <= self.live {
            compose_top(&mut self.slots, self.live, &mut self.spare);
            self.live -= 1;
        }
    }

    /// Closes the uppermost relation.
    pub(crate) fn close(&mut self, how: Postfix)
        ensures { (r : Relation) (rest : List Relation) → self.old ≡ r ∷ rest
            → (v : Relation) × (self.new ≡ v ∷ rest)
            × IsRelation v r.count (Closed how r.count (Has r)) }
    {
        if 1 <= self.live {
            close_into(how, &mut self.slots[self.live - 1], &mut self.spare);
        }
    }

    /// Makes the complement of the uppermost relation.
    pub fn turn(&mut self)
        ensures { (r : Relation) (rest : List Relation) → self.old ≡ r ∷ rest
            → (v : Relation) × (self.new ≡ v ∷ rest)
            × IsRelation v r.count (Complement r.count (Has r)) }
    {
        if 1 <= self.live {
            self.slots[self.live - 1].turn();
        }
    }

    /// Whether the uppermost relation is as the word asks, which changes it.
    pub fn is_as_asked(&mut self, word: CheckWord) -> bool
        ensures { (r : Relation) (rest : List Relation) → self.old ≡ r ∷ rest
            → IsTrue result ↔ Holds word (Has r) }
    {
        if 1 <= self.live {
            is_as_asked(word, &mut self.slots[self.live - 1])
        } else {
            true
        }
    }

    /// Joins the uppermost relation into a value, and says whether that is a change.
    pub fn grow(&mut self, own: &mut Rel) -> bool
        ensures grown { IsTrue result → room_of own.new < room_of own.old }
        ensures kept { result ≡ false → own.new ≡ own.old }
        ensures value { (v : Relation) (rest : List Relation) → self.old ≡ v ∷ rest
            → v.count ≡ own.old.count → IsSubset own.old v → own.new ≡ v }
    {
        if 1 <= self.live {
            grow(own, &self.slots[self.live - 1], &mut self.spare)
        } else {
            false
        }
    }

    /// The uppermost relation: one without events where there is none.
    pub(crate) fn top(&self) -> &Rel
        ensures { (r : Relation) (rest : List Relation) → self.now ≡ r ∷ rest → result.now ≡ r }
    {
        if 1 <= self.live {
            &self.slots[self.live - 1]
        } else {
            &self.spare
        }
    }
}

/// Adds a slot.
fn add_slot(slots: &mut Vec<Rel>) -> Result<(), AllocError>
    ensures longer { OnOk result ((v : Relation) × (slots.new.items ≡ slots.old.items ++ v ∷ [])) }
    ensures kept { OnErr result (slots.new.items ≡ slots.old.items) }
{
    if slots.is_empty() {
        slots.reserve(FIRST_SLOTS)?;
    }
    slots.reserve(1)?;
    slots.push_reserved(Rel::empty(0));
    Ok(())
}

/// Makes room for one more relation in use.
fn open(slots: &mut Vec<Rel>, live: usize) -> Result<(), AllocError>
    requires { live ≤ length slots.old.items }
    ensures inside { live ≤ length slots.new.items }
    ensures room { OnOk result ((live < length slots.new.items)
        × (take live slots.new.items ≡ take live slots.old.items)) }
{
    if live == slots.len() {
        add_slot(slots)?;
    }
    Ok(())
}

/// Whether a relation is as the word asks, which changes it: it is acyclic where its closure
/// pairs no event with itself.
pub fn is_as_asked(word: CheckWord, relation: &mut Rel) -> bool
    ensures { IsTrue result ↔ Holds word (Has relation.old) }
{
    match word {
        CheckWord::Acyclic => {
            relation.close();
            relation.is_irreflexive()
        }
        CheckWord::Irreflexive => relation.is_irreflexive(),
        CheckWord::Empty => relation.is_empty(),
    }
}

/// Joins two relations into the first. Relations of unlike counts are left alone.
pub fn blend_into(how: Blend, left: &mut Rel, right: &Rel)
    ensures { right.now.count ≡ left.old.count
        → IsRelation left.new left.old.count (Blended how (Has left.old) (Has right.now)) }
{
    if left.count() != right.count() {
        return;
    }
    match how {
        Blend::Union => left.union_with(right),
        Blend::Intersection => left.inter_with(right),
        Blend::Difference => left.minus_with(right),
    }
}

/// Joins the upper two relations in use into the lower of them.
fn blend_top(how: Blend, slots: &mut [Rel], live: usize)
    requires two { 2 ≤ live }
    requires inside { live ≤ length slots.old }
    ensures { let left = slice_index_or slots.old (live - 2) no_slot in
        let right = slice_index_or slots.old (live - 1) no_slot in
        (v : Relation) × (slots.new ≡ slice_set slots.old (live - 2) v)
        × (right.count ≡ left.count
        → IsRelation v left.count (Blended how (Has left) (Has right))) }
{
    let (prefix, back) = slots.split_at_mut(live - 1);
    blend_into(how, &mut prefix[live - 2], &back[0]);
}

/// Makes the composition in the first. Relations of unlike counts are left alone.
fn compose_into(left: &mut Rel, right: &Rel, spare: &mut Rel)
    ensures { right.now.count ≡ left.old.count
        → IsRelation left.new left.old.count (Composite (Has left.old) (Has right.now)) }
{
    if left.count() != right.count() {
        return;
    }
    spare.set_composed(left, right);
    left.copy_from(spare);
}

/// Composes the upper two relations in use in the lower of them.
fn compose_top(slots: &mut [Rel], live: usize, spare: &mut Rel)
    requires two { 2 ≤ live }
    requires inside { live ≤ length slots.old }
    ensures { let left = slice_index_or slots.old (live - 2) no_slot in
        let right = slice_index_or slots.old (live - 1) no_slot in
        (v : Relation) × (slots.new ≡ slice_set slots.old (live - 2) v)
        × (right.count ≡ left.count → IsRelation v left.count (Composite (Has left) (Has right))) }
{
    let (prefix, back) = slots.split_at_mut(live - 1);
    compose_into(&mut prefix[live - 2], &back[0], spare);
}

/// Joins a value into the present one, and says whether that is a change. Relations of unlike
/// counts are left alone.
fn grow(own: &mut Rel, value: &Rel, spare: &mut Rel) -> bool
    ensures grown { IsTrue result → room_of own.new < room_of own.old }
    ensures kept { result ≡ false → own.new ≡ own.old }
    ensures value { value.now.count ≡ own.old.count → IsSubset own.old value.now
        → own.new ≡ value.now }
{
    if own.count() != value.count() {
        return false;
    }
    spare.copy_from(own);
    spare.union_with(value);
    if own.is_same(spare) {
        return false;
    }
    own.copy_from(spare);
    true
}

/// Closes a relation where it stands.
pub fn close_into(how: Postfix, slot: &mut Rel, spare: &mut Rel)
    ensures { IsRelation slot.new slot.old.count (Closed how slot.old.count (Has slot.old)) }
{
    match how {
        Postfix::Transitive => slot.close(),
        Postfix::Reflexive => slot.add_identity(),
        Postfix::Inverse => {
            spare.set_inverse(slot);
            slot.copy_from(spare);
        }
        Postfix::Closure => {
            slot.close();
            slot.add_identity();
        }
    }
}
