//! Relations between events.
ghost use Rattle.std.specs.Prelude.{◌≡◌, ◌<◌, ◌≤◌, ◌+◌, ◌++◌, ◌↔◌, length, IsTrue, OnOk, OnErr};
ghost use Rattle.bit_relations.specs.Packing.{packed};
ghost use Rattle.bit_rows.specs.Relation.{Relation, Has, IsRegular, IsRelation, IsMember};
ghost use Rattle.bit_rows.specs.Rows.{StoredPairs, AreStored};
ghost use Rattle.bit_rows.specs.Pairs.{WithPair, Identity, Union, Inter, Minus, Composite, Complement, Inverse, Opt, On, Product, Restriction, Plus, Star, IsIrreflexive, IsAcyclic, IsEmpty};

use crate::rows;
use crate::set::EventSet;
use bit_rows::lanes::blocks_of;
use bit_rows::{MAX_EVENTS, end_of_high, in_high, in_low, lowest_bits, words};
use std::alloc::AllocError;
use std::marker::Model;

/// A relation between the events below a count.
#[derive(Clone, Copy)]
pub struct Rel {
    low: [u64; MAX_EVENTS],
    high: [u64; MAX_EVENTS],
    count: usize,
}

impl Model for Rel {
    ghost use Rattle.std.proofs.Common.{refl};
    ghost use Rattle.bit_rows.specs.Relation.{Relation, AreRelColumns, wide, low_words, high_words};

    ghost Value = { Relation };

    ghost view = { λ r. record { count = r.count; rows = wide r.low r.high } };

    ghost invariant = { λ r. AreRelColumns r.count r.low r.high };

    ghost inverse = { λ v.
        record { count = v.count; low = low_words v.rows; high = high_words v.rows } };

    ghost inverse_ok = { λ r h. rw (h.low_kept, h.high_kept) refl };
}

impl Rel {
    /// The relation with no pair, of a count.
    pub fn empty(count: usize) -> Rel
        requires { count ≤ 128 }
        ensures { IsRelation result count (λ a b. ⊥) }
    {
        Rel {
            count,
            low: words::none(),
            high: words::none(),
        }
    }

    /// Each event below a count with itself.
    pub fn identity(count: usize) -> Rel
        requires { count ≤ 128 }
        ensures { IsRelation result count (Identity count) }
    {
        let mut diagonal = Rel::empty(count);
        diagonal.add_identity();
        diagonal
    }

    /// The pairs from an event of one set to an event of another.
    pub fn product(left: &EventSet, right: &EventSet) -> Rel
        requires { right.now.count ≡ left.now.count }
        ensures { IsRelation result left.now.count
            (Product (IsMember left.now) (IsMember right.now)) }
    {
        let mut made = Rel::empty(left.count());
        made.set_product(left, right);
        made
    }

    /// Each event of a set with itself.
    pub fn on(events: &EventSet) -> Rel
        ensures { IsRelation result events.now.count (On (IsMember events.now)) }
    {
        let mut made = Rel::empty(events.count());
        made.set_on(events);
        made
    }

    /// The count that its events are below.
    pub fn count(&self) -> usize
        ensures value { result ≡ self.now.count }
        ensures few { result ≤ 128 }
        ensures regular { IsRegular self.now }
    {
        self.count
    }

    /// Adds a pair.
    pub fn insert(&mut self, from: usize, to: usize)
        requires from { from < self.old.count }
        requires to { to < self.old.count }
        ensures { IsRelation self.new self.old.count (WithPair (Has self.old) from to) }
    {
        if to < 64 {
            words::set_bit(&mut self.low, from, to);
        } else {
            words::set_bit(&mut self.high, from, to - 64);
        }
    }

    /// Whether it has the pair.
    pub fn contains(&self, from: usize, to: usize) -> bool
        requires from { from < self.now.count }
        requires to { to < self.now.count }
        ensures { IsTrue result ↔ Has self.now from to }
    {
        rows::has_pair(&self.low, &self.high, from, to)
    }

    /// The pairs of both together.
    pub fn union(&self, other: &Rel) -> Rel
        requires { other.now.count ≡ self.now.count }
        ensures { IsRelation result self.now.count (Union (Has self.now) (Has other.now)) }
    {
        let mut made = *self;
        made.union_with(other);
        made
    }

    /// The pairs that are in both.
    pub fn inter(&self, other: &Rel) -> Rel
        requires { other.now.count ≡ self.now.count }
        ensures { IsRelation result self.now.count (Inter (Has self.now) (Has other.now)) }
    {
        let mut made = *self;
        made.inter_with(other);
        made
    }

    /// The pairs of this one that are not in the other.
    pub fn minus(&self, other: &Rel) -> Rel
        requires { other.now.count ≡ self.now.count }
        ensures { IsRelation result self.now.count (Minus (Has self.now) (Has other.now)) }
    {
        let mut made = *self;
        made.minus_with(other);
        made
    }

    /// The pairs that a pair of this one and then a pair of the other join, by an event in the
    /// middle.
    pub fn compose(&self, other: &Rel) -> Rel
        requires { other.now.count ≡ self.now.count }
        ensures { IsRelation result self.now.count (Composite (Has self.now) (Has other.now)) }
    {
        let mut made = Rel::empty(self.count);
        made.set_composed(self, other);
        made
    }

    /// The pairs of events below the count that are not in it.
    pub fn complement(&self) -> Rel
        ensures { IsRelation result self.now.count (Complement self.now.count (Has self.now)) }
    {
        let mut made = *self;
        made.turn();
        made
    }

    /// Its inverse.
    pub fn inverse(&self) -> Rel
        ensures { IsRelation result self.now.count (Inverse (Has self.now)) }
    {
        let mut made = Rel::empty(self.count);
        made.set_inverse(self);
        made
    }

    /// The pairs that a path of one step or more joins.
    pub fn plus(&self) -> Rel
        ensures { IsRelation result self.now.count (Plus (Has self.now)) }
    {
        let mut made = *self;
        made.close();
        made
    }

    /// The pairs that a path joins, and each event with itself.
    pub fn star(&self) -> Rel
        ensures { IsRelation result self.now.count (Star self.now.count (Has self.now)) }
    {
        let mut made = self.plus();
        made.add_identity();
        made
    }

    /// Its pairs, and each event with itself.
    pub fn opt(&self) -> Rel
        ensures { IsRelation result self.now.count (Opt self.now.count (Has self.now)) }
    {
        let mut reflexive = *self;
        reflexive.add_identity();
        reflexive
    }

    /// Its pairs with both ends in a set.
    pub fn restrict(&self, events: &EventSet) -> Rel
        requires { events.now.count ≡ self.now.count }
        ensures { IsRelation result self.now.count
            (Restriction (Has self.now) (IsMember events.now)) }
    {
        let mut made = *self;
        made.keep_within(events);
        made
    }

    /// Whether it has no pair.
    pub fn is_empty(&self) -> bool
        ensures { IsTrue result ↔ IsEmpty (Has self.now) }
    {
        if words::are_empty(&self.low, self.count) {
            words::are_empty(&self.high, end_of_high(self.count))
        } else {
            false
        }
    }

    /// Whether no event is paired with itself.
    pub fn is_irreflexive(&self) -> bool
        ensures { IsTrue result ↔ IsIrreflexive (Has self.now) }
    {
        if words::is_diagonal_free(&self.low, 0, self.count) {
            words::is_diagonal_free(&self.high, 64, end_of_high(self.count))
        } else {
            false
        }
    }

    /// Whether no path of one step or more leads back to where it began.
    pub fn is_acyclic(&self) -> bool
        ensures { IsTrue result ↔ IsAcyclic (Has self.now) }
    {
        let count = self.count;
        if count <= 64 {
            rows::is_low_acyclic(&self.low, count)
        } else {
            self.plus().is_irreflexive()
        }
    }

    /// Whether both have the same count and pairs.
    pub fn is_same(&self, other: &Rel) -> bool
        ensures { IsTrue result ↔ (self.now ≡ other.now) }
    {
        if self.count != other.count {
            return false;
        }
        if words::are_same(&self.low, &other.low, self.count) {
            words::are_same(&self.high, &other.high, end_of_high(self.count))
        } else {
            false
        }
    }
}

/// The operations in place: each touches only rows below the counts.
impl Rel {
    /// Becomes the relation with no pair, of a count.
    pub fn clear(&mut self, count: usize)
        requires { count ≤ 128 }
        ensures { IsRelation self.new count (λ a b. ⊥) }
    {
        words::clear(&mut self.low, self.count);
        words::clear(&mut self.high, end_of_high(self.count));
        self.count = count;
    }

    /// Becomes the other.
    pub fn copy_from(&mut self, other: &Rel)
        ensures { self.new ≡ other.now }
    {
        let most = self.count.max(other.count);
        words::copy(&mut self.low, &other.low, most);
        words::copy(&mut self.high, &other.high, end_of_high(most));
        self.count = other.count;
    }

    /// Adds the pairs of another.
    pub fn union_with(&mut self, other: &Rel)
        requires { other.now.count ≡ self.old.count }
        ensures { IsRelation self.new self.old.count (Union (Has self.old) (Has other.now)) }
    {
        words::join(&mut self.low, &other.low, self.count);
        words::join(&mut self.high, &other.high, end_of_high(self.count));
    }

    /// Keeps the pairs that are in another too.
    pub fn inter_with(&mut self, other: &Rel)
        requires { other.now.count ≡ self.old.count }
        ensures { IsRelation self.new self.old.count (Inter (Has self.old) (Has other.now)) }
    {
        words::meet(&mut self.low, &other.low, self.count);
        words::meet(&mut self.high, &other.high, end_of_high(self.count));
    }

    /// Drops the pairs that are in another.
    pub fn minus_with(&mut self, other: &Rel)
        requires { other.now.count ≡ self.old.count }
        ensures { IsRelation self.new self.old.count (Minus (Has self.old) (Has other.now)) }
    {
        words::drop_bits(&mut self.low, &other.low, self.count);
        words::drop_bits(&mut self.high, &other.high, end_of_high(self.count));
    }

    /// Becomes its complement.
    pub fn turn(&mut self)
        ensures { IsRelation self.new self.old.count (Complement self.old.count (Has self.old)) }
    {
        let low = lowest_bits(in_low(self.count));
        let high = lowest_bits(in_high(self.count));
        words::turn(&mut self.low, low, self.count);
        words::turn(&mut self.high, high, end_of_high(self.count));
    }

    /// Becomes its closure over paths of one step or more.
    pub fn close(&mut self)
        ensures { IsRelation self.new self.old.count (Plus (Has self.old)) }
    {
        rows::close(&mut self.low, &mut self.high, self.count);
    }

    /// Adds each event below the count with itself.
    pub fn add_identity(&mut self)
        ensures { IsRelation self.new self.old.count (Opt self.old.count (Has self.old)) }
    {
        words::add_diagonal(&mut self.low, 0, self.count);
        words::add_diagonal(&mut self.high, 64, end_of_high(self.count));
    }

    /// Keeps the pairs with both ends in a set.
    pub fn keep_within(&mut self, events: &EventSet)
        requires { events.now.count ≡ self.old.count }
        ensures { IsRelation self.new self.old.count
            (Restriction (Has self.old) (IsMember events.now)) }
    {
        let (low, high) = events.words();
        words::keep(&mut self.low, low, high, low, self.count);
        words::keep(&mut self.high, low, high, high, end_of_high(self.count));
    }

    /// Becomes the composition of two others.
    pub fn set_composed(&mut self, left: &Rel, right: &Rel)
        requires { right.now.count ≡ left.now.count }
        ensures { IsRelation self.new left.now.count (Composite (Has left.now) (Has right.now)) }
    {
        let count = left.count;
        self.clear(count);
        if left.is_empty() || right.is_empty() {
            return;
        }
        rows::compose(
            &mut self.low,
            &left.low,
            &left.high,
            &right.low,
            count,
            blocks_of(count),
        );
        rows::compose(
            &mut self.high,
            &left.low,
            &left.high,
            &right.high,
            count,
            blocks_of(end_of_high(count)),
        );
    }

    /// Becomes the inverse of another.
    pub fn set_inverse(&mut self, of: &Rel)
        ensures { IsRelation self.new of.now.count (Inverse (Has of.now)) }
    {
        let count = of.count;
        self.clear(count);
        rows::invert(&mut self.low, &of.low, &of.high, 0, in_low(count), count);
        rows::invert(
            &mut self.high,
            &of.low,
            &of.high,
            64,
            in_high(count),
            end_of_high(count),
        );
    }

    /// Becomes the pairs from an event of one set to an event of another.
    pub fn set_product(&mut self, left: &EventSet, right: &EventSet)
        requires { right.now.count ≡ left.now.count }
        ensures { IsRelation self.new left.now.count
            (Product (IsMember left.now) (IsMember right.now)) }
    {
        let count = left.count();
        let (low, high) = left.words();
        let (right_low, right_high) = right.words();
        self.clear(count);
        words::fill(&mut self.low, low, high, right_low, count);
        words::fill(&mut self.high, low, high, right_high, end_of_high(count));
    }

    /// Becomes each event of a set with itself.
    pub fn set_on(&mut self, events: &EventSet)
        ensures { IsRelation self.new events.now.count (On (IsMember events.now)) }
    {
        self.clear(events.count());
        self.add_identity();
        self.keep_within(events);
    }

    /// Appends the words of its rows: the low ones, then the high ones where the count is over 64.
    /// Where memory is out the list stays as it was.
    pub fn append_to(&self, list: &mut Vec<u64>) -> Result<(), AllocError>
        ensures added { OnOk result (list.new.items ≡ list.old.items ++ packed self.now) }
        ensures kept { OnErr result (list.new.items ≡ list.old.items) }
    {
        let low = words::first(&self.low, self.count);
        let high = words::first(&self.high, end_of_high(self.count));
        list.reserve(low.len() + high.len())?;
        list.extend_from_slice(low)?;
        list.extend_from_slice(high)?;
        Ok(())
    }

    /// Becomes the relation of a count whose words stand in a list from an index on.
    pub fn read_from(&mut self, count: usize, list: &[u64], at: usize)
        requires few { count ≤ 128 }
        requires low { at + count ≤ length list.now }
        requires high { 64 < count → at + count + count ≤ length list.now }
        ensures { IsRelation self.new count (StoredPairs list.now at count) }
    {
        self.clear(count);
        let low = lowest_bits(in_low(count));
        let high = lowest_bits(in_high(count));
        words::read(&mut self.low, list, at, low, count);
        words::read(&mut self.high, list, at + count, high, end_of_high(count));
    }

    /// Whether the words of its rows stand in a list from an offset on, the low ones first.
    pub fn is_stored(&self, list: &[u64], at: usize) -> bool
        requires low { at + self.now.count ≤ length list.now }
        requires high { 64 < self.now.count
            → at + self.now.count + self.now.count ≤ length list.now }
        ensures { IsTrue result ↔ AreStored list.now at self.now }
    {
        if words::are_at(&self.low, list, at, self.count) {
            words::are_at(&self.high, list, at + self.count, end_of_high(self.count))
        } else {
            false
        }
    }
}
