//! Sets of events.
ghost use Rattle.std.specs.Prelude.{◌≡◌, ℕ, ◌<◌, ◌≤◌, ◌^◌, ◌↔◌, ◌⊎◌, IsTrue};
ghost use Rattle.bit_rows.specs.Relation.{Events, IsMember, IsEvents, wide_word};

use bit_rows::{both, either, has_event, in_high, in_low, left_alone, lowest_bits, with_bit};
use std::marker::Model;

/// A set of the events below a count.
#[derive(Clone, Copy, PartialEq)]
pub struct EventSet {
    count: usize,
    low: u64,
    high: u64,
}

impl Model for EventSet {
    ghost use Rattle.std.specs.Prelude.{◌/◌, ◌%◌, ◌^◌};
    ghost use Rattle.bit_rows.specs.Relation.{Events, wide_word, AreEventSetWords};

    ghost Value = { Events };

    ghost view = { λ s. record { count = s.count; word = wide_word s.low s.high } };

    ghost invariant = { λ s. AreEventSetWords s.count s.low s.high };

    ghost inverse = { λ v.
        record { count = v.count; low = v.word % 2 ^ 64; high = v.word / 2 ^ 64 } };
}

impl EventSet {
    /// The set with no event, of a count.
    pub fn empty(count: usize) -> EventSet
        requires { count ≤ 128 }
        ensures { IsEvents result count (λ a. ⊥) }
    {
        EventSet {
            count,
            low: 0,
            high: 0,
        }
    }

    /// The set of all events below a count.
    pub fn all(count: usize) -> EventSet
        requires { count ≤ 128 }
        ensures { IsEvents result count (λ a. a < count) }
    {
        EventSet {
            count,
            low: lowest_bits(in_low(count)),
            high: lowest_bits(in_high(count)),
        }
    }

    /// The count that its events are below.
    pub fn count(&self) -> usize
        ensures value { result ≡ self.now.count }
        ensures few { result ≤ 128 }
        ensures within { (a : ℕ) → IsMember self.now a → a < self.now.count }
    {
        self.count
    }

    /// Adds an event.
    pub fn insert(&mut self, event: usize)
        requires { event < self.old.count }
        ensures { IsEvents self.new self.old.count (λ a. IsMember self.old a ⊎ (a ≡ event)) }
    {
        if event < 64 {
            self.low = with_bit(self.low, event);
        } else {
            self.high = with_bit(self.high, event - 64);
        }
    }

    /// Whether it has the event.
    pub fn contains(&self, event: usize) -> bool
        requires { event < self.now.count }
        ensures { IsTrue result ↔ IsMember self.now event }
    {
        has_event(self.low, self.high, event)
    }

    /// Whether it has no event.
    pub fn is_empty(&self) -> bool
        ensures { IsTrue result ↔ ((a : ℕ) → IsMember self.now a → ⊥) }
    {
        self.low == 0 && self.high == 0
    }

    /// The events of both sets together.
    pub fn union(&self, other: &EventSet) -> EventSet
        requires { other.now.count ≡ self.now.count }
        ensures { IsEvents result self.now.count (λ a. IsMember self.now a ⊎ IsMember other.now a) }
    {
        EventSet {
            count: self.count,
            low: either(self.low, other.low),
            high: either(self.high, other.high),
        }
    }

    /// The events that are in both sets.
    pub fn inter(&self, other: &EventSet) -> EventSet
        requires { other.now.count ≡ self.now.count }
        ensures { IsEvents result self.now.count (λ a. IsMember self.now a × IsMember other.now a) }
    {
        EventSet {
            count: self.count,
            low: both(self.low, other.low),
            high: both(self.high, other.high),
        }
    }

    /// The events of this set that are not in the other.
    pub fn minus(&self, other: &EventSet) -> EventSet
        requires { other.now.count ≡ self.now.count }
        ensures { IsEvents result self.now.count
            (λ a. IsMember self.now a × (IsMember other.now a → ⊥)) }
    {
        EventSet {
            count: self.count,
            low: left_alone(self.low, other.low),
            high: left_alone(self.high, other.high),
        }
    }

    /// The events below the count that are not in it.
    pub fn complement(&self) -> EventSet
        ensures { IsEvents result self.now.count
            (λ a. (a < self.now.count) × (IsMember self.now a → ⊥)) }
    {
        EventSet {
            count: self.count,
            low: left_alone(lowest_bits(in_low(self.count)), self.low),
            high: left_alone(lowest_bits(in_high(self.count)), self.high),
        }
    }

    /// Whether both have the same count and events.
    pub fn is_same(&self, other: &EventSet) -> bool
        ensures { IsTrue result ↔ (self.now ≡ other.now) }
    {
        *self == *other
    }

    /// Its two words: the events below 64, and those from 64 on.
    pub(crate) fn words(&self) -> (u64, u64)
        ensures few { self.now.count ≤ 128 }
        ensures low { result.0 < 2 ^ 64 }
        ensures word { wide_word result.0 result.1 ≡ self.now.word }
        ensures within { (a : ℕ) → IsMember self.now a → a < self.now.count }
    {
        (self.low, self.high)
    }
}
