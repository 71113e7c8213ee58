//! Sets of pairs of a location and a value.

ghost use Rattle.std.specs.Prelude.{◌≡◌, ◌↔◌, ◌⊎◌, ◌<◌, ◌≤◌, ◌/◌, ◌%◌, ℕ, Some};
ghost use Rattle.bit_rows.specs.Rows.{RowsHave};

use crate::key_words::{WORDS, are_within, join_words, key_of, set_bit};
use thread_runs::Value;

/// A set of pairs of a location and a value of the domain, each by its number.
#[derive(Clone, Copy)]
pub struct KeySet {
    words: [u64; WORDS],
    /// How many words have all its bits: the first ones.
    used: usize,
    /// So many words there are.
    ghost few: { used ≤ 32 },
    /// The words behind them have no bit.
    ghost ends: { (a b : ℕ) → RowsHave words a b → a < used },
}

impl KeySet {
    ghost use Rattle.run_combinations.specs.Keys.{HasKey, TellsSubset, bit_of};

    /// The set without a pair.
    pub fn empty() -> KeySet
        ensures { (a b : ℕ) → HasKey result a b → ⊥ }
    {
        KeySet {
            words: [0; WORDS],
            used: 0,
        }
    }

    /// Adds a pair by its number.
    fn insert(&mut self, key: usize)
        requires { key < 2048 }
        ensures { (a b : ℕ)
            → HasKey self.new a b ↔ (HasKey self.old a b ⊎ ((key / 64 ≡ a) × (key % 64 ≡ b))) }
    {
        set_bit(&mut self.words, key / 64, key % 64);
        self.used = self.used.max(key / 64 + 1);
    }

    /// Adds a pair, if it has a number.
    pub fn insert_pair(&mut self, values: &[Value], location: usize, value: Value)
        ensures { (a b : ℕ)
            → HasKey self.new a b
            ↔ (HasKey self.old a b ⊎ (bit_of values.now location value ≡ Some (a, b))) }
    {
        match key_of(values, location, value) {
            Some(key) => self.insert(key),
            None => {}
        }
    }

    /// Adds the pairs of the other set.
    pub fn join(&mut self, other: &KeySet)
        ensures { (a b : ℕ) → HasKey self.new a b ↔ (HasKey self.old a b ⊎ HasKey other.now a b) }
    {
        join_words(&mut self.words, &other.words, other.used);
        self.used = self.used.max(other.used);
    }

    /// Whether the other set has all pairs of this one.
    pub fn is_within(&self, other: &KeySet) -> bool
        ensures { TellsSubset result (HasKey self.now) (HasKey other.now) }
    {
        are_within(&self.words, &other.words, self.used)
    }
}
