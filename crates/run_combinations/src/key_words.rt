//! The words of sets of pairs of a location and a value, and the numbers of these pairs.

ghost use Rattle.std.specs.Prelude.{◌≡◌, ◌↔◌, ◌⊎◌, ◌<◌, ◌≤◌, ℕ, IfSome};
ghost use Rattle.std.specs.List.{position_or_len};
ghost use Rattle.bit_rows.specs.Relation.{Bit};
ghost use Rattle.bit_rows.specs.Rows.{RowsHave};
ghost use Rattle.bit_rows.specs.Pairs.{WithPair, Union};
ghost use Rattle.run_combinations.specs.Keys.{InFirst, TellsAll, TellsSubset, key_in};
ghost use Rattle.run_combinations.specs.ReadChoices.{same_value};

use thread_runs::{Value, is_same};

/// Words enough for 128 locations with 16 values each.
pub const WORDS: usize = 32;

/// The bits of either word.
#[inline]
fn either(left: u64, right: u64) -> u64
    ensures { (b : ℕ) → Bit result b ↔ (Bit left b ⊎ Bit right b) }
{
    left | right
}

/// Whether the other word has all bits of this one.
#[inline]
fn has_all(word: u64, other: u64) -> bool
    ensures { TellsAll result (Bit word) (Bit other) }
{
    word & !other == 0
}

/// The word with one bit more.
#[inline]
fn with_bit(word: u64, k: usize) -> u64
    requires { k < 64 }
    ensures { (b : ℕ) → Bit result b ↔ (Bit word b ⊎ (k ≡ b)) }
{
    word | (1 << k)
}

/// Adds a bit to one word.
pub fn set_bit(words: &mut [u64; WORDS], a: usize, k: usize)
    requires word { a < 32 }
    requires inside { k < 64 }
    ensures { (x b : ℕ) → RowsHave words.new x b ↔ WithPair (RowsHave words.old) a k x b }
{
    words[a] = with_bit(words[a], k);
}

/// Adds the bits of the first of the other words.
pub fn join_words(words: &mut [u64; WORDS], others: &[u64; WORDS], used: usize)
    requires { used ≤ 32 }
    ensures { (a b : ℕ)
        → RowsHave words.new a b ↔ Union (RowsHave words.old) (InFirst used others.now) a b }
{
    for a in 0..used {
        words[a] = either(words[a], others[a]);
    }
}

/// Whether the other words have all bits of the first of these.
pub fn are_within(words: &[u64; WORDS], others: &[u64; WORDS], used: usize) -> bool
    requires { used ≤ 32 }
    ensures { TellsSubset result (InFirst used words.now) (RowsHave others.now) }
{
    for a in 0..used {
        if !has_all(words[a], others[a]) {
            return false;
        }
    }
    true
}

/// The index of the value among these, or how many they are.
fn index_of(values: &[Value], value: Value) -> usize
    ensures { result ≡ position_or_len (λ v. same_value v value) values.now }
{
    for index in 0..values.len() {
        if is_same(values[index], value) {
            return index;
        }
    }
    values.len()
}

/// The number of the pair of a location and a value, by the index of the value among these; none
/// past 128 locations and 16 values.
pub fn key_of(values: &[Value], location: usize, value: Value) -> Option<usize>
    ensures number { result ≡ key_in values.now location value }
    ensures within { IfSome result (λ key. key < 2048) }
{
    let index = index_of(values, value);
    if location < 128 && index < 16 {
        Some(location * 16 + index)
    } else {
        None
    }
}
