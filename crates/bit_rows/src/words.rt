//! Columns of words: the words below an end change, the others stay.
ghost use Rattle.std.specs.Prelude.{◌≡◌, ℕ, ◌<◌, ◌≤◌, ◌+◌, ◌↔◌, length, slice_index, take, IsTrue};
ghost use Rattle.bit_rows.specs.Relation.{wide_word};
ghost use Rattle.bit_rows.specs.Rows.{RowsHave, AllFit, AreRowsFilled, Nothing, WithOwn, WordProduct, Kept, WordComplement, Read};
ghost use Rattle.bit_rows.specs.Pairs.{WithPair, Union, Inter, Minus};

use crate::word::{both, either, has_event, has_own_bit, left_alone, own_bit, with_bit, word_if};

/// How many events there may be.
pub const MAX_EVENTS: usize = 128;

/// How many rows have a high word in use.
pub fn end_of_high(count: usize) -> usize
    requires { count ≤ 128 }
    ensures few { result ≤ 128 }
    ensures none { count ≤ 64 → result ≡ 0 }
    ensures all { 64 < count → result ≡ count }
{
    if count > 64 { count } else { 0 }
}

/// No bits.
pub fn none() -> [u64; MAX_EVENTS]
    ensures height { length result ≡ 128 }
    ensures zero { (a : ℕ) → slice_index result a ≡ 0 }
{
    [0; MAX_EVENTS]
}

/// Adds a bit to one word.
pub fn set_bit(words: &mut [u64; MAX_EVENTS], a: usize, k: usize)
    requires row { a < 128 }
    requires inside { k < 64 }
    ensures height { length words.new ≡ 128 }
    ensures fits { AllFit words.new }
    ensures bits { (x b : ℕ) → RowsHave words.new x b ↔ WithPair (RowsHave words.old) a k x b }
{
    words[a] = with_bit(words[a], k);
}

/// Empties the words.
pub fn clear(words: &mut [u64; MAX_EVENTS], end: usize)
    requires { end ≤ 128 }
    ensures { AreRowsFilled words.old words.new end Nothing }
{
    for a in 0..end {
        words[a] = 0;
    }
}

/// Writes the words of another over them.
pub fn copy(words: &mut [u64; MAX_EVENTS], others: &[u64; MAX_EVENTS], end: usize)
    requires { end ≤ 128 }
    ensures { AllFit others.now → AreRowsFilled words.old words.new end (RowsHave others.now) }
{
    for a in 0..end {
        words[a] = others[a];
    }
}

/// Adds the bits of the words of another.
pub fn join(words: &mut [u64; MAX_EVENTS], others: &[u64; MAX_EVENTS], end: usize)
    requires { end ≤ 128 }
    ensures { AreRowsFilled words.old words.new end
        (Union (RowsHave words.old) (RowsHave others.now)) }
{
    for a in 0..end {
        words[a] = either(words[a], others[a]);
    }
}

/// Keeps the bits that the words of another have too.
pub fn meet(words: &mut [u64; MAX_EVENTS], others: &[u64; MAX_EVENTS], end: usize)
    requires { end ≤ 128 }
    ensures { AreRowsFilled words.old words.new end
        (Inter (RowsHave words.old) (RowsHave others.now)) }
{
    for a in 0..end {
        words[a] = both(words[a], others[a]);
    }
}

/// Drops the bits that the words of another have.
pub fn drop_bits(words: &mut [u64; MAX_EVENTS], others: &[u64; MAX_EVENTS], end: usize)
    requires { end ≤ 128 }
    ensures { AreRowsFilled words.old words.new end
        (Minus (RowsHave words.old) (RowsHave others.now)) }
{
    for a in 0..end {
        words[a] = left_alone(words[a], others[a]);
    }
}

/// Leaves those bits of a word that the words do not have.
pub fn turn(words: &mut [u64; MAX_EVENTS], all: u64, end: usize)
    requires { end ≤ 128 }
    ensures { AreRowsFilled words.old words.new end (WordComplement all (RowsHave words.old)) }
{
    for a in 0..end {
        words[a] = left_alone(all, words[a]);
    }
}

/// Writes one word over those whose event is in the set of two words, and empties the others.
pub fn fill(words: &mut [u64; MAX_EVENTS], low: u64, high: u64, word: u64, end: usize)
    requires { end ≤ 128 }
    ensures { AreRowsFilled words.old words.new end (WordProduct (wide_word low high) word) }
{
    for a in 0..end {
        words[a] = word_if(has_event(low, high, a), word);
    }
}

/// Keeps the bits of one word where the event is in the set of two words, and empties the others.
pub fn keep(words: &mut [u64; MAX_EVENTS], low: u64, high: u64, word: u64, end: usize)
    requires { end ≤ 128 }
    ensures { AreRowsFilled words.old words.new end
        (Kept (wide_word low high) word (RowsHave words.old)) }
{
    for a in 0..end {
        words[a] = word_if(has_event(low, high, a), both(words[a], word));
    }
}

/// Adds to each word the bit of its own event, where the first bit stands for the event `at`.
pub fn add_diagonal(words: &mut [u64; MAX_EVENTS], at: usize, end: usize)
    requires { end ≤ 128 }
    ensures { AreRowsFilled words.old words.new end (WithOwn at (RowsHave words.old)) }
{
    for a in 0..end {
        words[a] = either(words[a], own_bit(a, at));
    }
}

/// Whether no word has the bit of its own event, where the first bit stands for the event `at`.
pub fn is_diagonal_free(words: &[u64; MAX_EVENTS], at: usize, end: usize) -> bool
    requires { end ≤ 128 }
    ensures { IsTrue result
        ↔ ((a b : ℕ) → a < end → b < 64 → a ≡ b + at → RowsHave words.now a b → ⊥) }
{
    for a in 0..end {
        if has_own_bit(words[a], a, at) {
            return false;
        }
    }
    true
}

/// Whether no word below the end has a bit.
pub fn are_empty(words: &[u64; MAX_EVENTS], end: usize) -> bool
    requires { end ≤ 128 }
    ensures { IsTrue result ↔ ((a : ℕ) → a < end → slice_index words.now a ≡ 0) }
{
    for a in 0..end {
        if words[a] != 0 {
            return false;
        }
    }
    true
}

/// Whether the words below the end are those of another.
pub fn are_same(words: &[u64; MAX_EVENTS], others: &[u64; MAX_EVENTS], end: usize) -> bool
    requires { end ≤ 128 }
    ensures { IsTrue result
        ↔ ((a : ℕ) → a < end → slice_index words.now a ≡ slice_index others.now a) }
{
    for a in 0..end {
        if words[a] != others[a] {
            return false;
        }
    }
    true
}

/// Whether the words below the end stand in a list from an offset on.
pub fn are_at(words: &[u64; MAX_EVENTS], list: &[u64], at: usize, end: usize) -> bool
    requires end { end ≤ 128 }
    requires room { at + end ≤ length list.now }
    ensures { IsTrue result
        ↔ ((a : ℕ) → a < end → slice_index list.now (at + a) ≡ slice_index words.now a) }
{
    for a in 0..end {
        if words[a] != list[at + a] {
            return false;
        }
    }
    true
}

/// The words below an end.
pub fn first(words: &[u64; MAX_EVENTS], end: usize) -> &[u64]
    requires { end ≤ 128 }
    ensures { result.now ≡ take end words.now }
{
    &words[..end]
}

/// Writes those bits of the words of a list, from an index on, that one word has too.
pub fn read(words: &mut [u64; MAX_EVENTS], list: &[u64], at: usize, all: u64, end: usize)
    requires end { end ≤ 128 }
    requires room { at + end ≤ length list.now }
    ensures { AreRowsFilled words.old words.new end (Read list.now at all) }
{
    for a in 0..end {
        words[a] = both(list[at + a], all);
    }
}
