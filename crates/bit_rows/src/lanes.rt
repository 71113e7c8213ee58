//! Kernels that take eight words at a time, for blocks of 64 by 64 bits.
ghost use Rattle.std.specs.Prelude.{◌≡◌, ℕ, ◌<◌, ◌≤◌, ◌+◌, ◌*◌, ◌↔◌, ◌⊎◌, List, length, slice_index};
ghost use Rattle.bit_rows.specs.Pairs.{Plus, PlusBelow};
ghost use Rattle.bit_rows.specs.Rows.{RowsHave, AllFit, AreRowsFilled, UnionWhere, AreLanesJoined, AreLanesStored, JoinedFrom, Sixteen};

use crate::words::MAX_EVENTS;
use std::simd::prelude::*;

/// Each lane of `acc`, joined with `row` where the lane of `select` has bit `k`.
#[inline]
pub fn join(acc: u64x8, select: u64x8, k: u32, row: u64) -> u64x8
    requires { k < 64 }
    ensures count { length result ≡ 8 }
    ensures lanes { AreLanesJoined acc select k row result }
{
    let unset = (select & u64x8::splat(1 << k)).simd_eq(u64x8::splat(0));
    acc | unset.select(u64x8::splat(0), u64x8::splat(row))
}

/// The eight words from an index on.
#[inline]
fn load(words: &[u64; MAX_EVENTS], at: usize) -> u64x8
    requires { at + 8 ≤ 128 }
    ensures count { length result ≡ 8 }
    ensures lanes { (i : ℕ) → i < 8 → slice_index result i ≡ slice_index words.now (at + i) }
{
    u64x8::from_slice(&words[at..])
}

/// Puts eight words into a list, from an index on.
#[inline]
fn store(words: &mut [u64; MAX_EVENTS], at: usize, lanes: u64x8)
    requires { at + 8 ≤ 128 }
    ensures { AreLanesStored words.old at lanes words.new }
{
    lanes.copy_to_slice(&mut words[at..]);
}

/// How many blocks of eight words hold the words below an end.
pub fn blocks_of(end: usize) -> usize
    requires { end ≤ 128 }
    ensures few { 8 * result ≤ 128 }
    ensures all { end ≤ 8 * result }
    ensures least { 8 * result < end + 8 }
{
    (end + 7) / 8
}

/// Adds a word's bits to each word of the blocks that has the bit k itself.
pub fn join_own(words: &mut [u64; MAX_EVENTS], k: usize, word: u64, blocks: usize)
    requires inside { k < 64 }
    requires few { 8 * blocks ≤ 128 }
    ensures { AreRowsFilled words.old words.new (8 * blocks) (UnionWhere (RowsHave words.old)
        (RowsHave words.old) k word) }
{
    for block in 0..blocks {
        let lanes = load(words, 8 * block);
        let joined = join(lanes, lanes, k as u32, word);
        store(words, 8 * block, joined);
    }
}

/// Takes the events of eight rows, `own`, as middles, one after another: those from `at` on, as
/// many as `end` says. Each of sixteen rows that leads to a middle gets the middle's row.
fn close_eight(own: u64x8, other: u64x8, at: usize, end: usize) -> (u64x8, u64x8)
    requires half { (at ≡ 0) ⊎ (at ≡ 8) }
    requires few { end ≤ 8 }
    ensures own { length result.0 ≡ 8 }
    ensures other { length result.1 ≡ 8 }
    ensures pairs { (rows : List ℕ)
        → ((a b : ℕ) → Sixteen at own other a b ↔ PlusBelow (RowsHave rows) at a b) → (a b : ℕ)
        → Sixteen at result.0 result.1 a b ↔ PlusBelow (RowsHave rows) (at + end) a b }
{
    let mut these = own;
    let mut those = other;
    for k in 0..end {
        let row = these[k];
        let middle = (at + k) as u32;
        these = join(these, these, middle, row);
        those = join(those, those, middle, row);
    }
    (these, those)
}

/// Writes the first sixteen words.
fn store_sixteen(words: &mut [u64; MAX_EVENTS], first: u64x8, second: u64x8)
    ensures { AreRowsFilled words.old words.new 16 (Sixteen 0 first second) }
{
    store(words, 0, first);
    store(words, 8, second);
}

/// Closes at most sixteen rows of one word over paths of one step or more.
pub fn close_sixteen(words: &mut [u64; MAX_EVENTS], count: usize)
    requires few { count ≤ 16 }
    requires within { (a b : ℕ) → RowsHave words.old a b → (a < count) × (b < count) }
    ensures height { length words.new ≡ 128 }
    ensures fits { AllFit words.new }
    ensures pairs { (a b : ℕ) → RowsHave words.new a b ↔ Plus (RowsHave words.old) a b }
{
    let first = load(words, 0);
    let second = load(words, 8);
    let early = close_eight(first, second, 0, count.min(8));
    if count > 8 {
        let late = close_eight(early.1, early.0, 8, count - 8);
        store_sixteen(words, late.1, late.0);
    } else {
        store_sixteen(words, early.0, early.1);
    }
}

/// Adds one word's bits to each word of the blocks that has the bit k itself, and another word's
/// bits to the word of the same row in the other column.
pub fn join_both(
    own: &mut [u64; MAX_EVENTS],
    other: &mut [u64; MAX_EVENTS],
    k: usize,
    own_word: u64,
    other_word: u64,
    blocks: usize,
)
    requires inside { k < 64 }
    requires few { 8 * blocks ≤ 128 }
    ensures own { AreRowsFilled own.old own.new (8 * blocks) (UnionWhere (RowsHave own.old)
        (RowsHave own.old) k own_word) }
    ensures other { AreRowsFilled other.old other.new (8 * blocks) (UnionWhere (RowsHave other.old)
        (RowsHave own.old) k other_word) }
{
    for block in 0..blocks {
        let select = load(own, 8 * block);
        let acc = load(other, 8 * block);
        let joined_own = join(select, select, k as u32, own_word);
        let joined_other = join(acc, select, k as u32, other_word);
        store(own, 8 * block, joined_own);
        store(other, 8 * block, joined_other);
    }
}

/// Each lane of `acc`, joined with those words of others, from an index on, that the lowest bits of
/// `select` name.
#[inline]
fn join_words(
    acc: u64x8,
    select: u64x8,
    others: &[u64; MAX_EVENTS],
    at: usize,
    middles: usize,
) -> u64x8
    requires count { length acc ≡ 8 }
    requires inside { middles ≤ 64 }
    requires room { at + middles ≤ 128 }
    ensures count { length result ≡ 8 }
    ensures lanes { (i b : ℕ) → i < 8
        → RowsHave result i b
        ↔ JoinedFrom at middles (RowsHave acc) (RowsHave select) (RowsHave others.now) i b }
{
    let mut joined = acc;
    for c in 0..middles {
        let word = others[c + at];
        if word != 0 {
            joined = join(joined, select, c as u32, word);
        }
    }
    joined
}

/// Adds to the words of the blocks those words of others, from an index on, that the lowest bits of
/// `select` name.
pub fn join_block(
    words: &mut [u64; MAX_EVENTS],
    select: &[u64; MAX_EVENTS],
    others: &[u64; MAX_EVENTS],
    at: usize,
    middles: usize,
    blocks: usize,
)
    requires inside { middles ≤ 64 }
    requires room { at + middles ≤ 128 }
    requires few { 8 * blocks ≤ 128 }
    ensures { AreRowsFilled words.old words.new (8 * blocks) (JoinedFrom at middles
        (RowsHave words.old) (RowsHave select.now) (RowsHave others.now)) }
{
    for block in 0..blocks {
        let acc = load(words, 8 * block);
        let joined = join_words(acc, load(select, 8 * block), others, at, middles);
        store(words, 8 * block, joined);
    }
}
