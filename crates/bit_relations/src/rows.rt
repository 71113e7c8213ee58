//! Rows of two words: a column of low words and one of high words.
ghost use Rattle.std.specs.Prelude.{◌≡◌, ℕ, ◌<◌, ◌≤◌, ◌+◌, ◌*◌, ◌↔◌, length, IsTrue};
ghost use Rattle.bit_rows.specs.Relation.{Bit, wide, AreRelColumns};
ghost use Rattle.bit_rows.specs.Rows.{RowsHave, AreRowsFilled, AllFit, JoinedBelow, InverseFrom, Through};
ghost use Rattle.bit_rows.specs.Pairs.{Plus, IsAcyclic};

use bit_rows::lanes::{blocks_of, close_sixteen, join_block, join_both, join_own};
use bit_rows::{MAX_EVENTS, has_event, in_high, in_low, is_diagonal_free, union_where, with_bit};

/// Whether the row of an event leads to another.
pub fn has_pair(low: &[u64; MAX_EVENTS], high: &[u64; MAX_EVENTS], from: usize, to: usize) -> bool
    requires from { from < 128 }
    requires to { to < 128 }
    ensures { IsTrue result ↔ RowsHave (wide low.now high.now) from to }
{
    has_event(low[from], high[from], to)
}

/// The events below an end whose words have the bit, where the first bit of the result stands for
/// the event `at`.
fn column(words: &[u64; MAX_EVENTS], k: usize, at: usize, end: usize) -> u64
    requires inside { k < 64 }
    requires few { end ≤ 64 }
    requires room { at + end ≤ 128 }
    ensures { (b : ℕ) → Bit result b ↔ ((b < end) × RowsHave words.now (b + at) k) }
{
    let mut column = 0;
    for a in 0..end {
        column = union_where(column, words[a + at], k, with_bit(0, a));
    }
    column
}

/// The events that lead to an event: those from `at` on, as many as an end says.
fn leading_to(
    low: &[u64; MAX_EVENTS],
    high: &[u64; MAX_EVENTS],
    event: usize,
    at: usize,
    end: usize,
) -> u64
    requires event { event < 128 }
    requires few { end ≤ 64 }
    requires room { at + end ≤ 128 }
    ensures { (b : ℕ)
        → Bit result b ↔ ((b < end) × RowsHave (wide low.now high.now) (b + at) event) }
{
    if event < 64 {
        column(low, event, at, end)
    } else {
        column(high, event - 64, at, end)
    }
}

/// Writes for each event those that lead to it: those from `at` on, as many as `part` says.
pub fn invert(
    words: &mut [u64; MAX_EVENTS],
    low: &[u64; MAX_EVENTS],
    high: &[u64; MAX_EVENTS],
    at: usize,
    part: usize,
    end: usize,
)
    requires few { part ≤ 64 }
    requires room { at + part ≤ 128 }
    requires end { end ≤ 128 }
    ensures { AreRowsFilled words.old words.new end
        (InverseFrom at part (RowsHave (wide low.now high.now))) }
{
    for a in 0..end {
        words[a] = leading_to(low, high, a, at, part);
    }
}

/// Adds to the words of each row in the blocks those of the rows that it leads to.
pub fn compose(
    words: &mut [u64; MAX_EVENTS],
    low: &[u64; MAX_EVENTS],
    high: &[u64; MAX_EVENTS],
    others: &[u64; MAX_EVENTS],
    count: usize,
    blocks: usize,
)
    requires count { count ≤ 128 }
    requires few { 8 * blocks ≤ 128 }
    ensures { AreRowsFilled words.old words.new (8 * blocks) (JoinedBelow count (RowsHave words.old)
        (RowsHave (wide low.now high.now)) (RowsHave others.now)) }
{
    join_block(words, low, others, 0, in_low(count), blocks);
    if count > 64 {
        join_block(words, high, others, 64, in_high(count), blocks);
    }
}

/// Closes rows of one word over paths of one step or more, with one event after another in the
/// middle.
fn close_blocks(low: &mut [u64; MAX_EVENTS], count: usize)
    requires few { count ≤ 64 }
    requires within { (a b : ℕ) → RowsHave low.old a b → (a < count) × (b < count) }
    ensures height { length low.new ≡ 128 }
    ensures fits { AllFit low.new }
    ensures pairs { (a b : ℕ) → RowsHave low.new a b ↔ Plus (RowsHave low.old) a b }
{
    let blocks = blocks_of(count);
    for middle in 0..count {
        let row = low[middle];
        if row != 0 {
            join_own(low, middle, row, blocks);
        }
    }
}

/// Closes rows of one word over paths of one step or more.
fn close_low(low: &mut [u64; MAX_EVENTS], count: usize)
    requires few { count ≤ 64 }
    requires within { (a b : ℕ) → RowsHave low.old a b → (a < count) × (b < count) }
    ensures height { length low.new ≡ 128 }
    ensures fits { AllFit low.new }
    ensures pairs { (a b : ℕ) → RowsHave low.new a b ↔ Plus (RowsHave low.old) a b }
{
    if count <= 8 || count > 16 {
        close_blocks(low, count);
    } else {
        close_sixteen(low, count);
    }
}

/// Adds to each row that leads to the middle the middle's row.
fn close_through(
    low: &mut [u64; MAX_EVENTS],
    high: &mut [u64; MAX_EVENTS],
    middle: usize,
    count: usize,
)
    requires inside { middle < count }
    requires columns { AreRelColumns count low.old high.old }
    ensures columns { AreRelColumns count low.new high.new }
    ensures pairs { (a b : ℕ)
        → RowsHave (wide low.new high.new) a b
        ↔ Through middle (RowsHave (wide low.old high.old)) a b }
{
    let row_low = low[middle];
    let row_high = high[middle];
    let blocks = blocks_of(count);
    if middle < 64 {
        join_both(low, high, middle, row_low, row_high, blocks);
    } else {
        join_both(high, low, middle - 64, row_high, row_low, blocks);
    }
}

/// Closes rows of two words over paths of one step or more.
fn close_both(low: &mut [u64; MAX_EVENTS], high: &mut [u64; MAX_EVENTS], count: usize)
    requires { AreRelColumns count low.old high.old }
    ensures columns { AreRelColumns count low.new high.new }
    ensures pairs { (a b : ℕ)
        → RowsHave (wide low.new high.new) a b ↔ Plus (RowsHave (wide low.old high.old)) a b }
{
    for middle in 0..count {
        if low[middle] != 0 || high[middle] != 0 {
            close_through(low, high, middle, count);
        }
    }
}

/// Closes rows over paths of one step or more: of one word where the count is at most 64, and else
/// of two.
pub fn close(low: &mut [u64; MAX_EVENTS], high: &mut [u64; MAX_EVENTS], count: usize)
    requires { AreRelColumns count low.old high.old }
    ensures columns { AreRelColumns count low.new high.new }
    ensures pairs { (a b : ℕ)
        → RowsHave (wide low.new high.new) a b ↔ Plus (RowsHave (wide low.old high.old)) a b }
{
    if count <= 64 {
        close_low(low, count);
    } else {
        close_both(low, high, count);
    }
}

/// Whether no path of one step or more leads back to where it began, in rows of one word: it closes
/// a copy of them.
pub fn is_low_acyclic(low: &[u64; MAX_EVENTS], count: usize) -> bool
    requires few { count ≤ 64 }
    requires within { (a b : ℕ) → RowsHave low.now a b → (a < count) × (b < count) }
    ensures { IsTrue result ↔ IsAcyclic (RowsHave low.now) }
{
    let mut closed = *low;
    close_low(&mut closed, count);
    is_diagonal_free(&closed, 0, count)
}
