//! Guesses of where items stand, by their numbers: what is looked up in place of a search.

ghost use Rattle.std.specs.Prelude.{◌≡◌, ◌==◌, ◌≤◌, true, length, IfOk};
ghost use Rattle.std.specs.List.{position_or_len};
ghost use Rattle.bench_nodes.specs.Guesses.{left_of, with_guess, are_items_guessed};
ghost use Rattle.bench_nodes.specs.Nodes.{item_stamp};

use crate::table::ItemRow;
use std::alloc::{AllocError, Global};

/// What is left of a number over a count, 0 where that is 0.
pub(crate) fn left_of(number: u64, count: usize) -> usize
    ensures { result ≡ left_of number count }
{
    if count == 0 {
        0
    } else {
        (number % count as u64) as usize
    }
}

/// So many spots without a guess. Errors: want of memory.
pub(crate) fn no_guesses(alloc: Global, count: usize) -> Result<Vec<usize>, AllocError>
    ensures { IfOk result (λ v. length v.items ≡ count) }
{
    let mut guesses = Vec::with_capacity(alloc, count)?;
    for _ in 0..count {
        guesses.push(usize::MAX)?;
    }
    Ok(guesses)
}

/// Guesses an index at a spot, where no lower one is guessed.
pub(crate) fn put_guess(guesses: &mut Vec<usize>, spot: usize, index: usize)
    ensures { guesses.new.items ≡ with_guess guesses.old.items spot index }
{
    if spot < guesses.len() && index < guesses[spot] {
        guesses[spot] = index;
    }
}

/// Guesses for these items: at each spot the first of its items. Errors: want of memory.
pub fn item_guesses(alloc: Global, rows: &[ItemRow]) -> Result<Vec<usize>, AllocError>
    ensures { IfOk result (λ v. are_items_guessed v.items rows.now ≡ true) }
{
    let count = rows.len().saturating_mul(4);
    let mut guesses = no_guesses(alloc, count)?;
    for (index, row) in rows.iter().enumerate() {
        put_guess(&mut guesses, left_of(row.number, count), index);
    }
    Ok(guesses)
}

// The index of the first item of that number, or how many items there are, by a search.
fn first_item(rows: &[ItemRow], number: u64) -> usize
    ensures { result ≡ position_or_len (λ i. i.number == number) rows.now }
{
    for (index, row) in rows.iter().enumerate() {
        if row.number == number {
            return index;
        }
    }
    rows.len()
}

/// The index of the first item of that number, or how many items there are. The guesses are those
/// for the items.
pub fn item_index(guesses: &[usize], rows: &[ItemRow], number: u64) -> usize
    requires { are_items_guessed guesses.now rows.now ≡ true }
    ensures found { result ≡ position_or_len (λ i. i.number == number) rows.now }
    ensures within { result ≤ length rows.now }
{
    let spot = left_of(number, guesses.len());
    if spot >= guesses.len() {
        return first_item(rows, number);
    }
    let at = guesses[spot];
    if at >= rows.len() {
        return rows.len();
    }
    if rows[at].number == number {
        at
    } else {
        first_item(rows, number)
    }
}

/// The stamp of the item of that number, 0 where it is not there. The guesses are those for the
/// items.
pub(crate) fn placed_stamp(guesses: &[usize], rows: &[ItemRow], number: u64) -> u64
    requires { are_items_guessed guesses.now rows.now ≡ true }
    ensures { result ≡ item_stamp rows.now number }
{
    let at = item_index(guesses, rows, number);
    if at < rows.len() { rows[at].stamp } else { 0 }
}
