//! Numbers and items at indexes.

ghost use Rattle.std.specs.Prelude.{◌≡◌, ◌↔◌, IsTrue, map, slice_get};
ghost use Rattle.bench_slices.specs.Slices.{clause_at};

use text_values::Item;

// Whether two lists have the same number at these indexes, or neither has one.
pub(crate) fn is_same_number(first: &[u64], index: usize, second: &[u64], other: usize) -> bool
    ensures { IsTrue result ↔ (slice_get first.now index ≡ slice_get second.now other) }
{
    match (first.get(index), second.get(other)) {
        (Some(a), Some(b)) => *a == *b,
        (None, None) => true,
        (Some(_), None) => false,
        (None, Some(_)) => false,
    }
}

// Whether two lists have the same numbers at these indexes.
pub(crate) fn are_same_numbers(
    first: &[u64],
    indexes: &[usize],
    second: &[u64],
    others: &[usize],
) -> bool
    ensures { IsTrue result
        ↔ (map (slice_get first.now) indexes.now ≡ map (slice_get second.now) others.now) }
{
    if indexes.len() != others.len() {
        return false;
    }
    for index in 0..indexes.len() {
        if !is_same_number(first, indexes[index], second, others[index]) {
            return false;
        }
    }
    true
}

fn is_same_item(first: &[Item], index: usize, second: &[Item], other: usize) -> bool
    ensures { IsTrue result ↔ (clause_at first.now index ≡ clause_at second.now other) }
{
    match (first.get(index), second.get(other)) {
        (Some(a), Some(b)) => a.is_same(b),
        (None, None) => true,
        (Some(_), None) => false,
        (None, Some(_)) => false,
    }
}

// Whether two lists have equal items at these indexes.
pub(crate) fn are_same_items(
    first: &[Item],
    indexes: &[usize],
    second: &[Item],
    others: &[usize],
) -> bool
    ensures { IsTrue result
        ↔ (map (clause_at first.now) indexes.now ≡ map (clause_at second.now) others.now) }
{
    if indexes.len() != others.len() {
        return false;
    }
    for index in 0..indexes.len() {
        if !is_same_item(first, indexes[index], second, others[index]) {
            return false;
        }
    }
    true
}
