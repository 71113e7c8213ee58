//! What items use.

ghost use Rattle.std.specs.Prelude.{◌≡◌, ◌↔◌, IsTrue, map};
ghost use Rattle.bench_slices.specs.Slices.{bound_name, uses_of, uses_at};

use crate::lists::{are_same_numbers, is_same_number};
use binding_graph::{Input, ResolvedItem};
use text_values::Item;

fn is_same_name(first: &[u64], input: &Input, second: &[u64], other: &Input) -> bool
    ensures { IsTrue result ↔ (bound_name first.now input.now ≡ bound_name second.now other.now) }
{
    is_same_number(first, input.item, second, other.item) && input.position == other.position
}

fn are_same_names(first: &[u64], inputs: &[Input], second: &[u64], others: &[Input]) -> bool
    ensures { IsTrue result
        ↔ (map (bound_name first.now) inputs.now ≡ map (bound_name second.now) others.now) }
{
    if inputs.len() != others.len() {
        return false;
    }
    for (this, that) in inputs.iter().zip(others.iter()) {
        if !is_same_name(first, this, second, that) {
            return false;
        }
    }
    true
}

fn is_same_item_use(
    first: &[u64],
    item: &ResolvedItem,
    second: &[u64],
    other: &ResolvedItem,
) -> bool
    ensures { IsTrue result ↔ (uses_of first.now item.now ≡ uses_of second.now other.now) }
{
    are_same_names(first, &item.inputs, second, &other.inputs)
        && are_same_numbers(first, &item.functions, second, &other.functions)
}

/// A model without fault: its items with their numbers, what they are resolved to, and which of
/// them checks and flags reach.
#[derive(Clone, Copy)]
pub(crate) struct Reached<'a> {
    pub(crate) numbers: &'a [u64],
    pub(crate) items: &'a [Item],
    pub(crate) resolved: &'a [ResolvedItem],
    pub(crate) used: &'a [usize],
}

fn is_same_use(first: &Reached, index: usize, second: &Reached, other: usize) -> bool
    ensures { IsTrue result
        ↔ (uses_at first.now.numbers.now first.now.resolved.now index
        ≡ uses_at second.now.numbers.now second.now.resolved.now other) }
{
    match (first.resolved.get(index), second.resolved.get(other)) {
        (Some(a), Some(b)) => is_same_item_use(first.numbers, a, second.numbers, b),
        (None, None) => true,
        (Some(_), None) => false,
        (None, Some(_)) => false,
    }
}

// Whether the reached items use the same.
pub(crate) fn are_same_uses(first: &Reached, second: &Reached) -> bool
    ensures { IsTrue result
        ↔ (map (uses_at first.now.numbers.now first.now.resolved.now) first.now.used.now
        ≡ map (uses_at second.now.numbers.now second.now.resolved.now)
        second.now.used.now) }
{
    if first.used.len() != second.used.len() {
        return false;
    }
    for index in 0..first.used.len() {
        if !is_same_use(first, first.used[index], second, second.used[index]) {
            return false;
        }
    }
    true
}
