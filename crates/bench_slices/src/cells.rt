//! Cells with one slice.

ghost use Rattle.std.specs.Prelude.{◌≡◌, ◌↔◌, IsTrue, map};
ghost use Rattle.text_values.specs.TestValue.{content_of, thread_steps};
ghost use Rattle.bench_slices.specs.Slices.{slice, slice_of_items};

use crate::lists::{are_same_items, are_same_numbers};
use crate::uses::{Reached, are_same_uses};
use bench_texts::{NamedModel, Reading};
use text_equality::{are_same_entries, are_same_places, are_same_steps, is_same_condition};
use text_values::{Test, Thread};

fn are_same_threads(first: &[Thread], second: &[Thread]) -> bool
    ensures { IsTrue result ↔ (map thread_steps first.now ≡ map thread_steps second.now) }
{
    if first.len() != second.len() {
        return false;
    }
    for (this, that) in first.iter().zip(second.iter()) {
        if !are_same_steps(&this.steps, &that.steps) {
            return false;
        }
    }
    true
}

/// Whether two tests are equal, wherever they lie in memory.
pub fn is_same_test(first: &Test, second: &Test) -> bool
    ensures { IsTrue result ↔ (content_of first.now ≡ content_of second.now) }
{
    first.name.is_same(&second.name)
        && are_same_entries(&first.init, &second.init)
        && are_same_threads(&first.threads, &second.threads)
        && are_same_places(&first.observed, &second.observed)
        && is_same_condition(&first.condition, &second.condition)
}

// Whether two tests have one slice under models without fault.
fn is_same_reached(test: &Test, first: &Reached, other: &Test, second: &Reached) -> bool
    ensures { IsTrue result
        ↔ (slice_of_items (content_of test.now) first.now.numbers.now first.now.items.now
        first.now.resolved.now first.now.used.now
        ≡ slice_of_items (content_of other.now) second.now.numbers.now second.now.items.now
        second.now.resolved.now second.now.used.now) }
{
    is_same_test(test, other)
        && are_same_numbers(first.numbers, first.used, second.numbers, second.used)
        && are_same_items(first.items, first.used, second.items, second.used)
        && are_same_uses(first, second)
}

/// Whether the verdict of a test under a model depends on the same as that of another test under
/// another model.
pub fn is_same_slice(test: &Test, model: &NamedModel, other: &Test, under: &NamedModel) -> bool
    ensures { IsTrue result
        ↔ (slice (content_of test.now) model.now ≡ slice (content_of other.now) under.now) }
{
    match (model.reading(), under.reading()) {
        (Reading::Faulty(a), Reading::Faulty(b)) => {
            *a == *b && is_same_condition(&test.condition, &other.condition)
        }
        (
            Reading::Sound { resolved, used },
            Reading::Sound {
                resolved: others,
                used: reached,
            },
        ) => {
            let first = Reached {
                numbers: model.numbers(),
                items: &model.text().items,
                resolved: &resolved.items,
                used,
            };
            let second = Reached {
                numbers: under.numbers(),
                items: &under.text().items,
                resolved: &others.items,
                used: reached,
            };
            is_same_reached(test, &first, other, &second)
        }
        (Reading::Faulty(_), Reading::Sound { .. }) => false,
        (Reading::Sound { .. }, Reading::Faulty(_)) => false,
    }
}
