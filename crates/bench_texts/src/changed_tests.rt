//! Copies of tests with one part changed.

ghost use Rattle.std.specs.Prelude.{◌≡◌, ◌<◌, IfOk, length, vec_len};
ghost use Rattle.text_values.specs.TestValue.{content_of, thread_steps, formula_of};
ghost use Rattle.bench_texts.specs.BenchTexts.{with_init, with_thread, with_condition, with_observed};

use std::alloc::{AllocError, Global};
use std::mem::{drop, replace};
use text_copies::copied_test;
use text_values::{Condition, InitEntry, Place, Test, Thread};

// The test with other initial values. Errors: want of memory.
pub(crate) fn test_with_init(
    alloc: Global,
    test: &Test,
    init: Vec<InitEntry>,
) -> Result<Test, AllocError>
    ensures { IfOk result (λ t. content_of t ≡ with_init init.items (content_of test.now)) }
{
    let mut copy = copied_test(alloc, test)?;
    drop(replace(&mut copy.init, init));
    Ok(copy)
}

// Puts a thread in the place of the one of that number.
#[tactic(auto, using(crate::proofs::Lists::list_lemmas))]
fn replace_thread(test: &mut Test, thread: usize, other: Thread)
    requires { thread < vec_len test.old.threads }
    ensures { content_of test.new ≡ with_thread thread (thread_steps other) (content_of test.old) }
{
    drop(replace(&mut test.threads[thread], other));
}

// The test with another thread in the place of the one of that number. Errors: want of memory.
pub(crate) fn test_with_thread(
    alloc: Global,
    test: &Test,
    thread: usize,
    other: Thread,
) -> Result<Test, AllocError>
    requires { thread < length (content_of test.now).threads }
    ensures { IfOk result (λ t. content_of t
        ≡ with_thread thread (thread_steps other) (content_of test.now)) }
{
    let mut copy = copied_test(alloc, test)?;
    replace_thread(&mut copy, thread, other);
    Ok(copy)
}

// The test with another condition. Errors: want of memory.
pub(crate) fn test_with_condition(
    alloc: Global,
    test: &Test,
    condition: Condition,
) -> Result<Test, AllocError>
    ensures { IfOk result (λ t. content_of t
        ≡ with_condition (condition.quantifier, formula_of condition.proposition)
        (content_of test.now)) }
{
    let mut copy = copied_test(alloc, test)?;
    drop(replace(&mut copy.condition, condition));
    Ok(copy)
}

// The test with another list of observables. Errors: want of memory.
pub(crate) fn test_with_observed(
    alloc: Global,
    test: &Test,
    observed: Vec<Place>,
) -> Result<Test, AllocError>
    ensures { IfOk result (λ t. content_of t ≡ with_observed observed.items (content_of test.now)) }
{
    let mut copy = copied_test(alloc, test)?;
    drop(replace(&mut copy.observed, observed));
    Ok(copy)
}
