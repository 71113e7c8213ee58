//! The parts that differ between two versions of a test.

ghost use Rattle.std.specs.Prelude.{◌≡◌, ◌<◌, ◌+◌, ◌++◌, [], length, take, drop, All, IfOk, OnOk, IfSome, IfNone, IsTrue, IsFalse};
ghost use Rattle.text_values.specs.TestValue.{content_of};
ghost use Rattle.bench_texts.specs.BenchTexts.{with_init, with_condition};
ghost use Rattle.watch_edits.specs.Changes.{element_at};
ghost use Rattle.watch_edits.specs.Parts.{with_parts, with_threads, Differs, HasSameShape};

use std::alloc::{AllocError, Global};
use text_equality::{are_same_entries, are_same_places, are_same_steps, is_same_condition};
use text_values::Test;

/// A part of a test.
#[derive(Clone, Copy, Debug, PartialEq, Eq)]
pub enum TestPart {
    /// The initial values.
    Init,
    /// The thread of that number, from 0 on.
    Thread(usize),
    /// The condition.
    Condition,
    /// The list of `locations`.
    Locations,
}

// Whether the two versions have the same name and as many threads.
fn has_same_shape(old: &Test, new: &Test) -> bool
    ensures yes { IsTrue result → HasSameShape (content_of old.now) (content_of new.now) }
    ensures no { IsFalse result → HasSameShape (content_of old.now) (content_of new.now) → ⊥ }
{
    old.name.is_same(&new.name) && old.threads.len() == new.threads.len()
}

fn push_init(old: &Test, new: &Test, parts: &mut Vec<TestPart>) -> Result<(), AllocError>
    requires { parts.old.items ≡ [] }
    ensures put { OnOk result (with_parts (content_of new.now) parts.new.items (content_of old.now)
        ≡ with_init (content_of new.now).init (content_of old.now)) }
    ensures differ { OnOk result (All (Differs (content_of old.now) (content_of new.now))
        parts.new.items) }
{
    if !are_same_entries(&old.init, &new.init) {
        parts.push(TestPart::Init)?;
    }
    Ok(())
}

// Whether the thread of that number is the same.
#[tactic(auto, using(crate::proofs::Ends::same_threads, crate::proofs::Ends::same_steps))]
fn has_same_thread(old: &Test, new: &Test, index: usize) -> bool
    requires old { index < length (content_of old.now).threads }
    requires new { index < length (content_of new.now).threads }
    ensures yes { IsTrue result
        → element_at index (content_of old.now).threads
        ≡ element_at index (content_of new.now).threads }
    ensures no { IsFalse result
        → element_at index (content_of old.now).threads
        ≡ element_at index (content_of new.now).threads → ⊥ }
{
    let this = &old.threads[index];
    let that = &new.threads[index];
    are_same_steps(&this.steps, &that.steps)
}

#[tactic(auto, using(crate::proofs::Steps::put_last, crate::proofs::Made::thread_set, crate::proofs::Made::thread_kept))]
fn push_thread(
    old: &Test,
    new: &Test,
    index: usize,
    parts: &mut Vec<TestPart>,
) -> Result<(), AllocError>
    requires old { index < length (content_of old.now).threads }
    requires new { index < length (content_of new.now).threads }
    requires put { with_parts (content_of new.now) parts.old.items (content_of old.now)
        ≡ with_threads
        (take index (content_of new.now).threads ++ drop index (content_of old.now).threads)
        (with_init (content_of new.now).init (content_of old.now)) }
    requires differ { All (Differs (content_of old.now) (content_of new.now)) parts.old.items }
    ensures put { OnOk result (with_parts (content_of new.now) parts.new.items (content_of old.now)
        ≡ with_threads
        (take (index + 1) (content_of new.now).threads
        ++ drop (index + 1) (content_of old.now).threads)
        (with_init (content_of new.now).init (content_of old.now))) }
    ensures differ { OnOk result (All (Differs (content_of old.now) (content_of new.now))
        parts.new.items) }
{
    if !has_same_thread(old, new, index) {
        parts.push(TestPart::Thread(index))?;
    }
    Ok(())
}

fn push_threads(old: &Test, new: &Test, parts: &mut Vec<TestPart>) -> Result<(), AllocError>
    requires shape { HasSameShape (content_of old.now) (content_of new.now) }
    requires put { with_parts (content_of new.now) parts.old.items (content_of old.now)
        ≡ with_init (content_of new.now).init (content_of old.now) }
    requires differ { All (Differs (content_of old.now) (content_of new.now)) parts.old.items }
    ensures put { OnOk result (with_parts (content_of new.now) parts.new.items (content_of old.now)
        ≡ with_threads (content_of new.now).threads
        (with_init (content_of new.now).init (content_of old.now))) }
    ensures differ { OnOk result (All (Differs (content_of old.now) (content_of new.now))
        parts.new.items) }
{
    for index in 0..old.threads.len() {
        push_thread(old, new, index, parts)?;
    }
    Ok(())
}

#[tactic(auto, using(crate::proofs::Steps::put_last))]
fn push_condition(old: &Test, new: &Test, parts: &mut Vec<TestPart>) -> Result<(), AllocError>
    requires put { with_parts (content_of new.now) parts.old.items (content_of old.now)
        ≡ with_threads (content_of new.now).threads
        (with_init (content_of new.now).init (content_of old.now)) }
    requires differ { All (Differs (content_of old.now) (content_of new.now)) parts.old.items }
    ensures put { OnOk result (with_parts (content_of new.now) parts.new.items (content_of old.now)
        ≡ with_condition ((content_of new.now).quantifier, (content_of new.now).condition)
        (with_threads (content_of new.now).threads
        (with_init (content_of new.now).init (content_of old.now)))) }
    ensures differ { OnOk result (All (Differs (content_of old.now) (content_of new.now))
        parts.new.items) }
{
    if !is_same_condition(&old.condition, &new.condition) {
        parts.push(TestPart::Condition)?;
    }
    Ok(())
}

#[tactic(auto, using(crate::proofs::Steps::put_last))]
fn push_locations(old: &Test, new: &Test, parts: &mut Vec<TestPart>) -> Result<(), AllocError>
    requires shape { HasSameShape (content_of old.now) (content_of new.now) }
    requires put { with_parts (content_of new.now) parts.old.items (content_of old.now)
        ≡ with_condition ((content_of new.now).quantifier, (content_of new.now).condition)
        (with_threads (content_of new.now).threads
        (with_init (content_of new.now).init (content_of old.now))) }
    requires differ { All (Differs (content_of old.now) (content_of new.now)) parts.old.items }
    ensures put { OnOk result (with_parts (content_of new.now) parts.new.items (content_of old.now)
        ≡ content_of new.now) }
    ensures differ { OnOk result (All (Differs (content_of old.now) (content_of new.now))
        parts.new.items) }
{
    if !are_same_places(&old.observed, &new.observed) {
        parts.push(TestPart::Locations)?;
    }
    Ok(())
}

/// The parts of the new version that differ. None where the versions differ in the name or in the
/// number of threads. Errors: out of memory.
pub fn changed_parts(
    alloc: Global,
    old: &Test,
    new: &Test,
) -> Result<Option<Vec<TestPart>>, AllocError>
    // The parts make the new version of the old one.
    ensures put { IfOk result (λ r. IfSome r (λ ps. with_parts (content_of new.now) ps.items
        (content_of old.now) ≡ content_of new.now)) }
    // Each of them differs.
    ensures differ { IfOk result (λ r.
        IfSome r (λ ps. All (Differs (content_of old.now) (content_of new.now)) ps.items)) }
    // None is answered only where no parts make it.
    ensures none { IfOk result (λ r.
        IfNone r (HasSameShape (content_of old.now) (content_of new.now) → ⊥)) }
{
    if !has_same_shape(old, new) {
        return Ok(None);
    }
    let mut parts = Vec::new(alloc);
    push_init(old, new, &mut parts)?;
    push_threads(old, new, &mut parts)?;
    push_condition(old, new, &mut parts)?;
    push_locations(old, new, &mut parts)?;
    Ok(Some(parts))
}
