//! Which models say the same of a test.

ghost use Rattle.std.specs.Prelude.{◌≡◌, ◌++◌, IfOk, OnOk};
ghost use Rattle.report_details.specs.Groups.{first_like, groups_of, is_other, has_other, are_told_apart, is_refusal, has_refusal, letter_number, letter, key, keys_text};

use outcome_texts::{Shown, cells_differ};
use std::alloc::{AllocError, Global};
use text_values::{put_bytes, put_decimal};
use verdict::{Outcome, OutcomeResult};

// The index of the first of these outcomes that does not differ from another.
fn first_like(alloc: Global, outcomes: &[Outcome], outcome: &Outcome) -> Result<usize, AllocError>
    ensures { IfOk result (λ index. index ≡ first_like 0 outcomes.now outcome.now) }
{
    for (index, other) in outcomes.iter().enumerate() {
        if !cells_differ(alloc, Shown::Settled(other), Shown::Settled(outcome))? {
            return Ok(index);
        }
    }
    Ok(outcomes.len())
}

/// For each model the first model that says the same of the test. Errors: want of memory.
pub fn groups_of(alloc: Global, outcomes: &[Outcome]) -> Result<Vec<usize>, AllocError>
    ensures { IfOk result (λ v. v.items ≡ groups_of outcomes.now) }
{
    let mut groups = Vec::with_capacity(alloc, outcomes.len())?;
    for outcome in outcomes {
        groups.push(first_like(alloc, outcomes, outcome)?)?;
    }
    Ok(groups)
}

/// Whether a group is another than that of the first model.
pub fn is_other(group: usize) -> bool
    ensures { result ≡ is_other group }
{
    group != 0
}

/// Whether one of these groups is another than that of the first model.
pub fn has_other(groups: &[usize]) -> bool
    ensures { result ≡ has_other groups.now }
{
    groups.iter().any(|group| is_other(*group))
}

/// Whether two of the models say something else of the test. Errors: want of memory.
pub fn is_told_apart(alloc: Global, outcomes: &[Outcome]) -> Result<bool, AllocError>
    ensures { IfOk result (λ b. b ≡ are_told_apart outcomes.now) }
{
    let groups = groups_of(alloc, outcomes)?;
    Ok(has_other(&groups))
}

fn is_refusal(found: &OutcomeResult) -> bool
    ensures { result ≡ is_refusal found.now }
{
    match found {
        OutcomeResult::Refused(_) => true,
        OutcomeResult::Evaluated(_) => false,
    }
}

/// Whether a model refuses the test, or has a fault.
pub fn has_refusal(outcomes: &[Outcome]) -> bool
    ensures { result ≡ has_refusal outcomes.now }
{
    outcomes.iter().any(|outcome| is_refusal(&outcome.result))
}

fn put_letter_number(text: &mut Vec<u8>, group: usize) -> Result<(), AllocError>
    ensures { OnOk result (text.new.items ≡ text.old.items ++ letter_number group) }
{
    if group < 26 {
        Ok(())
    } else {
        put_decimal(text, (group / 26) as u64)
    }
}

/// Appends the letter of a group, from the 27th on with a number. Errors: want of memory.
#[tactic(auto, unfolding(crate::specs::Groups::letter))]
pub fn put_letter(text: &mut Vec<u8>, group: usize) -> Result<(), AllocError>
    ensures { OnOk result (text.new.items ≡ text.old.items ++ letter group) }
{
    put_bytes(text, &[b'a' + (group % 26) as u8])?;
    put_letter_number(text, group)
}

#[tactic(auto, unfolding(crate::specs::Groups::key))]
fn put_key(text: &mut Vec<u8>, group: usize) -> Result<(), AllocError>
    ensures { OnOk result (text.new.items ≡ text.old.items ++ key group) }
{
    put_letter(text, group)?;
    put_bytes(text, b" ")
}

/// The letters of the groups. Errors: want of memory.
pub fn keys_text(alloc: Global, groups: &[usize]) -> Result<Vec<u8>, AllocError>
    ensures { IfOk result (λ v. v.items ≡ keys_text groups.now) }
{
    let mut keys = Vec::new(alloc);
    for group in groups {
        put_key(&mut keys, *group)?;
    }
    Ok(keys)
}
