//! How a cell is shown.

ghost use Rattle.std.specs.Prelude.{◌≡◌, ◌++◌, IfOk, OnOk};
ghost use Rattle.report_details.specs.Marks.{sign, observation_class, result_class, numbers, word, evaluation_mark, result_mark, apart_word, test_class};

use crate::around::put_if;
use crate::groups::has_refusal;
use escaped_texts::{put_element, put_escaped};
use outcome_texts::{observation_word, put_refusal};
use std::alloc::{AllocError, Global};
use text_values::{put_bytes, put_decimal};
use verdict::{Evaluation, Observation, Outcome, OutcomeResult};

#[tactic(auto, unfolding(crate::specs::Marks::sign))]
fn sign(observation: Observation) -> &'static [u8]
    ensures { result.now ≡ sign observation }
{
    match observation {
        Observation::Never => b"&#9675; ",
        Observation::Sometimes => b"&#9680; ",
        Observation::Always => b"&#9679; ",
    }
}

#[tactic(auto, unfolding(crate::specs::Marks::observation_class))]
fn observation_class(observation: Observation) -> &'static [u8]
    ensures { result.now ≡ observation_class observation }
{
    match observation {
        Observation::Never => b"N",
        Observation::Sometimes => b"S",
        Observation::Always => b"A",
    }
}

/// The class of a cell, which is its colour.
#[tactic(auto, unfolding(crate::specs::Marks::result_class))]
pub fn result_class(found: &OutcomeResult) -> &'static [u8]
    ensures { result.now ≡ result_class found.now }
{
    match found {
        OutcomeResult::Refused(_) => b"X",
        OutcomeResult::Evaluated(found) => observation_class(found.observation),
    }
}

#[tactic(auto, unfolding(crate::specs::Marks::numbers))]
fn numbers(alloc: Global, found: &Evaluation) -> Result<Vec<u8>, AllocError>
    ensures { IfOk result (λ v. v.items ≡ numbers found.now) }
{
    let mut text = Vec::new(alloc);
    put_bytes(&mut text, b" ")?;
    put_decimal(&mut text, found.positive)?;
    put_bytes(&mut text, b" ")?;
    put_decimal(&mut text, found.negative)?;
    Ok(text)
}

fn put_word(text: &mut Vec<u8>, observation: Observation) -> Result<(), AllocError>
    ensures { OnOk result (text.new.items ≡ text.old.items ++ word observation) }
{
    put_element(text, b"i", &[], observation_word(observation))
}

#[tactic(auto, unfolding(crate::specs::Marks::evaluation_mark))]
fn put_evaluation(alloc: Global, text: &mut Vec<u8>, found: &Evaluation) -> Result<(), AllocError>
    ensures { OnOk result (text.new.items ≡ text.old.items ++ evaluation_mark found.now) }
{
    let numbers = numbers(alloc, found)?;
    put_bytes(text, sign(found.observation))?;
    put_word(text, found.observation)?;
    put_escaped(text, &numbers)
}

/// Appends what is found of a test: the observation with its numbers, or the number of the refusal.
/// Errors: want of memory.
#[tactic(auto, unfolding(crate::specs::Marks::result_mark))]
pub fn put_result(
    alloc: Global,
    text: &mut Vec<u8>,
    found: &OutcomeResult,
) -> Result<(), AllocError>
    ensures { OnOk result (text.new.items ≡ text.old.items ++ result_mark found.now) }
{
    match found {
        OutcomeResult::Refused(refusal) => {
            let mut shown = Vec::new(alloc);
            put_refusal(&mut shown, *refusal)?;
            put_escaped(text, &shown)
        }
        OutcomeResult::Evaluated(found) => put_evaluation(alloc, text, found),
    }
}

#[tactic(auto, unfolding(crate::specs::Marks::apart_word))]
fn apart_word(is_apart: bool) -> &'static [u8]
    ensures { result.now ≡ apart_word is_apart }
{
    if is_apart { b"differ" } else { b"same" }
}

/// The class of a test's row, by which the filters go. Errors: want of memory.
#[tactic(auto, unfolding(crate::specs::Marks::test_class))]
pub fn test_class(
    alloc: Global,
    outcomes: &[Outcome],
    is_apart: bool,
) -> Result<Vec<u8>, AllocError>
    ensures { IfOk result (λ v. v.items ≡ test_class outcomes.now is_apart) }
{
    let mut class = Vec::from_slice(alloc, apart_word(is_apart))?;
    put_if(&mut class, !has_refusal(outcomes), b" fine")?;
    Ok(class)
}
