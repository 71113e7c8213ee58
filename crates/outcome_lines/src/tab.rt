//! The lines of `--tab`, of a table.

ghost use Rattle.std.specs.Prelude.{◌≡◌, ◌++◌, OnOk, codes};
ghost use Rattle.std.specs.List.{flat_map};
ghost use Rattle.outcome_texts.specs.Log.{refusal_text};
ghost use Rattle.outcome_lines.specs.Records.{model_outcome_of, test_of};
ghost use Rattle.outcome_lines.specs.Tab.{two_fields, subject_fields, observation_fields, result_fields, refused_line, result_line, outcome_line, tab_test_lines};

use crate::record::{ModelOutcome, Subject, TestResult, TextRefusal};
use escaped_texts::put_field;
use outcome_texts::{observation_word, put_refusal};
use std::alloc::AllocError;
use text_values::{put_bytes, put_decimal};
use verdict::{Evaluation, OutcomeResult, Refusal};

/// Appends a path and the name of a test as two fields. Errors: want of memory.
#[tactic(auto, unfolding(crate::specs::Tab::two_fields))]
pub fn put_two_fields(text: &mut Vec<u8>, path: &[u8], test: &[u8]) -> Result<(), AllocError>
    ensures { OnOk result (text.new.items ≡ text.old.items ++ two_fields path.now test.now) }
{
    put_field(text, path)?;
    put_bytes(text, b"\t")?;
    put_field(text, test)
}

#[tactic(auto, unfolding(crate::specs::Tab::subject_fields))]
fn put_subject(text: &mut Vec<u8>, subject: &Subject<'_>) -> Result<(), AllocError>
    ensures { OnOk result (text.new.items ≡ text.old.items ++ subject_fields subject.now) }
{
    put_two_fields(text, subject.path, subject.test)?;
    put_bytes(text, b"\t")?;
    put_field(text, subject.model)
}

#[tactic(auto, unfolding(crate::specs::Tab::observation_fields))]
fn put_observation(text: &mut Vec<u8>, found: &Evaluation) -> Result<(), AllocError>
    ensures { OnOk result (text.new.items ≡ text.old.items ++ observation_fields found.now) }
{
    put_bytes(text, observation_word(found.observation))?;
    put_bytes(text, b"\t")?;
    put_decimal(text, found.positive)?;
    put_bytes(text, b"\t")?;
    put_decimal(text, found.negative)
}

fn put_refused_fields(text: &mut Vec<u8>, refusal: Refusal) -> Result<(), AllocError>
    ensures { OnOk result (text.new.items
        ≡ text.old.items ++ refusal_text refusal ++ codes "\t-\t-") }
{
    put_refusal(text, refusal)?;
    put_bytes(text, b"\t-\t-")
}

fn put_result(text: &mut Vec<u8>, given: &OutcomeResult) -> Result<(), AllocError>
    ensures { OnOk result (text.new.items ≡ text.old.items ++ result_fields given.now) }
{
    match given {
        OutcomeResult::Refused(refusal) => put_refused_fields(text, *refusal),
        OutcomeResult::Evaluated(found) => put_observation(text, found),
    }
}

/// Appends the line of a refused text. Errors: want of memory.
#[tactic(auto, unfolding(crate::specs::Tab::refused_line))]
pub fn put_refused_line(text: &mut Vec<u8>, refusal: &TextRefusal<'_>) -> Result<(), AllocError>
    ensures { OnOk result (text.new.items ≡ text.old.items ++ refused_line refusal.now) }
{
    put_field(text, refusal.path)?;
    put_bytes(text, b"\t-\t-\t")?;
    put_field(text, refusal.rule)?;
    put_bytes(text, b"\t")?;
    put_decimal(text, refusal.offset)?;
    put_bytes(text, b"\t-\n")
}

#[tactic(auto, unfolding(crate::specs::Tab::result_line))]
fn put_result_line(
    text: &mut Vec<u8>,
    subject: &Subject<'_>,
    found: &OutcomeResult,
) -> Result<(), AllocError>
    ensures { OnOk result (text.new.items ≡ text.old.items ++ result_line subject.now found.now) }
{
    put_subject(text, subject)?;
    put_bytes(text, b"\t")?;
    put_result(text, found)?;
    put_bytes(text, b"\n")
}

fn put_outcome<'a>(
    text: &mut Vec<u8>,
    path: &'a [u8],
    test: &'a [u8],
    given: &ModelOutcome<'a>,
) -> Result<(), AllocError>
    ensures { OnOk result (text.new.items
        ≡ text.old.items ++ outcome_line path.now test.now (model_outcome_of given.now)) }
{
    let subject = Subject {
        path,
        test,
        model: given.model,
    };
    let outcome = given.outcome;
    put_result_line(text, &subject, &outcome.result)
}

fn put_outcomes<'a>(
    text: &mut Vec<u8>,
    path: &'a [u8],
    test: &'a [u8],
    outcomes: &'a [ModelOutcome<'a>],
) -> Result<(), AllocError>
    ensures { OnOk result (text.new.items
        ≡ text.old.items
        ++ flat_map (λ o. outcome_line path.now test.now (model_outcome_of o)) outcomes.now) }
{
    for given in outcomes {
        put_outcome(text, path, test, given)?;
    }
    Ok(())
}

/// Appends the lines of a test in a table: one for each model, or the one of a refused text.
/// Errors: want of memory.
pub fn put_test_tab(text: &mut Vec<u8>, test: &TestResult<'_>) -> Result<(), AllocError>
    ensures { OnOk result (text.new.items ≡ text.old.items ++ tab_test_lines (test_of test.now)) }
{
    match test {
        TestResult::Refused(refusal) => put_refused_line(text, refusal),
        TestResult::Tested(path, name, outcomes) => put_outcomes(text, path, name, outcomes),
    }
}
