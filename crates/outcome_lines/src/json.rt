//! The lines of `--json`, of a table and of one evaluation.

ghost use Rattle.std.specs.Prelude.{◌≡◌, ◌++◌, ◌==◌, OnOk, map};
ghost use Rattle.std.specs.List.{flat_map, after_first, position};
ghost use Rattle.escaped_texts.specs.Strings.{string_text};
ghost use Rattle.outcome_lines.specs.Records.{model_outcome_of, test_of};
ghost use Rattle.outcome_lines.specs.Json.{array_text, outcome_line, json_test_lines, kind_text, proposition_text, state_object, condition_members, evaluation_members, refused_outcome_line, eval_lines};

use crate::json_parts::{
    bool_text, put_observation_members, put_refusal_member, put_refused_line, put_subject_front,
};
use crate::record::{ModelOutcome, Subject, TestResult};
use escaped_texts::{put_number, put_string};
use outcome_texts::put_refusal;
use std::alloc::{AllocError, Global};
use text_values::{Name, Quantifier, put_between, put_bytes};
use verdict::{CountedState, Evaluation, Outcome, OutcomeResult, Refusal};

#[tactic(auto, unfolding(crate::specs::Json::kind_text))]
fn kind_text(kind: Quantifier) -> &'static [u8]
    ensures { result.now ≡ kind_text kind }
{
    match kind {
        Quantifier::Exists => b"exists",
        Quantifier::NotExists => b"~exists",
        Quantifier::Forall => b"forall",
    }
}

// Where the first `(` stands.
fn first_parenthesis(condition: &[u8]) -> Option<usize>
    ensures { result ≡ position (λ b. b == 40) condition.now }
{
    condition.iter().position(|byte| *byte == b'(')
}

// What stands behind the first `(`.
fn behind_parenthesis(condition: &[u8]) -> &[u8]
    ensures { result.now ≡ after_first (λ b. b == 40) condition.now }
{
    match first_parenthesis(condition) {
        Some(index) => &condition[index + 1..],
        None => &[],
    }
}

// What stands in the parentheses of a printed condition.
fn proposition_text(condition: &[u8]) -> &[u8]
    ensures { result.now ≡ proposition_text condition.now }
{
    let behind = behind_parenthesis(condition);
    &behind[..behind.len().saturating_sub(1)]
}

#[tactic(auto, unfolding(crate::specs::Json::condition_members))]
fn put_condition(text: &mut Vec<u8>, kind: Quantifier, condition: &[u8]) -> Result<(), AllocError>
    ensures { OnOk result (text.new.items
        ≡ text.old.items ++ condition_members kind condition.now) }
{
    put_bytes(text, b",\"kind\":")?;
    put_string(text, kind_text(kind))?;
    put_bytes(text, b",\"condition\":")?;
    put_string(text, proposition_text(condition))
}

#[tactic(auto, unfolding(crate::specs::Json::state_object))]
fn put_state(text: &mut Vec<u8>, state: &CountedState) -> Result<(), AllocError>
    ensures { OnOk result (text.new.items ≡ text.old.items ++ state_object state.now) }
{
    put_bytes(text, b"{\"state\":")?;
    put_string(text, &state.text)?;
    put_bytes(text, b",\"count\":")?;
    put_number(text, state.count)?;
    put_bytes(text, b",\"holds\":")?;
    put_bytes(text, bool_text(state.holds))?;
    put_bytes(text, b"}")
}

#[tactic(auto, unfolding(crate::specs::Json::array_text))]
fn put_states(text: &mut Vec<u8>, states: &[CountedState]) -> Result<(), AllocError>
    ensures { OnOk result (text.new.items
        ≡ text.old.items ++ array_text (map state_object states.now)) }
{
    put_bytes(text, b"[")?;
    for (index, state) in states.iter().enumerate() {
        put_between(text, b",", index)?;
        put_state(text, state)?;
    }
    put_bytes(text, b"]")
}

#[tactic(auto, unfolding(crate::specs::Json::array_text))]
fn put_flags(text: &mut Vec<u8>, flags: &[Name]) -> Result<(), AllocError>
    ensures { OnOk result (text.new.items
        ≡ text.old.items ++ array_text (map string_text flags.now)) }
{
    put_bytes(text, b"[")?;
    for (index, flag) in flags.iter().enumerate() {
        put_between(text, b",", index)?;
        put_string(text, flag.as_bytes())?;
    }
    put_bytes(text, b"]")
}

#[tactic(auto, unfolding(crate::specs::Json::evaluation_members))]
fn put_evaluation(text: &mut Vec<u8>, found: &Evaluation) -> Result<(), AllocError>
    ensures { OnOk result (text.new.items ≡ text.old.items ++ evaluation_members found.now) }
{
    put_bytes(text, b",\"ok\":")?;
    put_bytes(text, bool_text(found.ok))?;
    put_observation_members(text, found)?;
    put_bytes(text, b",\"flags\":")?;
    put_flags(text, &found.flags)?;
    put_bytes(text, b",\"states\":")?;
    put_states(text, &found.states)
}

#[tactic(auto, unfolding(crate::specs::Json::refused_outcome_line))]
fn put_refused_outcome(
    alloc: Global,
    text: &mut Vec<u8>,
    subject: &Subject<'_>,
    refusal: Refusal,
) -> Result<(), AllocError>
    ensures { OnOk result (text.new.items
        ≡ text.old.items ++ refused_outcome_line subject.now refusal) }
{
    let mut rule = Vec::new(alloc);
    put_refusal(&mut rule, refusal)?;
    put_subject_front(text, subject)?;
    put_refusal_member(text, &rule)?;
    put_bytes(text, b"}\n")
}

/// Appends the line of one evaluation: the condition, the observation, the flags and the states
/// with their counts; or that of the refusal. Errors: want of memory.
pub fn put_eval_json(
    alloc: Global,
    text: &mut Vec<u8>,
    subject: &Subject<'_>,
    outcome: &Outcome,
) -> Result<(), AllocError>
    ensures { OnOk result (text.new.items ≡ text.old.items ++ eval_lines subject.now outcome.now) }
{
    match &outcome.result {
        OutcomeResult::Refused(refusal) => put_refused_outcome(alloc, text, subject, *refusal),
        OutcomeResult::Evaluated(found) => {
            put_subject_front(text, subject)?;
            put_condition(text, outcome.kind, &outcome.condition)?;
            put_evaluation(text, found)?;
            put_bytes(text, b"}\n")
        }
    }
}

fn put_outcome<'a>(
    alloc: Global,
    text: &mut Vec<u8>,
    path: &'a [u8],
    test: &'a [u8],
    given: &ModelOutcome<'a>,
) -> Result<(), AllocError>
    ensures { OnOk result (text.new.items
        ≡ text.old.items ++ outcome_line path.now test.now (model_outcome_of given.now)) }
{
    let subject = Subject {
        path,
        test,
        model: given.model,
    };
    put_eval_json(alloc, text, &subject, given.outcome)
}

fn put_outcomes<'a>(
    alloc: Global,
    text: &mut Vec<u8>,
    path: &'a [u8],
    test: &'a [u8],
    outcomes: &'a [ModelOutcome<'a>],
) -> Result<(), AllocError>
    ensures { OnOk result (text.new.items
        ≡ text.old.items
        ++ flat_map (λ o. outcome_line path.now test.now (model_outcome_of o)) outcomes.now) }
{
    for given in outcomes {
        put_outcome(alloc, text, path, test, given)?;
    }
    Ok(())
}

/// Appends the lines of a test in a table: one for each model, or the one of a refused text.
/// Errors: want of memory.
pub fn put_test_json(
    alloc: Global,
    text: &mut Vec<u8>,
    test: &TestResult<'_>,
) -> Result<(), AllocError>
    ensures { OnOk result (text.new.items ≡ text.old.items ++ json_test_lines (test_of test.now)) }
{
    match test {
        TestResult::Refused(refusal) => put_refused_line(text, refusal),
        TestResult::Tested(path, name, outcomes) => put_outcomes(alloc, text, path, name, outcomes),
    }
}
