//! Outcomes as they are printed.

ghost use Rattle.std.specs.Prelude.{◌≡◌, ◌++◌, OnOk, IfOk};
ghost use Rattle.std.specs.List.{flat_map};
ghost use Rattle.outcome_texts.specs.Log.{kind_word, observation_word, met_word, state_line, flag_line, state_lines, witness_lines, observation_text, observation_label, condition_line, observation_line, evaluation_lines, head_line, refusal_text, refusal_line, log_of};

use std::alloc::{AllocError, Global};
use text_values::{Name, Quantifier, put_bytes, put_decimal};
use verdict::{CountedState, Evaluation, Observation, Outcome, OutcomeResult, Refusal};

#[tactic(auto, unfolding(crate::specs::Log::kind_word))]
fn kind_word(kind: Quantifier) -> &'static [u8]
    ensures { result.now ≡ kind_word kind }
{
    match kind {
        Quantifier::Exists => b"Allowed",
        Quantifier::NotExists => b"Forbidden",
        Quantifier::Forall => b"Required",
    }
}

/// The word of an observation.
#[tactic(auto, unfolding(crate::specs::Log::observation_word))]
pub fn observation_word(observation: Observation) -> &'static [u8]
    ensures { result.now ≡ observation_word observation }
{
    match observation {
        Observation::Never => b"Never",
        Observation::Sometimes => b"Sometimes",
        Observation::Always => b"Always",
    }
}

#[tactic(auto, unfolding(crate::specs::Log::met_word))]
fn met_word(ok: bool) -> &'static [u8]
    ensures { result.now ≡ met_word ok }
{
    if ok { b"Ok" } else { b"No" }
}

/// Appends the letter and the number of a refusal. Errors: want of memory.
pub fn put_refusal(text: &mut Vec<u8>, refusal: Refusal) -> Result<(), AllocError>
    ensures { OnOk result (text.new.items ≡ text.old.items ++ refusal_text refusal) }
{
    let number = match refusal {
        Refusal::Model(fault) => {
            put_bytes(text, b"M")?;
            fault.number()
        }
        Refusal::Space(refusal) => {
            put_bytes(text, b"E")?;
            refusal.number()
        }
    };
    put_decimal(text, u64::from(number))
}

/// Appends the line of a refusal. Errors: want of memory.
pub fn put_refusal_line(text: &mut Vec<u8>, refusal: Refusal) -> Result<(), AllocError>
    ensures { OnOk result (text.new.items ≡ text.old.items ++ refusal_line refusal) }
{
    put_bytes(text, b"Refused ")?;
    put_refusal(text, refusal)?;
    put_bytes(text, b"\n")
}

fn put_state(text: &mut Vec<u8>, state: &CountedState) -> Result<(), AllocError>
    ensures { OnOk result (text.new.items ≡ text.old.items ++ state_line state.now) }
{
    put_bytes(text, &state.text)?;
    put_bytes(text, b"\n")
}

fn put_each_state(text: &mut Vec<u8>, states: &[CountedState]) -> Result<(), AllocError>
    ensures { OnOk result (text.new.items ≡ text.old.items ++ flat_map state_line states.now) }
{
    for state in states {
        put_state(text, state)?;
    }
    Ok(())
}

#[tactic(auto, unfolding(crate::specs::Log::state_lines))]
fn put_states(text: &mut Vec<u8>, states: &[CountedState]) -> Result<(), AllocError>
    ensures { OnOk result (text.new.items ≡ text.old.items ++ state_lines states.now) }
{
    put_bytes(text, b"States ")?;
    put_decimal(text, states.len() as u64)?;
    put_bytes(text, b"\n")?;
    put_each_state(text, states)
}

#[tactic(auto, unfolding(crate::specs::Log::witness_lines))]
fn put_witnesses(
    text: &mut Vec<u8>,
    ok: bool,
    positive: u64,
    negative: u64,
) -> Result<(), AllocError>
    ensures { OnOk result (text.new.items ≡ text.old.items ++ witness_lines ok positive negative) }
{
    put_bytes(text, met_word(ok))?;
    put_bytes(text, b"\nWitnesses\nPositive: ")?;
    put_decimal(text, positive)?;
    put_bytes(text, b" Negative: ")?;
    put_decimal(text, negative)?;
    put_bytes(text, b"\n")
}

fn put_found(text: &mut Vec<u8>, found: &Evaluation) -> Result<(), AllocError>
    ensures { OnOk result (text.new.items
        ≡ text.old.items ++ witness_lines found.now.ok found.now.positive found.now.negative) }
{
    put_witnesses(text, found.ok, found.positive, found.negative)
}

fn put_flag(text: &mut Vec<u8>, name: &Name) -> Result<(), AllocError>
    ensures { OnOk result (text.new.items ≡ text.old.items ++ flag_line name.now) }
{
    put_bytes(text, b"Flag ")?;
    put_bytes(text, name.as_bytes())?;
    put_bytes(text, b"\n")
}

/// Appends a line for each flag. Errors: want of memory.
pub fn put_flags(text: &mut Vec<u8>, flags: &[Name]) -> Result<(), AllocError>
    ensures { OnOk result (text.new.items ≡ text.old.items ++ flat_map flag_line flags.now) }
{
    for flag in flags {
        put_flag(text, flag)?;
    }
    Ok(())
}

/// Appends the word of the observation and the two counts. Errors: want of memory.
#[tactic(auto, unfolding(crate::specs::Log::observation_text))]
pub fn put_observation(text: &mut Vec<u8>, found: &Evaluation) -> Result<(), AllocError>
    ensures { OnOk result (text.new.items ≡ text.old.items ++ observation_text found.now) }
{
    put_bytes(text, observation_word(found.observation))?;
    put_bytes(text, b" ")?;
    put_decimal(text, found.positive)?;
    put_bytes(text, b" ")?;
    put_decimal(text, found.negative)
}

fn put_label(text: &mut Vec<u8>, name: &[u8]) -> Result<(), AllocError>
    ensures { OnOk result (text.new.items ≡ text.old.items ++ observation_label name.now) }
{
    put_bytes(text, b"Observation ")?;
    put_bytes(text, name)?;
    put_bytes(text, b" ")?;
    Ok(())
}

fn put_observation_line(
    text: &mut Vec<u8>,
    name: &[u8],
    found: &Evaluation,
) -> Result<(), AllocError>
    ensures { OnOk result (text.new.items ≡ text.old.items ++ observation_line name.now found.now) }
{
    put_label(text, name)?;
    put_observation(text, found)?;
    put_bytes(text, b"\n")
}

#[tactic(auto, unfolding(crate::specs::Log::condition_line))]
fn put_condition(text: &mut Vec<u8>, condition: &[u8]) -> Result<(), AllocError>
    ensures { OnOk result (text.new.items ≡ text.old.items ++ condition_line condition.now) }
{
    put_bytes(text, b"Condition ")?;
    put_bytes(text, condition)?;
    put_bytes(text, b"\n")
}

fn put_evaluation(
    text: &mut Vec<u8>,
    name: &[u8],
    condition: &[u8],
    found: &Evaluation,
) -> Result<(), AllocError>
    ensures { OnOk result (text.new.items
        ≡ text.old.items ++ evaluation_lines name.now condition.now found.now) }
{
    put_states(text, &found.states)?;
    put_found(text, found)?;
    put_flags(text, &found.flags)?;
    put_condition(text, condition)?;
    put_observation_line(text, name, found)
}

#[tactic(auto, unfolding(crate::specs::Log::head_line))]
fn put_head(text: &mut Vec<u8>, name: &[u8], kind: Quantifier) -> Result<(), AllocError>
    ensures { OnOk result (text.new.items ≡ text.old.items ++ head_line name.now kind) }
{
    put_bytes(text, b"Test ")?;
    put_bytes(text, name)?;
    put_bytes(text, b" ")?;
    put_bytes(text, kind_word(kind))?;
    put_bytes(text, b"\n")
}

/// The log of a test of this name: each line ends with a line feed. Errors: want of memory.
pub fn outcome_log(alloc: Global, name: &[u8], outcome: &Outcome) -> Result<Vec<u8>, AllocError>
    ensures { IfOk result (λ log. log.items ≡ log_of name.now outcome.now) }
{
    let mut text = Vec::new(alloc);
    put_head(&mut text, name, outcome.kind)?;
    match &outcome.result {
        OutcomeResult::Refused(refusal) => put_refusal_line(&mut text, *refusal)?,
        OutcomeResult::Evaluated(found) => {
            put_evaluation(&mut text, name, &outcome.condition, found)?;
        }
    }
    Ok(text)
}
