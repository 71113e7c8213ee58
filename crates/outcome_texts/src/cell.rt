//! What a cell shows, as text.

ghost use Rattle.std.specs.Prelude.{◌≡◌, ◌++◌, IfOk, OnOk};
ghost use Rattle.std.specs.List.{flat_map};
ghost use Rattle.outcome_texts.specs.Cells.{cell_of, result_field, cell_field, cell_log, holds_sign, count_line, result_counts, cell_counts};

use crate::log::{outcome_log, put_observation, put_refusal, put_refusal_line};
use std::alloc::{AllocError, Global};
use text_values::{put_bytes, put_decimal};
use verdict::{CountedState, Outcome, OutcomeResult};

/// What is shown of a test under a model.
#[derive(Clone, Copy)]
pub enum Shown<'a> {
    /// There is no such test or no such model.
    NoCell,
    /// The outcome is not known yet.
    Open,
    /// The outcome.
    Settled(&'a Outcome),
}

fn put_result(text: &mut Vec<u8>, found: &OutcomeResult) -> Result<(), AllocError>
    ensures { OnOk result (text.new.items ≡ text.old.items ++ result_field found.now) }
{
    match found {
        OutcomeResult::Refused(refusal) => put_refusal(text, *refusal),
        OutcomeResult::Evaluated(evaluation) => put_observation(text, evaluation),
    }
}

/// Appends a cell as a field of a table. Errors: want of memory.
pub fn put_cell(text: &mut Vec<u8>, cell: Shown<'_>) -> Result<(), AllocError>
    ensures { OnOk result (text.new.items ≡ text.old.items ++ cell_field (cell_of cell.entry)) }
{
    match cell {
        Shown::NoCell => put_bytes(text, b"none"),
        Shown::Open => put_bytes(text, b"open"),
        Shown::Settled(outcome) => put_result(text, &outcome.result),
    }
}

/// The log of a cell of a test of this name: that of its outcome, `Open`, or nothing without a
/// cell. Errors: want of memory.
pub fn log_text(alloc: Global, name: &[u8], cell: Shown<'_>) -> Result<Vec<u8>, AllocError>
    ensures { IfOk result (λ v. v.items ≡ cell_log name.now (cell_of cell.entry)) }
{
    match cell {
        Shown::NoCell => Ok(Vec::new(alloc)),
        Shown::Open => Vec::from_slice(alloc, b"Open\n"),
        Shown::Settled(outcome) => outcome_log(alloc, name, outcome),
    }
}

fn holds_sign(holds: bool) -> &'static [u8]
    ensures { result.now ≡ holds_sign holds }
{
    if holds { b"*>" } else { b":>" }
}

fn put_count(text: &mut Vec<u8>, state: &CountedState) -> Result<(), AllocError>
    ensures { OnOk result (text.new.items ≡ text.old.items ++ count_line state.now) }
{
    put_decimal(text, state.count)?;
    put_bytes(text, holds_sign(state.holds))?;
    put_bytes(text, &state.text)?;
    put_bytes(text, b"\n")
}

fn put_each_count(text: &mut Vec<u8>, states: &[CountedState]) -> Result<(), AllocError>
    ensures { OnOk result (text.new.items ≡ text.old.items ++ flat_map count_line states.now) }
{
    for state in states {
        put_count(text, state)?;
    }
    Ok(())
}

fn put_counts(text: &mut Vec<u8>, found: &OutcomeResult) -> Result<(), AllocError>
    ensures { OnOk result (text.new.items ≡ text.old.items ++ result_counts found.now) }
{
    match found {
        OutcomeResult::Refused(refusal) => put_refusal_line(text, *refusal),
        OutcomeResult::Evaluated(evaluation) => put_each_count(text, &evaluation.states),
    }
}

/// The states of a cell with their counts, a line each, with `*>` where the state satisfies the
/// proposition and `:>` where it does not; the refusal, `Open`, or nothing without a cell. Errors:
/// want of memory.
pub fn counts_text(alloc: Global, cell: Shown<'_>) -> Result<Vec<u8>, AllocError>
    ensures { IfOk result (λ v. v.items ≡ cell_counts (cell_of cell.entry)) }
{
    let mut text = Vec::new(alloc);
    match cell {
        Shown::NoCell => {}
        Shown::Open => put_bytes(&mut text, b"Open\n")?,
        Shown::Settled(outcome) => put_counts(&mut text, &outcome.result)?,
    }
    Ok(text)
}
