//! Reasons as text.

ghost use Rattle.std.specs.Prelude.{◌≡◌, ◌++◌, OnOk};
ghost use Rattle.std.specs.List.{flat_map};
ghost use Rattle.why_text.specs.Reasons.{check_line, step_text, walk_line, reason_text};

use crate::event::{Telling, ToldEvent, put_events, put_name};
use std::alloc::AllocError;
use text_values::put_bytes;

/// A step as it is told.
#[derive(Drop)]
pub struct ToldStep {
    /// What carries it.
    pub label: Vec<u8>,
    /// The event that it leads to, by its number.
    pub to: usize,
}

/// Why a check refuses an execution, as it is told.
#[derive(Drop)]
pub struct Reason {
    /// The check, as a model writes it.
    pub check: Vec<u8>,
    /// The events of the reason.
    pub events: Vec<ToldEvent>,
    /// Where the steps begin; a negated check has none.
    pub first: Option<usize>,
    /// The steps, each from where the one before it leads to.
    pub steps: Vec<ToldStep>,
}

#[tactic(auto, unfolding(crate::specs::Reasons::step_text))]
fn put_step(text: &mut Vec<u8>, initial_count: usize, step: &ToldStep) -> Result<(), AllocError>
    ensures { OnOk result (text.new.items ≡ text.old.items ++ step_text initial_count step.now) }
{
    put_bytes(text, b" -")?;
    put_bytes(text, &step.label)?;
    put_bytes(text, b"-> ")?;
    put_name(text, initial_count, step.to)
}

fn put_steps(text: &mut Vec<u8>, initial_count: usize, steps: &[ToldStep]) -> Result<(), AllocError>
    ensures { OnOk result (text.new.items
        ≡ text.old.items ++ flat_map (step_text initial_count) steps.now) }
{
    for step in steps {
        put_step(text, initial_count, step)?;
    }
    Ok(())
}

#[tactic(auto, unfolding(crate::specs::Reasons::walk_line))]
fn put_walk(
    text: &mut Vec<u8>,
    initial_count: usize,
    first: Option<usize>,
    steps: &[ToldStep],
) -> Result<(), AllocError>
    ensures { OnOk result (text.new.items
        ≡ text.old.items ++ walk_line initial_count first steps.now) }
{
    match first {
        None => put_bytes(
            text,
            b"  What the check asks for holds, and it is negated.\n",
        ),
        Some(first) => {
            put_bytes(text, b"  ")?;
            put_name(text, initial_count, first)?;
            put_steps(text, initial_count, steps)?;
            put_bytes(text, b"\n")
        }
    }
}

#[tactic(auto, unfolding(crate::specs::Reasons::check_line))]
fn put_check(text: &mut Vec<u8>, check: &[u8]) -> Result<(), AllocError>
    ensures { OnOk result (text.new.items ≡ text.old.items ++ check_line check.now) }
{
    put_bytes(text, check)?;
    put_bytes(text, b"\n")
}

/// Appends why a check refuses an execution: the check, the events, and the steps. Errors: want of
/// memory.
pub fn put_reason(
    text: &mut Vec<u8>,
    telling: Telling<'_>,
    reason: &Reason,
) -> Result<(), AllocError>
    ensures { OnOk result (text.new.items
        ≡ text.old.items
        ++ reason_text telling.entry.shows telling.entry.locations.now
        telling.entry.initial_count reason.now) }
{
    put_check(text, &reason.check)?;
    put_events(text, telling, &reason.events)?;
    put_walk(text, telling.initial_count, reason.first, &reason.steps)
}
