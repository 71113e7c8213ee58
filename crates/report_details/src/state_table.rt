//! The table of a test's final states, with their counts in each group.

ghost use Rattle.std.specs.Prelude.{◌≡◌, ◌++◌, [], OnOk, codes, map};
ghost use Rattle.std.specs.List.{flat_map};
ghost use Rattle.escaped_texts.specs.Elements.{open_tag, element};
ghost use Rattle.outcome_texts.specs.Cells.{holds_sign};
ghost use Rattle.report_details.specs.Marks.{class_of, heading};
ghost use Rattle.report_details.specs.StateTable.{count_text, count_cell, count_of, counts_text, state_class, state_name, state_row, state_rows, group_head, group_heads, state_heads, states_heading, states_table, states_part};

use crate::around::{open_class, open_with};
use crate::groups::put_letter;
use crate::names::group_text;
use crate::reported::ReportedModel;
use crate::states::{all_states, count_in, is_counted_apart};
use escaped_texts::{put_close, put_element, put_escaped, put_open};
use std::alloc::{AllocError, Global};
use text_values::{put_bytes, put_decimal};
use verdict::{CountedState, Outcome};

#[tactic(auto, unfolding(crate::specs::StateTable::count_text))]
fn put_count_text(text: &mut Vec<u8>, count: u64) -> Result<(), AllocError>
    ensures { OnOk result (text.new.items ≡ text.old.items ++ count_text count) }
{
    if count == 0 {
        put_bytes(text, b"&#183;")
    } else {
        put_decimal(text, count)
    }
}

#[tactic(auto, unfolding(crate::specs::StateTable::count_cell, escaped_texts::specs::Elements::element))]
fn put_count(text: &mut Vec<u8>, state: &CountedState, outcome: &Outcome) -> Result<(), AllocError>
    ensures { OnOk result (text.new.items
        ≡ text.old.items ++ count_cell state.now outcome.now) }
{
    put_open(text, b"td", &[])?;
    put_count_text(text, count_in(state, outcome))?;
    put_close(text, b"td")
}

fn put_group_count(
    text: &mut Vec<u8>,
    state: &CountedState,
    outcomes: &[Outcome],
    first: usize,
) -> Result<(), AllocError>
    ensures { OnOk result (text.new.items
        ≡ text.old.items ++ count_of state.now outcomes.now first) }
{
    match outcomes.get(first) {
        None => Ok(()),
        Some(outcome) => put_count(text, state, outcome),
    }
}

fn put_counts(
    text: &mut Vec<u8>,
    state: &CountedState,
    outcomes: &[Outcome],
    firsts: &[usize],
) -> Result<(), AllocError>
    ensures { OnOk result (text.new.items
        ≡ text.old.items ++ counts_text state.now outcomes.now firsts.now) }
{
    for first in firsts {
        put_group_count(text, state, outcomes, *first)?;
    }
    Ok(())
}

#[tactic(auto, unfolding(crate::specs::StateTable::state_class))]
fn state_class(outcomes: &[Outcome], state: &CountedState) -> &'static [u8]
    ensures { result.now ≡ state_class outcomes.now state.now }
{
    if is_counted_apart(outcomes, state) {
        b"d"
    } else {
        b""
    }
}

fn holds_sign(holds: bool) -> &'static [u8]
    ensures { result.now ≡ holds_sign holds }
{
    if holds { b"*>" } else { b":>" }
}

#[tactic(auto, unfolding(crate::specs::StateTable::state_name, escaped_texts::specs::Elements::element))]
fn put_state_name(text: &mut Vec<u8>, state: &CountedState) -> Result<(), AllocError>
    ensures { OnOk result (text.new.items ≡ text.old.items ++ state_name state.now) }
{
    open_with(text, b"th", b"scope", b"row")?;
    put_element(text, b"code", &[], &state.text)?;
    put_close(text, b"th")
}

fn put_sign(text: &mut Vec<u8>, holds: bool) -> Result<(), AllocError>
    ensures { OnOk result (text.new.items
        ≡ text.old.items ++ heading (codes "td") (holds_sign holds)) }
{
    put_element(text, b"td", &[], holds_sign(holds))
}

fn open_row(
    text: &mut Vec<u8>,
    outcomes: &[Outcome],
    state: &CountedState,
) -> Result<(), AllocError>
    ensures { OnOk result (text.new.items
        ≡ text.old.items
        ++ open_tag (codes "tr") (class_of (state_class outcomes.now state.now))) }
{
    open_class(text, b"tr", state_class(outcomes, state))
}

#[tactic(auto, unfolding(crate::specs::StateTable::state_row, escaped_texts::specs::Elements::element))]
fn put_state_row(
    text: &mut Vec<u8>,
    outcomes: &[Outcome],
    firsts: &[usize],
    state: &CountedState,
) -> Result<(), AllocError>
    ensures { OnOk result (text.new.items
        ≡ text.old.items ++ state_row outcomes.now firsts.now state.now) }
{
    open_row(text, outcomes, state)?;
    put_state_name(text, state)?;
    put_sign(text, state.holds)?;
    put_counts(text, state, outcomes, firsts)?;
    put_close(text, b"tr")
}

fn put_each_row(
    text: &mut Vec<u8>,
    outcomes: &[Outcome],
    firsts: &[usize],
    states: &[&CountedState],
) -> Result<(), AllocError>
    ensures { OnOk result (text.new.items
        ≡ text.old.items
        ++ flat_map (state_row outcomes.now firsts.now) (map (λ s. s.now) states.now)) }
{
    for state in states {
        put_state_row(text, outcomes, firsts, *state)?;
    }
    Ok(())
}

fn put_state_rows(
    alloc: Global,
    text: &mut Vec<u8>,
    outcomes: &[Outcome],
    firsts: &[usize],
) -> Result<(), AllocError>
    ensures { OnOk result (text.new.items
        ≡ text.old.items ++ state_rows outcomes.now firsts.now) }
{
    let states = all_states(alloc, outcomes)?;
    put_each_row(text, outcomes, firsts, &states)
}

#[tactic(auto, unfolding(crate::specs::StateTable::group_head, escaped_texts::specs::Elements::element))]
fn put_group_head(
    alloc: Global,
    text: &mut Vec<u8>,
    models: &[ReportedModel<'_>],
    groups: &[usize],
    first: usize,
) -> Result<(), AllocError>
    ensures { OnOk result (text.new.items
        ≡ text.old.items ++ group_head models.now groups.now first) }
{
    let group = group_text(alloc, models, groups, first)?;
    open_with(text, b"th", b"scope", b"col")?;
    put_letter(text, first)?;
    put_escaped(text, b": ")?;
    put_escaped(text, &group)?;
    put_close(text, b"th")
}

fn put_group_heads(
    alloc: Global,
    text: &mut Vec<u8>,
    models: &[ReportedModel<'_>],
    groups: &[usize],
    firsts: &[usize],
) -> Result<(), AllocError>
    ensures { OnOk result (text.new.items
        ≡ text.old.items ++ group_heads models.now groups.now firsts.now) }
{
    for first in firsts {
        put_group_head(alloc, text, models, groups, *first)?;
    }
    Ok(())
}

#[tactic(auto, unfolding(crate::specs::StateTable::state_heads, escaped_texts::specs::Elements::element))]
fn put_state_heads(
    alloc: Global,
    text: &mut Vec<u8>,
    models: &[ReportedModel<'_>],
    groups: &[usize],
    firsts: &[usize],
) -> Result<(), AllocError>
    ensures { OnOk result (text.new.items
        ≡ text.old.items ++ state_heads models.now groups.now firsts.now) }
{
    put_open(text, b"tr", &[])?;
    put_element(text, b"th", &[], b"State")?;
    put_element(text, b"th", &[], b"P")?;
    put_group_heads(alloc, text, models, groups, firsts)?;
    put_close(text, b"tr")
}

#[tactic(auto, unfolding(escaped_texts::specs::Elements::element))]
fn put_table_head(
    alloc: Global,
    text: &mut Vec<u8>,
    models: &[ReportedModel<'_>],
    groups: &[usize],
    firsts: &[usize],
) -> Result<(), AllocError>
    ensures { OnOk result (text.new.items
        ≡ text.old.items
        ++ element (codes "thead") [] (state_heads models.now groups.now firsts.now)) }
{
    put_open(text, b"thead", &[])?;
    put_state_heads(alloc, text, models, groups, firsts)?;
    put_close(text, b"thead")
}

#[tactic(auto, unfolding(escaped_texts::specs::Elements::element))]
fn put_table_body(
    alloc: Global,
    text: &mut Vec<u8>,
    outcomes: &[Outcome],
    firsts: &[usize],
) -> Result<(), AllocError>
    ensures { OnOk result (text.new.items
        ≡ text.old.items ++ element (codes "tbody") [] (state_rows outcomes.now firsts.now)) }
{
    put_open(text, b"tbody", &[])?;
    put_state_rows(alloc, text, outcomes, firsts)?;
    put_close(text, b"tbody")
}

#[tactic(auto, unfolding(crate::specs::StateTable::states_table, escaped_texts::specs::Elements::element))]
fn put_table(
    alloc: Global,
    text: &mut Vec<u8>,
    models: &[ReportedModel<'_>],
    groups: &[usize],
    firsts: &[usize],
    outcomes: &[Outcome],
) -> Result<(), AllocError>
    ensures { OnOk result (text.new.items
        ≡ text.old.items
        ++ states_table models.now groups.now firsts.now outcomes.now) }
{
    open_class(text, b"table", b"num")?;
    put_table_head(alloc, text, models, groups, firsts)?;
    put_table_body(alloc, text, outcomes, firsts)?;
    put_close(text, b"table")
}

#[tactic(auto, unfolding(escaped_texts::specs::Elements::element))]
fn put_wrapped_table(
    alloc: Global,
    text: &mut Vec<u8>,
    models: &[ReportedModel<'_>],
    groups: &[usize],
    firsts: &[usize],
    outcomes: &[Outcome],
) -> Result<(), AllocError>
    ensures { OnOk result (text.new.items
        ≡ text.old.items
        ++ element (codes "div") (class_of (codes "wrap"))
        (states_table models.now groups.now firsts.now outcomes.now)) }
{
    open_class(text, b"div", b"wrap")?;
    put_table(alloc, text, models, groups, firsts, outcomes)?;
    put_close(text, b"div")
}

#[tactic(auto, unfolding(crate::specs::StateTable::states_heading))]
fn put_states_heading(text: &mut Vec<u8>) -> Result<(), AllocError>
    ensures { OnOk result (text.new.items ≡ text.old.items ++ states_heading) }
{
    put_element(
        text,
        b"h3",
        &[],
        b"Final states and how many kept executions end in them",
    )
}

/// Appends the table of the final states, with their counts in each group. Errors: want of memory.
#[tactic(auto, unfolding(crate::specs::StateTable::states_part, escaped_texts::specs::Elements::element))]
pub fn put_states(
    alloc: Global,
    text: &mut Vec<u8>,
    models: &[ReportedModel<'_>],
    groups: &[usize],
    firsts: &[usize],
    outcomes: &[Outcome],
) -> Result<(), AllocError>
    ensures { OnOk result (text.new.items
        ≡ text.old.items ++ states_part models.now groups.now firsts.now outcomes.now) }
{
    put_open(text, b"div", &[])?;
    put_states_heading(text)?;
    put_wrapped_table(alloc, text, models, groups, firsts, outcomes)?;
    put_close(text, b"div")
}
