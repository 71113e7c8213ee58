//! The final states of a test under all models.

ghost use Rattle.std.specs.Prelude.{◌≡◌, ◌≤◌, IfOk, OnOk, MatchOption, length, map, fold};
ghost use Rattle.std.specs.List.{insert, list_any};
ghost use Rattle.outcome_states.specs.Order.{state_cmp};
ghost use Rattle.outcome_texts.specs.Differences.{result_states};
ghost use Rattle.report_details.specs.States.{with_state, with_states, all_states, count_among, count_in, has_other_count, is_counted_apart};

use std::alloc::{AllocError, Global};
use std::cmp::Ordering;
use verdict::{CountedState, Outcome, OutcomeResult};

fn states_of(found: &OutcomeResult) -> &[CountedState]
    ensures { result.now ≡ result_states found.now }
{
    match found {
        OutcomeResult::Refused(_) => &[],
        OutcomeResult::Evaluated(found) => &found.states,
    }
}

fn order_of(first: &CountedState, second: &CountedState) -> Ordering
    ensures { result ≡ state_cmp first.now.values second.now.values }
{
    first.values.as_slice().cmp(second.values.as_slice())
}

// The index before which a state goes; nothing where it is there.
fn index_for(states: &[&CountedState], state: &CountedState) -> Option<usize>
    ensures { let before = map (λ s. s.now) states.now in
        MatchOption result (with_state before state.now ≡ before)
        (λ i. (i ≤ length before)
        × (with_state before state.now ≡ insert before i state.now)) }
{
    for (index, other) in states.iter().enumerate() {
        match order_of(state, *other) {
            Ordering::Less => return Some(index),
            Ordering::Equal => return None,
            Ordering::Greater => {}
        }
    }
    Some(states.len())
}

// Puts a state in its place, unless it is there.
fn insert_state<'a>(
    states: &mut Vec<&'a CountedState>,
    state: &'a CountedState,
) -> Result<(), AllocError>
    ensures { OnOk result (map (λ s. s.now) states.new.items
        ≡ with_state (map (λ s. s.now) states.old.items) state.now) }
{
    let Some(index) = index_for(states.as_slice(), state) else {
        return Ok(());
    };
    states.insert(index, state)?;
    Ok(())
}

fn insert_states<'a>(
    states: &mut Vec<&'a CountedState>,
    more: &'a [CountedState],
) -> Result<(), AllocError>
    ensures { OnOk result (map (λ s. s.now) states.new.items
        ≡ fold with_state (map (λ s. s.now) states.old.items) more.now) }
{
    for state in more {
        insert_state(states, state)?;
    }
    Ok(())
}

/// The states of all outcomes, rising. Errors: want of memory.
pub fn all_states(alloc: Global, outcomes: &[Outcome]) -> Result<Vec<&CountedState>, AllocError>
    ensures { IfOk result (λ v. map (λ s. s.now) v.items ≡ all_states outcomes.now) }
{
    let mut states = Vec::new(alloc);
    for outcome in outcomes {
        insert_states(&mut states, states_of(&outcome.result))?;
    }
    Ok(states)
}

fn count_among(states: &[CountedState], state: &CountedState) -> u64
    ensures { result ≡ count_among states.now state.now }
{
    for one in states {
        if order_of(one, state) == Ordering::Equal {
            return one.count;
        }
    }
    0
}

/// How many kept executions end in a state.
pub fn count_in(state: &CountedState, outcome: &Outcome) -> u64
    ensures { result ≡ count_in state.now outcome.now }
{
    count_among(states_of(&outcome.result), state)
}

fn has_other_count(state: &CountedState, count: u64, outcome: &Outcome) -> bool
    ensures { result ≡ has_other_count state.now count outcome.now }
{
    count_in(state, outcome) != count
}

fn has_any_other_count(state: &CountedState, count: u64, outcomes: &[Outcome]) -> bool
    ensures { result ≡ list_any (has_other_count state.now count) outcomes.now }
{
    outcomes
        .iter()
        .any(|outcome| has_other_count(state, count, outcome))
}

/// Whether a model has another count of a state than the first.
pub fn is_counted_apart(outcomes: &[Outcome], state: &CountedState) -> bool
    ensures { result ≡ is_counted_apart outcomes.now state.now }
{
    match outcomes.get(0) {
        None => false,
        Some(first) => has_any_other_count(state, count_in(state, first), outcomes),
    }
}
