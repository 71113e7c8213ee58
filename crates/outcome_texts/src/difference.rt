//! Where two models tell the tests apart.

ghost use Rattle.std.specs.Prelude.{◌≡◌, ◌∷◌, ◌++◌, ◌+◌, ◌<◌, [], IfOk, OnOk, IfSome, MatchOption, filter, length, map};
ghost use Rattle.std.specs.List.{flat_map, list_any};
ghost use Rattle.outcome_texts.specs.Cells.{cell_of};
ghost use Rattle.outcome_texts.specs.Differences.{merged, has_other_count, is_same_refusal, flag_lines, evaluations_differ, results_differ, cells_differ, states_of, shared_states, pair_of, is_told_apart, shared_line, state_difference, state_differences, pair_line, test_difference, difference_line, differences_printed};

use crate::cell::{Shown, put_cell};
use crate::log::put_flags;
use std::alloc::{AllocError, Global};
use std::cmp::Ordering;
use std::marker::Model;
use text_values::{put_bytes, put_decimal};
use verdict::{CountedState, Evaluation, OutcomeResult, Refusal};

/// The cells of a test under two models.
#[derive(Clone, Copy)]
pub struct TestPair<'a> {
    /// The test's name.
    pub name: &'a [u8],
    /// The cell under the first model.
    pub first: Shown<'a>,
    /// The cell under the second model.
    pub second: Shown<'a>,
}

/// A state, and its count in either cell: 0 in a cell that has no such state.
#[derive(Drop)]
pub struct SharedState<'a> {
    /// The printed state.
    pub text: &'a [u8],
    /// The count in the first cell.
    pub first: u64,
    /// The count in the second cell.
    pub second: u64,
}

impl<'a> Model for SharedState<'a> {
    ghost use Rattle.outcome_texts.specs.Differences as differences;

    ghost Value = { differences.SharedState };

    ghost view = { λ s. record { text = s.text.now; first = s.first; second = s.second } };
}

impl<'a> SharedState<'a> {
    ghost use Rattle.std.specs.Prelude.{◌≡◌};
    ghost use Rattle.outcome_texts.specs.Differences.{of_first, of_second, of_both};

    fn of_first(state: &'a CountedState) -> SharedState<'a>
        ensures { result ≡ of_first state.now }
    {
        SharedState {
            text: &state.text,
            first: state.count,
            second: 0,
        }
    }

    fn of_second(state: &'a CountedState) -> SharedState<'a>
        ensures { result ≡ of_second state.now }
    {
        SharedState {
            text: &state.text,
            first: 0,
            second: state.count,
        }
    }

    fn of_both(first: &'a CountedState, second: &CountedState) -> SharedState<'a>
        ensures { result ≡ of_both first.now second.now }
    {
        SharedState {
            text: &first.text,
            first: first.count,
            second: second.count,
        }
    }
}

/// The least state of two lists, and what is left of them.
#[derive(Drop)]
struct LeastState<'a> {
    state: SharedState<'a>,
    first: &'a [CountedState],
    second: &'a [CountedState],
}

fn least_of_both<'a>(first: &'a [CountedState], second: &'a [CountedState]) -> LeastState<'a>
    requires first { 0 < length first.now }
    requires second { 0 < length second.now }
    ensures value { merged first.now second.now
        ≡ result.state ∷ merged result.first.now result.second.now }
    ensures shorter { length result.first.now + length result.second.now
        < length first.now + length second.now }
{
    let state = &first[0];
    let other = &second[0];
    match state.values.as_slice().cmp(other.values.as_slice()) {
        Ordering::Less => LeastState {
            state: SharedState::of_first(state),
            first: &first[1..],
            second,
        },
        Ordering::Equal => LeastState {
            state: SharedState::of_both(state, other),
            first: &first[1..],
            second: &second[1..],
        },
        Ordering::Greater => LeastState {
            state: SharedState::of_second(other),
            first,
            second: &second[1..],
        },
    }
}

fn least_state<'a>(first: &'a [CountedState], second: &'a [CountedState]) -> Option<LeastState<'a>>
    ensures value { MatchOption result (merged first.now second.now ≡ [])
        (λ l. merged first.now second.now ≡ l.state ∷ merged l.first.now l.second.now) }
    ensures shorter { IfSome result (λ l. length l.first.now + length l.second.now
        < length first.now + length second.now) }
{
    if first.is_empty() {
        if second.is_empty() {
            return None;
        }
        return Some(LeastState {
            state: SharedState::of_second(&second[0]),
            first,
            second: &second[1..],
        });
    }
    if second.is_empty() {
        return Some(LeastState {
            state: SharedState::of_first(&first[0]),
            first: &first[1..],
            second,
        });
    }
    Some(least_of_both(first, second))
}

// The states of two lists, as one list.
fn merged<'a>(
    alloc: Global,
    first: &'a [CountedState],
    second: &'a [CountedState],
) -> Result<Vec<SharedState<'a>>, AllocError>
    ensures { IfOk result (λ v. v.items ≡ merged first.now second.now) }
{
    let mut states = Vec::new(alloc);
    let mut left = first;
    let mut right = second;
    while let Some(least) = least_state(left, right) {
        states.push(least.state)?;
        left = least.first;
        right = least.second;
    }
    Ok(states)
}

/// Whether the two counts of a state differ.
pub fn has_other_count(state: &SharedState<'_>) -> bool
    ensures { result ≡ has_other_count state.now }
{
    state.first != state.second
}

fn has_any_other_count(states: &[SharedState<'_>]) -> bool
    ensures { result ≡ list_any has_other_count states.now }
{
    states.iter().any(|state| has_other_count(state))
}

fn is_same_refusal(first: Refusal, second: Refusal) -> bool
    ensures { result ≡ is_same_refusal first second }
{
    match (first, second) {
        (Refusal::Model(fault), Refusal::Model(other)) => fault.number() == other.number(),
        (Refusal::Space(refusal), Refusal::Space(other)) => refusal.number() == other.number(),
        _ => false,
    }
}

fn flag_lines(alloc: Global, found: &Evaluation) -> Result<Vec<u8>, AllocError>
    ensures { IfOk result (λ v. v.items ≡ flag_lines found.now) }
{
    let mut text = Vec::new(alloc);
    put_flags(&mut text, &found.flags)?;
    Ok(text)
}

fn evaluations_differ(
    alloc: Global,
    first: &Evaluation,
    second: &Evaluation,
) -> Result<bool, AllocError>
    ensures { IfOk result (λ b. b ≡ evaluations_differ first.now second.now) }
{
    let states = merged(alloc, &first.states, &second.states)?;
    if has_any_other_count(&states) {
        return Ok(true);
    }
    let flags = flag_lines(alloc, first)?;
    let others = flag_lines(alloc, second)?;
    Ok(flags.as_slice() != others.as_slice())
}

fn results_differ(
    alloc: Global,
    first: &OutcomeResult,
    second: &OutcomeResult,
) -> Result<bool, AllocError>
    ensures { IfOk result (λ b. b ≡ results_differ first.now second.now) }
{
    match (first, second) {
        (OutcomeResult::Refused(refusal), OutcomeResult::Refused(other)) => {
            Ok(!is_same_refusal(*refusal, *other))
        }
        (OutcomeResult::Evaluated(found), OutcomeResult::Evaluated(other)) => {
            evaluations_differ(alloc, found, other)
        }
        _ => Ok(true),
    }
}

/// Whether two cells of a test differ: their kinds, refusals, counts or flags. Errors: want of
/// memory.
pub fn cells_differ(alloc: Global, first: Shown<'_>, second: Shown<'_>) -> Result<bool, AllocError>
    ensures { IfOk result (λ b. b ≡ cells_differ (cell_of first.entry) (cell_of second.entry)) }
{
    match (first, second) {
        (Shown::NoCell, Shown::NoCell) => Ok(false),
        (Shown::Open, Shown::Open) => Ok(false),
        (Shown::Settled(outcome), Shown::Settled(other)) => {
            results_differ(alloc, &outcome.result, &other.result)
        }
        _ => Ok(true),
    }
}

fn states_of<'a>(cell: Shown<'a>) -> &'a [CountedState]
    ensures { result.now ≡ states_of (cell_of cell.entry) }
{
    match cell {
        Shown::Settled(outcome) => match &outcome.result {
            OutcomeResult::Evaluated(found) => &found.states,
            OutcomeResult::Refused(_) => &[],
        },
        _ => &[],
    }
}

/// The states of two cells as one list that rises, each with its count in either cell. Errors: want
/// of memory.
pub fn shared_states<'a>(
    alloc: Global,
    first: Shown<'a>,
    second: Shown<'a>,
) -> Result<Vec<SharedState<'a>>, AllocError>
    ensures { IfOk result (λ v. v.items
        ≡ shared_states (cell_of first.entry) (cell_of second.entry)) }
{
    merged(alloc, states_of(first), states_of(second))
}

fn put_shared(text: &mut Vec<u8>, state: &SharedState<'_>) -> Result<(), AllocError>
    ensures { OnOk result (text.new.items ≡ text.old.items ++ shared_line state.now) }
{
    put_bytes(text, b"  ")?;
    put_decimal(text, state.first)?;
    put_bytes(text, b" ")?;
    put_decimal(text, state.second)?;
    put_bytes(text, b" ")?;
    put_bytes(text, state.text)?;
    put_bytes(text, b"\n")
}

fn put_state(text: &mut Vec<u8>, state: &SharedState<'_>) -> Result<(), AllocError>
    ensures { OnOk result (text.new.items
        ≡ text.old.items ++ state_difference (has_other_count state.now) state.now) }
{
    if has_other_count(state) {
        put_shared(text, state)
    } else {
        Ok(())
    }
}

fn put_states(text: &mut Vec<u8>, states: &[SharedState<'_>]) -> Result<(), AllocError>
    ensures { OnOk result (text.new.items ≡ text.old.items ++ state_differences states.now) }
{
    for state in states {
        put_state(text, state)?;
    }
    Ok(())
}

fn put_pair(text: &mut Vec<u8>, test: &TestPair<'_>) -> Result<(), AllocError>
    ensures { OnOk result (text.new.items ≡ text.old.items ++ pair_line (pair_of test.now)) }
{
    put_bytes(text, test.name)?;
    put_bytes(text, b": ")?;
    put_cell(text, test.first)?;
    put_bytes(text, b" / ")?;
    put_cell(text, test.second)?;
    put_bytes(text, b"\n")
}

// The lines of a test, and whether it is told apart.
fn put_test(alloc: Global, text: &mut Vec<u8>, test: &TestPair<'_>) -> Result<bool, AllocError>
    ensures { let pair = pair_of test.now in
        IfOk result (λ b. (b ≡ is_told_apart pair)
        × (text.new.items ≡ text.old.items ++ test_difference (is_told_apart pair) pair)) }
{
    if !cells_differ(alloc, test.first, test.second)? {
        return Ok(false);
    }
    put_pair(text, test)?;
    let states = shared_states(alloc, test.first, test.second)?;
    put_states(text, &states)?;
    Ok(true)
}

// The lines of the tests, and how many are told apart.
fn put_tests(alloc: Global, text: &mut Vec<u8>, tests: &[TestPair<'_>]) -> Result<u64, AllocError>
    ensures { let pairs = map pair_of tests.now in
        IfOk result (λ n. (n ≡ length (filter is_told_apart pairs))
        × (text.new.items
        ≡ text.old.items
        ++ flat_map (λ t. test_difference (is_told_apart t) t) pairs)) }
{
    let mut count: u64 = 0;
    for test in tests {
        let is_told = put_test(alloc, text, test)?;
        if is_told {
            count += 1;
        }
    }
    Ok(count)
}

fn put_last_line(text: &mut Vec<u8>, count: u64, all: usize) -> Result<(), AllocError>
    ensures { OnOk result (text.new.items ≡ text.old.items ++ difference_line count all) }
{
    put_decimal(text, count)?;
    put_bytes(text, b" of ")?;
    put_decimal(text, all as u64)?;
    put_bytes(text, b" differ\n")
}

/// Where the cells of the tests differ: for each test that is told apart its name and both cells,
/// then each state whose counts differ with both counts, rising; and last how many of how many
/// tests are told apart. Errors: want of memory.
pub fn difference_text(alloc: Global, tests: &[TestPair<'_>]) -> Result<Vec<u8>, AllocError>
    ensures { IfOk result (λ v. v.items ≡ differences_printed (map pair_of tests.now)) }
{
    let mut text = Vec::new(alloc);
    let count = put_tests(alloc, &mut text, tests)?;
    put_last_line(&mut text, count, tests.len())?;
    Ok(text)
}
