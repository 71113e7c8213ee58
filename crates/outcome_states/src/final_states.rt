//! The final states of the kept candidates.

ghost use Rattle.std.specs.Prelude.{◌≡◌, ◌-◌, ◌^◌, false, min, List, map, drop, length, if◌then◌else◌, IfOk, OnOk, IsTrue};
ghost use Rattle.store_orders.specs.Combinations.{candidates_of};
ghost use Rattle.candidate_spaces.specs.Space.{shown_in};
ghost use Rattle.outcome_states.specs.Counting.{count_kept, count_column, tally, AreAbove, Counts, Raises};
ghost use Rattle.outcome_states.specs.Kept.{holds_at};
ghost use Rattle.outcome_states.specs.Final as shown;
ghost use Rattle.outcome_states.specs.Final.{value_shown, value_stored_at};
ghost use Rattle.outcome_states.specs.Ends.{final_register, final_word, candidate_final_value};
ghost use Rattle.outcome_states.specs.Order.{is_state};
ghost use Rattle.outcome_states.specs.declared.answer.FinalValue.{FinalValue};

use crate::answer::FinalValue;
use crate::observable::Observable;
use candidates::{Action, Combination, Event, Space};
use ppc_semantics::Value;
use std::alloc::{AllocError, Global};
use std::collections::BTreeMap;

/// The number of candidates that end in each state.
pub type StateCounts = BTreeMap<Vec<FinalValue>, u64>;

/// The states that were counted, and a list in which the next one is made.
#[derive(Drop)]
struct Tally {
    counts: StateCounts,
    state: Vec<FinalValue>,
}

/// The value of a state that the machine has as this value.
pub fn value_shown(value: Value) -> FinalValue
    ensures { result ≡ value_shown value }
{
    match value {
        Value::Number(number) => FinalValue::Number(number.cast_signed()),
        Value::Address(location) => FinalValue::Address(location),
        Value::NoValue => FinalValue::NoValue,
    }
}

fn final_register(space: &Space, combination: &Combination, thread: usize, register: u8) -> Value
    ensures { result ≡ final_register space.now combination.now thread register }
{
    let Some(runs) = space.registers.get(thread) else {
        return Value::NoValue;
    };
    let Some(run) = combination.runs.get(thread) else {
        return Value::NoValue;
    };
    match runs.get(*run) {
        Some(registers) => match registers.get(usize::from(register)) {
            Some(value) => *value,
            None => Value::NoValue,
        },
        None => Value::NoValue,
    }
}

/// What the event stores at the location, if it stores there.
pub fn value_stored_at(events: &[Event], location: usize, event: u8) -> Option<Value>
    ensures { result ≡ value_stored_at events.now location event }
{
    let event = events.get(usize::from(event))?;
    match event.action {
        Action::Store {
            location: to,
            value,
        } => { if to == location { Some(value) } else { None } }
        Action::Load { .. } => None,
        Action::Fence(_) => None,
    }
}

// What the location holds after the stores in this order: what the last of them at it stores.
fn final_word(combination: &Combination, coherence: &[u8], location: usize) -> Value
    ensures { result ≡ final_word combination.now coherence.now location }
{
    let mut index = coherence.len();
    'stores: while 0 < index {
        index -= 1;
        if let Some(value) = value_stored_at(&combination.events, location, coherence[index]) {
            return value;
        }
    }
    Value::NoValue
}

// What an observable holds at the end.
fn held_value(
    space: &Space,
    combination: &Combination,
    coherence: &[u8],
    observable: Observable,
) -> FinalValue
    ensures { result ≡ candidate_final_value space.now combination.now coherence.now observable }
{
    match observable {
        Observable::Register(thread, register) => {
            value_shown(final_register(space, combination, thread, register))
        }
        Observable::Location(location) => value_shown(final_word(combination, coherence, location)),
    }
}

// Makes a list the state in which a candidate ends.
fn write_state(
    space: &Space,
    combination: &Combination,
    coherence: &[u8],
    observables: &[Observable],
    state: &mut Vec<FinalValue>,
) -> Result<(), AllocError>
    ensures { OnOk result (state.new.items
        ≡ map (candidate_final_value space.now combination.now coherence.now) observables.now) }
{
    state.clear();
    for observable in observables {
        state.push(held_value(space, combination, coherence, *observable))?;
    }
    Ok(())
}

fn is_kept_at(kept: &[bool], index: usize) -> bool
    ensures { result ≡ holds_at index kept.now }
{
    match kept.get(index) {
        Some(keep) => *keep,
        None => false,
    }
}

// The answers from an index on.
fn kept_from(kept: &[bool], index: usize) -> &[bool]
    ensures { result.now ≡ drop index kept.now }
{
    match kept.get(index..) {
        Some(rest) => rest,
        None => &[],
    }
}

// How many candidates of a combination with this order are kept, where `kept` begins with those of
// the combination: a row of its orders for each read choice.
fn kept_with_order(kept: &[bool], read_choices: usize, orders: usize, order: usize) -> u64
    ensures { result ≡ count_column read_choices orders order kept.now }
{
    let mut count = 0u64;
    let mut rest = kept;
    for _reads_from in 0..read_choices {
        if is_kept_at(rest, order) {
            count += 1;
        }
        rest = kept_from(rest, orders);
    }
    count
}

// Adds so many to the count of a state, if it has one, and says whether it has.
fn raise_count(counts: &mut StateCounts, state: &[FinalValue], found: u64) -> bool
    ensures raised { IsTrue result → Raises counts.old.entries counts.new.entries state.now found }
    ensures none { result ≡ false
        → (counts.new ≡ counts.old) × (tally counts.old.entries state.now ≡ 0) }
{
    match counts.get_mut(state) {
        Some(count) => {
            *count = count.saturating_add(found);
            true
        }
        None => false,
    }
}

// Adds so many to the count of a state.
fn add_count(
    alloc: Global,
    counts: &mut StateCounts,
    state: &[FinalValue],
    found: u64,
) -> Result<(), AllocError>
    ensures { OnOk result (Raises counts.old.entries counts.new.entries state.now found) }
{
    if !raise_count(counts, state, found) {
        counts.insert(Vec::from_slice(alloc, state)?, found)?;
    }
    Ok(())
}

// Counts so many candidates with this order of the stores.
fn count_order(
    alloc: Global,
    space: &Space,
    combination: &Combination,
    coherence: &[u8],
    observables: &[Observable],
    found: u64,
    tally: &mut Tally,
) -> Result<(), AllocError>
    ensures { OnOk result (Counts tally.old.counts.entries tally.new.counts.entries
        (λ v. if is_state v (map (candidate_final_value space.now combination.now coherence.now)
        observables.now) then found
        else 0)) }
{
    if found == 0 {
        return Ok(());
    }
    write_state(space, combination, coherence, observables, &mut tally.state)?;
    add_count(alloc, &mut tally.counts, &tally.state, found)
}

// Counts the kept candidates of a combination.
fn count_combination(
    alloc: Global,
    space: &Space,
    combination: &Combination,
    kept: &[bool],
    observables: &[Observable],
    tally: &mut Tally,
) -> Result<(), AllocError>
    ensures { OnOk result (Counts tally.old.counts.entries tally.new.counts.entries
        (λ v. count_kept
        (λ t. is_state v (map (candidate_final_value space.now combination.now t.1)
        observables.now))
        kept.now (candidates_of combination.now))) }
{
    let read_choices = combination.reads_from.len();
    let orders = combination.orders.len();
    for k in 0..orders {
        let coherence = combination.orders.order(k);
        let found = kept_with_order(kept, read_choices, orders, k);
        count_order(
            alloc,
            space,
            combination,
            coherence,
            observables,
            found,
            tally,
        )?;
    }
    Ok(())
}

// What stands behind the answers for the candidates of a combination.
fn kept_after<'k>(kept: &'k [bool], combination: &Combination) -> &'k [bool]
    ensures { result.now ≡ drop (length (candidates_of combination.now)) kept.now }
{
    kept_from(kept, combination.candidate_count().min(kept.len()))
}

/// The final states of the kept candidates over these observables, each with the number of kept
/// candidates that end in it. Errors: out of memory.
pub fn final_states(
    alloc: Global,
    space: &Space,
    kept: &[bool],
    observables: &[Observable],
) -> Result<StateCounts, AllocError>
    ensures above { IfOk result (λ t. AreAbove t.entries) }
    ensures tally { IfOk result (λ t. (v : List FinalValue)
        → tally t.entries v
        ≡ min
        (count_kept (λ e. is_state v (shown.final_state observables.now e)) kept.now
        (shown_in space.now))
        (2 ^ 64 - 1)) }
{
    let mut tally = Tally {
        counts: BTreeMap::new(alloc),
        state: Vec::with_capacity(alloc, observables.len())?,
    };
    let mut rest = kept;
    for combination in &space.combinations {
        count_combination(alloc, space, combination, rest, observables, &mut tally)?;
        rest = kept_after(rest, combination);
    }
    Ok(tally.counts)
}
