//! Final states, in their order and counted.

ghost use Rattle.std.specs.Prelude.{◌≡◌, ◌↔◌, ◌⊎◌, ◌∷◌, ◌≤◌, length, IfOk, IfSome, IsTrue, OnOk};
ghost use Rattle.std.specs.List.{AllZip};
ghost use Rattle.meaning.specs.Machine as machine;
ghost use Rattle.meaning.specs.Outcome as outcome;
ghost use Rattle.meaning.specs.Outcome.{IsStateBefore};
ghost use Rattle.meanings_exist.specs.Sorted.{Rises, HasOneMore, IsInOrder};
ghost use Rattle.plain_machine.specs.Values.{value_as};
ghost use Rattle.plain_ends.specs.Ends.{values_as};
ghost use Rattle.plain_outcomes.specs.States.{states_as, ends_as, end_state, AreGood, IsPlaceOf, HaveCount, IsAnswerOf, IsCountedOf};

use plain_ends::ending::End;
use plain_machine::value::{Value, is_same_value};
use plain_runs::locations::is_before;
use std::alloc::{AllocError, Global};

/// A final state.
#[derive(Drop)]
pub struct CountedState<'a> {
    /// What the observables hold, in their order.
    pub values: Vec<Value<'a>>,
    /// How many kept executions end in it.
    pub count: usize,
    /// Whether it satisfies the proposition.
    pub holds: bool,
}

fn both(first: bool, second: bool) -> bool
    ensures { IsTrue result ↔ (IsTrue first × IsTrue second) }
{
    first && second
}

fn either(first: bool, second: bool) -> bool
    ensures { IsTrue result ↔ (IsTrue first ⊎ IsTrue second) }
{
    first || second
}

fn is_less(first: u32, second: u32) -> bool
    ensures { result ≡ machine.is_less first second }
{
    first.wrapping_add(0x8000_0000) < second.wrapping_add(0x8000_0000)
}

fn is_value_before(first: &Value, second: &Value) -> bool
    ensures { result ≡ outcome.is_value_before (value_as first.now) (value_as second.now) }
{
    match (first, second) {
        (Value::Number(m), Value::Number(n)) => is_less(*m, *n),
        (Value::Number(_), _) => true,
        (Value::Address(k), Value::Address(l)) => is_before(k, l),
        (Value::Address(_), Value::NoValue) => true,
        _ => false,
    }
}

// Whether the second state begins with the value and goes on so.
#[cycle(same)]
fn is_same_behind(value: &Value, values: &[Value], second: &[Value]) -> bool
    ensures { IsTrue result
        ↔ (value_as value.now ∷ values_as values.now ≡ values_as second.now) }
{
    match second.split_first() {
        Some((other, others)) => {
            let first = is_same_value(value, other);
            let later = is_same_state(values, others);
            both(first, later)
        }
        None => false,
    }
}

// Whether both are the same state.
#[cycle(same)]
fn is_same_state(first: &[Value], second: &[Value]) -> bool
    ensures { IsTrue result ↔ (values_as first.now ≡ values_as second.now) }
{
    match first.split_first() {
        Some((value, values)) => is_same_behind(value, values, second),
        None => second.is_empty(),
    }
}

// Whether a state that begins with the value and goes on so comes before the second.
#[cycle(before)]
fn is_before_behind(value: &Value, values: &[Value], second: &[Value]) -> bool
    ensures { IsTrue result
        ↔ IsStateBefore (value_as value.now ∷ values_as values.now) (values_as second.now) }
{
    match second.split_first() {
        Some((other, others)) => {
            let earlier = is_value_before(value, other);
            let same = is_same_value(value, other);
            let later = is_state_before(values, others);
            either(earlier, both(same, later))
        }
        None => false,
    }
}

// Whether a state comes before another of as many values.
#[cycle(before)]
fn is_state_before(first: &[Value], second: &[Value]) -> bool
    ensures { IsTrue result ↔ IsStateBefore (values_as first.now) (values_as second.now) }
{
    match first.split_first() {
        Some((value, values)) => is_before_behind(value, values, second),
        None => false,
    }
}

// Where a state is to be put among states in order; nowhere if it is there.
fn position(states: &[Vec<Value>], values: &[Value]) -> Option<usize>
    requires rises { Rises IsStateBefore (states_as states.now) }
    requires good { AreGood (values_as values.now ∷ states_as states.now) }
    ensures bound { IfSome result (λ k. k ≤ length states.now) }
    ensures position { IsPlaceOf (values_as values.now) (states_as states.now) result }
{
    for (index, other) in states.iter().enumerate() {
        if is_same_state(values, other) {
            return None;
        }
        if is_state_before(values, other) {
            return Some(index);
        }
    }
    Some(states.len())
}

// Puts a state among states in order, unless it is there. Errors: want of memory, as in all that
// follows.
fn put_state<'a>(
    alloc: Global,
    states: &mut Vec<Vec<Value<'a>>>,
    values: &[Value<'a>],
) -> Result<(), AllocError>
    requires rises { Rises IsStateBefore (states_as states.now.items) }
    requires good { AreGood (values_as values.now ∷ states_as states.now.items) }
    ensures { OnOk result (HasOneMore IsStateBefore (values_as values.now)
        (states_as states.old.items) (states_as states.new.items)) }
{
    match position(states, values) {
        Some(index) => {
            let copy = Vec::from_slice(alloc, values)?;
            states.insert(index, copy)?;
            Ok(())
        }
        None => Ok(()),
    }
}

/// The states of ends, in their order.
pub fn sorted_states<'a>(alloc: Global, ends: &[End<'a>]) -> Result<Vec<Vec<Value<'a>>>, AllocError>
    requires { AreGood (ends_as ends.now) }
    ensures { IfOk result (λ v. IsInOrder IsStateBefore (ends_as ends.now)
        (states_as v.items)) }
{
    let mut states = Vec::new(alloc);
    for end in ends {
        put_state(alloc, &mut states, &end.values)?;
    }
    Ok(states)
}

// How many of the ends are in a state.
fn count_in(ends: &[End], values: &[Value]) -> usize
    ensures { HaveCount (λ e. end_state e ≡ values_as values.now) ends.now result }
{
    let mut count = 0;
    for end in ends {
        if is_same_state(&end.values, values) {
            count += 1;
        }
    }
    count
}

// Whether the proposition holds at the ends that are in a state.
fn answer_in(ends: &[End], values: &[Value]) -> bool
    ensures { IsAnswerOf ends.now (values_as values.now) result }
{
    for end in ends {
        if is_same_state(&end.values, values) {
            return end.holds;
        }
    }
    false
}

fn counted<'a>(
    alloc: Global,
    ends: &[End],
    values: &[Value<'a>],
) -> Result<CountedState<'a>, AllocError>
    ensures { IfOk result (IsCountedOf ends.now (values_as values.now)) }
{
    let count = count_in(ends, values);
    let holds = answer_in(ends, values);
    let values = Vec::from_slice(alloc, values)?;
    Ok(CountedState {
        values,
        count,
        holds,
    })
}

/// The states, each with how many of the ends are in it, and whether the proposition holds there.
pub fn counted_states<'a>(
    alloc: Global,
    ends: &[End],
    states: &[Vec<Value<'a>>],
) -> Result<Vec<CountedState<'a>>, AllocError>
    ensures { IfOk result (λ v. AllZip (IsCountedOf ends.now) (states_as states.now) v.items) }
{
    let mut all = Vec::new(alloc);
    for values in states {
        let one = counted(alloc, ends, values)?;
        all.push(one)?;
    }
    Ok(all)
}

fn is_same_answer(first: bool, second: bool) -> bool
    ensures { IsTrue result ↔ (first ≡ second) }
{
    first == second
}

/// At how many of the ends the proposition holds, or does not.
pub fn count_holding(ends: &[End], holds: bool) -> usize
    ensures { HaveCount (λ e. e.holds ≡ holds) ends.now result }
{
    let mut count = 0;
    for end in ends {
        if is_same_answer(end.holds, holds) {
            count += 1;
        }
    }
    count
}
