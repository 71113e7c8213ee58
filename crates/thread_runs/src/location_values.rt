//! Which values a location may hold, as far as the text of a program tells.
ghost use Rattle.std.specs.Prelude.{◌≡◌, ◌↔◌, IfOk, IsTrue, Some, false, slice_get};
ghost use Rattle.thread_runs.specs.LocationValues as location_values;
ghost use Rattle.thread_runs.specs.Machine as machine;
ghost use Rattle.thread_runs.specs.AllRuns as all;

use crate::free::free_count;
use crate::instruction::{Instruction, Line, Program};
use crate::value::Value;
use std::alloc::{AllocError, Global};

/// Where each thread has at most so many runs, it is not asked what locations may hold.
const FEW_RUNS: u32 = 8;

/// Nor where that would take over so many steps.
const MANY_STEPS: usize = 1_048_576;

/// Whether both are one value.
pub fn is_same(value: Value, other: Value) -> bool
    ensures { result ≡ location_values.same_value value other }
{
    match (value, other) {
        (Value::Number(m), Value::Number(n)) => m == n,
        (Value::Address(k), Value::Address(l)) => k == l,
        (Value::NoValue, Value::NoValue) => true,
        _ => false,
    }
}

/// Whether both lists hold the same values.
pub fn are_same_values(first: &[Value], second: &[Value]) -> bool
    ensures { IsTrue result ↔ (first.now ≡ second.now) }
{
    if first.len() != second.len() {
        return false;
    }
    for index in 0..first.len() {
        if !is_same(first[index], second[index]) {
            return false;
        }
    }
    true
}

/// Whether the line may write the value into the register.
fn may_put(r: u8, value: Value, line: Line) -> bool
    ensures { result ≡ location_values.line_may_put r value line }
{
    match line {
        Line::Label(_) => false,
        Line::Does(instruction) => match instruction {
            Instruction::Immediate(d, n) => d == r && is_same(Value::Number(n), value),
            Instruction::Move(d, _)
            | Instruction::AddImmediate(d, _, _)
            | Instruction::Operate(_, d, _, _)
            | Instruction::Load(d, _)
            | Instruction::LoadIndexed(d, _, _) => d == r,
            _ => false,
        },
    }
}

/// What a register of a thread holds at the start.
fn first_value(program: &Program, thread: usize, r: u8) -> Value
    ensures { result ≡ machine.register (all.first_of program.now thread) r }
{
    match program.registers.get(thread) {
        Some(file) => match file.get(usize::from(r)) {
            Some(value) => *value,
            None => Value::Number(0),
        },
        None => Value::Number(0),
    }
}

/// The lines of a thread, and none where it is not there.
pub fn thread_lines(program: &Program, thread: usize) -> &[Line]
    ensures { result.now ≡ (all.thread_of program.now thread).lines }
{
    match program.threads.get(thread) {
        Some(lines) => lines,
        None => &[],
    }
}

/// Whether the register may hold the value on some way through the lines of the thread.
fn may_hold(program: &Program, thread: usize, r: u8, value: Value) -> bool
    ensures { result
        ≡ location_values.may_hold (all.thread_of program.now thread).lines
        (all.first_of program.now thread) r value }
{
    if is_same(first_value(program, thread, r), value) {
        return true;
    }
    for line in thread_lines(program, thread) {
        if may_put(r, value, *line) {
            return true;
        }
    }
    false
}

/// Whether the line of the thread may store the value at the location.
fn may_store(program: &Program, thread: usize, location: usize, value: Value, line: Line) -> bool
    ensures { result
        ≡ location_values.line_may_store (all.thread_of program.now thread).lines
        (all.first_of program.now thread) location value line }
{
    match line {
        Line::Label(_) => false,
        Line::Does(instruction) => match instruction {
            Instruction::Store(d, a) => {
                may_hold(program, thread, a, Value::Address(location))
                    && may_hold(program, thread, d, value)
            }
            Instruction::StoreIndexed(d, _, _) => may_hold(program, thread, d, value),
            _ => false,
        },
    }
}

/// Whether the thread may store the value at the location.
fn thread_may_store(program: &Program, location: usize, value: Value, thread: usize) -> bool
    ensures { result ≡ location_values.thread_may_store program.now location value thread }
{
    for line in thread_lines(program, thread) {
        if may_store(program, thread, location, value, *line) {
            return true;
        }
    }
    false
}

/// Whether the location may hold the value: if not, it does not hold it at the start, and no run of
/// a thread stores it there.
fn may_be_held(program: &Program, location: usize, initial: Value, value: Value) -> bool
    requires { slice_get program.now.initial.items location ≡ Some initial }
    ensures { result ≡ false → location_values.MayHold program.now location value → ⊥ }
{
    if is_same(initial, value) {
        return true;
    }
    for thread in 0..program.threads.len() {
        if thread_may_store(program, location, value, thread) {
            return true;
        }
    }
    false
}

/// Those of the values that the location may hold.
fn values_at(
    alloc: Global,
    program: &Program,
    location: usize,
    initial: Value,
    values: &[Value],
) -> Result<Vec<Value>, AllocError>
    requires { slice_get program.now.initial.items location ≡ Some initial }
    ensures { IfOk result (λ v.
        location_values.AreLeft (λ u. location_values.MayHold program.now location u → ⊥)
        values.now v.items) }
{
    let mut found = Vec::with_capacity(alloc, values.len())?;
    for value in values {
        if may_be_held(program, location, initial, *value) {
            found.push(*value)?;
        }
    }
    Ok(found)
}

/// Whether some thread has more than a few free runs, so that it may be worth while to leave some
/// out, and finding which takes few steps.
fn is_worth_while(alloc: Global, program: &Program, size: usize) -> Result<bool, AllocError> {
    let mut most = 0u32;
    let mut lines = 0usize;
    for thread in 0..program.threads.len() {
        let here = thread_lines(program, thread);
        most = most.max(free_count(alloc, here, size)?);
        lines = lines.saturating_add(here.len());
    }
    let pairs = program.initial.len().saturating_mul(size);
    Ok(most > FEW_RUNS && pairs.saturating_mul(lines).saturating_mul(lines) <= MANY_STEPS)
}

/// For each location those of the values that it may hold, or nothing where finding them is not
/// worth while. Errors: out of memory.
pub fn held_values(
    alloc: Global,
    program: &Program,
    values: &[Value],
) -> Result<Vec<Vec<Value>>, AllocError>
    ensures { IfOk result (λ v. location_values.AreLocationValues program.now values.now v.items) }
{
    let mut held = Vec::new(alloc);
    if !is_worth_while(alloc, program, values.len())? {
        return Ok(held);
    }
    for location in 0..program.initial.len() {
        let initial = program.initial[location];
        held.push(values_at(alloc, program, location, initial, values)?)?;
    }
    Ok(held)
}
