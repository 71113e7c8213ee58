//! Free runs: how many there are, and what they store.
ghost use Rattle.std.specs.Prelude.{option_to_list, Option, ℕ, ◌≡◌, ◌+◌, ◌*◌, ◌<◌, ◌≤◌, IfOk, IfSome, OnOk, IsTrue, ◌↔◌, ◌++◌, Some, None, List, Contains, length, drop, map, min, slice_index_or};
ghost use Rattle.std.specs.List.{AllPairs, flat_map};
ghost use Rattle.thread_runs.specs.declared.value.Value.{Value};
ghost use Rattle.thread_runs.specs.declared.state.State.{State};
ghost use Rattle.thread_runs.specs.declared.instruction.Line.TheVariants.{Does};
ghost use Rattle.thread_runs.specs.Runs.{IsLess, found_at};
ghost use Rattle.thread_runs.specs.ValueSet.{IsValueSet};
ghost use Rattle.thread_runs.specs.FreeWalks as free;
ghost use Rattle.thread_runs.specs.AllRuns.{HasRuns};
ghost use Rattle.thread_runs.specs.FreeRuns.{AreCounts, HasFreeRuns, capped, count_free, count_one};

use crate::instruction::{Instruction, Line};
use crate::state::{State, apply, is_branch, is_load, register, target};
use crate::value::Value;
use crate::value_set::add_value;
use std::alloc::{AllocError, Global};

/// One more than the greatest number of free runs of a thread. Counts stop here.
pub const MANY: u32 = 4_097;

/// The greatest number of values of a domain.
pub const MAX_VALUES: usize = 16;

/// Whether the line is the label.
fn is_label(line: Line, label: usize) -> bool
    ensures { IsTrue result ↔ found_at line label ≡ None }
{
    match line {
        Line::Label(here) => here == label,
        Line::Does(_) => false,
    }
}

/// The index of the first label line with this number, from an index on, or of the end.
fn label_index(lines: &[Line], from: usize, label: usize) -> usize
    requires { from ≤ length lines.now }
    ensures within { from ≤ result }
    ensures bound { result ≤ length lines.now }
    ensures count { (size : ℕ)
        → count_free size (drop from lines.now) (Some label)
        ≡ count_free size (drop result lines.now) None }
{
    for index in from..lines.len() {
        if is_label(lines[index], label) {
            return index;
        }
    }
    lines.len()
}

fn capped_sum(a: u32, b: u32) -> u32
    ensures { result ≡ capped (a + b) }
{
    a.saturating_add(b).min(MANY)
}

fn capped_product(a: u32, size: usize) -> u32
    ensures { result ≡ capped (size * a) }
{
    let size = size.min(4_097) as u32;
    a.saturating_mul(size).min(MANY)
}

/// The count at an index of the list, and nothing past its end.
fn count_at(counts: &[u32], index: usize) -> u32
    ensures { result ≡ slice_index_or counts.now index 0 }
{
    match counts.get(index) {
        Some(count) => *count,
        None => 0,
    }
}

/// How many free runs go on from the index, where the thread looks for the label if there is one.
fn count_on(lines: &[Line], counts: &[u32], size: usize, from: usize, seeking: Option<usize>) -> u32
    requires within { from ≤ length lines.now }
    requires counted { AreCounts lines.now size counts.now from }
    ensures { result ≡ capped (count_free size (drop from lines.now) seeking) }
{
    let _size = size;
    match seeking {
        Some(label) => count_at(counts, label_index(lines, from, label)),
        None => count_at(counts, from),
    }
}

/// How many free runs go on from the instruction before the index, whose counts stand.
fn count_does(
    lines: &[Line],
    counts: &[u32],
    size: usize,
    from: usize,
    instruction: Instruction,
) -> u32
    requires within { from ≤ length lines.now }
    requires counted { AreCounts lines.now size counts.now from }
    ensures { result
        ≡ capped (count_one size None (Does instruction) (count_free size (drop from lines.now))) }
{
    let next = count_on(lines, counts, size, from, target(instruction, false));
    if is_branch(instruction) {
        let there = count_on(lines, counts, size, from, target(instruction, true));
        capped_sum(there, next)
    } else if is_load(instruction) {
        capped_product(next, size)
    } else {
        next
    }
}

/// How many free runs go on from the line at the index, whose later counts stand.
fn count_from(lines: &[Line], counts: &[u32], size: usize, index: usize) -> u32
    requires within { index < length lines.now }
    requires counted { AreCounts lines.now size counts.now (index + 1) }
    ensures { result ≡ capped (count_free size (drop index lines.now) None) }
{
    match lines[index] {
        Line::Label(_) => count_at(counts, index + 1),
        Line::Does(instruction) => count_does(lines, counts, size, index + 1, instruction),
    }
}

/// For each index of the thread, and for its end, how many free runs over so many values go on
/// from there.
fn free_counts(alloc: Global, lines: &[Line], size: usize) -> Result<Vec<u32>, AllocError>
    ensures { IfOk result (λ v. AreCounts lines.now size v.items 0) }
{
    let mut counts = vec![in alloc; 1; lines.len() + 1]?;
    let mut index = lines.len();
    while index > 0 {
        index -= 1;
        let count = count_from(lines, &counts, size, index);
        counts[index] = count;
    }
    Ok(counts)
}

/// How many free runs go on from the instruction, where so many go on from the next line; none
/// where it is a branch or a jump.
fn straight_one(instruction: Instruction, size: usize, next: u32) -> Option<u32>
    ensures { (go : Option ℕ → ℕ) → next ≡ capped (go None)
        → IfSome result (λ n. n ≡ capped (count_one size None (Does instruction) go)) }
{
    match target(instruction, false) {
        Some(_) => None,
        None => {
            if is_branch(instruction) {
                None
            } else if is_load(instruction) {
                Some(capped_product(next, size))
            } else {
                Some(next)
            }
        }
    }
}

/// How many free runs go on from the line at the index, where so many go on from the next one; none
/// where it is a branch or a jump.
fn straight_from(lines: &[Line], size: usize, index: usize, next: u32) -> Option<u32>
    requires within { index < length lines.now }
    requires counted { next ≡ capped (count_free size (drop (index + 1) lines.now) None) }
    ensures { IfSome result (λ n. n ≡ capped (count_free size (drop index lines.now) None)) }
{
    match lines[index] {
        Line::Label(_) => Some(next),
        Line::Does(instruction) => straight_one(instruction, size, next),
    }
}

/// The number of free runs of a thread over so many values, or 4,097 if there are more; none where
/// it has a branch or a jump.
fn straight_count(lines: &[Line], size: usize) -> Option<u32>
    ensures { IfSome result (λ n. n ≡ capped (count_free size lines.now None)) }
{
    let mut count = 1;
    let mut index = lines.len();
    while index > 0 {
        index -= 1;
        count = straight_from(lines, size, index, count)?;
    }
    Some(count)
}

/// The number of free runs of the thread over so many values, or 4,097 if there are more.
fn count_all(alloc: Global, lines: &[Line], size: usize) -> Result<u32, AllocError>
    ensures { IfOk result (λ n. n ≡ capped (count_free size lines.now None)) }
{
    match straight_count(lines, size) {
        Some(count) => Ok(count),
        None => {
            let counts = free_counts(alloc, lines, size)?;
            Ok(count_at(&counts, 0))
        }
    }
}

/// The number of free runs of the thread over so many values, or 4,097 if there are more. Where it
/// is less, the thread has no more runs over at most so many values, of which there is one at
/// least.
pub fn free_count(alloc: Global, lines: &[Line], size: usize) -> Result<u32, AllocError>
    ensures counted { IfOk result (λ n. n ≡ capped (count_free size lines.now None)) }
    ensures runs { IfOk result (λ n. (first : State) → (V : List Value) → AllPairs IsLess V
        → length V ≡ size
        → (m : ℕ) × HasFreeRuns (record { lines = lines.now; first = first }) V m
        × (n ≡ capped m)) }
    ensures few { IfOk result (λ n. (first : State) → (V : List Value) → AllPairs IsLess V
        → length V ≤ size → 0 < size → n < 4097
        → (m : ℕ) × HasRuns (record { lines = lines.now; first = first }) V m × (m ≤ n)) }
{
    let count = count_all(alloc, lines, size)?;
    Ok(count)
}

/// A free run on its way.
#[derive(Clone, Copy)]
struct FreeWalk {
    state: State,
    seeking: Option<usize>,
}

/// What the instruction stores.
fn stored_value(instruction: Instruction, state: &State) -> Option<Value>
    ensures { option_to_list result ≡ free.values_stored_by instruction state.now }
{
    match instruction {
        Instruction::Store(d, _) => Some(register(state, d)),
        Instruction::StoreIndexed(d, _, _) => Some(register(state, d)),
        _ => None,
    }
}

impl FreeWalk {
    ghost use Rattle.thread_runs.specs.FreeWalks as free;

    /// One instruction more.
    fn advance(&mut self, instruction: Instruction, jumps: bool, loaded: Value)
        ensures { self.new ≡ free.walked instruction jumps loaded self.old }
    {
        apply(instruction, loaded, &mut self.state);
        self.seeking = target(instruction, jumps);
    }

    /// What it becomes by one instruction.
    fn advanced(&self, instruction: Instruction, jumps: bool, loaded: Value) -> FreeWalk
        ensures { result ≡ free.walked instruction jumps loaded self.now }
    {
        let mut walk = *self;
        walk.advance(instruction, jumps, loaded);
        walk
    }

    /// Passes over a line, or goes over one that is no load and no branch.
    fn go_over(&mut self, line: Line)
        ensures { self.new ≡ free.over line self.old }
    {
        match self.seeking {
            Some(label) => {
                self.seeking = match line {
                    Line::Label(here) => { if label == here { None } else { Some(label) } }
                    Line::Does(_) => Some(label),
                };
            }
            None => match line {
                Line::Label(_) => {}
                Line::Does(instruction) => self.advance(instruction, false, Value::NoValue),
            },
        }
    }

    /// What it stores on a line.
    fn stored_at(&self, line: Line) -> Option<Value>
        ensures { option_to_list result ≡ free.values_stored_at line self.now }
    {
        match self.seeking {
            Some(_) => None,
            None => match line {
                Line::Label(_) => None,
                Line::Does(instruction) => stored_value(instruction, &self.state),
            },
        }
    }
}

/// Adds what the free run stores on the line, unless there are more values than a domain may
/// have.
fn note_one(walk: &FreeWalk, line: Line, stored: &mut Vec<Value>) -> Result<(), AllocError>
    requires { IsValueSet stored.old.items }
    ensures set { IsValueSet stored.new.items }
    ensures added { OnOk result (free.AreAdded (Contains (free.values_stored_at line walk.now))
        stored.old.items stored.new.items) }
{
    match walk.stored_at(line) {
        Some(value) => {
            if stored.len() <= MAX_VALUES {
                add_value(stored, value)?;
                Ok(())
            } else {
                Ok(())
            }
        }
        None => Ok(()),
    }
}

/// Adds what the free runs store on the line.
fn note_all(walks: &[FreeWalk], line: Line, stored: &mut Vec<Value>) -> Result<(), AllocError>
    requires { IsValueSet stored.old.items }
    ensures set { IsValueSet stored.new.items }
    ensures added { OnOk result (free.AreAdded (free.SomeStores line walks.now) stored.old.items
        stored.new.items) }
{
    for walk in walks {
        note_one(walk, line, stored)?;
    }
    Ok(())
}

/// All go over a line that is no load and no branch.
fn go_over_all(walks: &mut Vec<FreeWalk>, line: Line)
    ensures { walks.new.items ≡ map (free.over line) walks.old.items }
{
    for walk in walks.iter_mut() {
        walk.go_over(line);
    }
}

/// One free run for each value that the load takes.
fn push_loads(
    walk: &FreeWalk,
    instruction: Instruction,
    values: &[Value],
    next: &mut Vec<FreeWalk>,
) -> Result<(), AllocError>
    ensures { OnOk result (next.new.items
        ≡ next.old.items ++ free.loaded values.now instruction walk.now) }
{
    for value in values {
        next.push(walk.advanced(instruction, false, *value))?;
    }
    Ok(())
}

/// A branch is not taken, or taken, where free runs go on from there.
fn push_choices(
    walk: &FreeWalk,
    instruction: Instruction,
    on: bool,
    there: bool,
    next: &mut Vec<FreeWalk>,
) -> Result<(), AllocError>
    ensures { OnOk result (next.new.items
        ≡ next.old.items ++ free.branch_walks on there instruction walk.now) }
{
    if on {
        next.push(walk.advanced(instruction, false, Value::NoValue))?;
    }
    if there {
        next.push(walk.advanced(instruction, true, Value::NoValue))?;
    }
    Ok(())
}

/// What a free run becomes by an instruction.
fn push_next(
    walk: &FreeWalk,
    instruction: Instruction,
    values: &[Value],
    on: bool,
    there: bool,
    next: &mut Vec<FreeWalk>,
) -> Result<(), AllocError>
    ensures { OnOk result (next.new.items
        ≡ next.old.items ++ free.next_of values.now on there (Does instruction) walk.now) }
{
    match walk.seeking {
        Some(_) => {
            let mut passing = *walk;
            passing.go_over(Line::Does(instruction));
            next.push(passing)?;
            Ok(())
        }
        None => {
            if is_load(instruction) {
                push_loads(walk, instruction, values, next)
            } else if is_branch(instruction) {
                push_choices(walk, instruction, on, there, next)
            } else {
                next.push(walk.advanced(instruction, false, Value::NoValue))?;
                Ok(())
            }
        }
    }
}

/// What the free runs become by an instruction.
fn spread(
    alloc: Global,
    walks: &[FreeWalk],
    instruction: Instruction,
    values: &[Value],
    on: bool,
    there: bool,
) -> Result<Vec<FreeWalk>, AllocError>
    ensures { IfOk result (λ v. v.items
        ≡ flat_map (free.next_of values.now on there (Does instruction)) walks.now) }
{
    let mut next = Vec::new(alloc);
    for walk in walks {
        push_next(walk, instruction, values, on, there, &mut next)?;
    }
    Ok(next)
}

/// What the free runs become by a line.
fn go_on(
    alloc: Global,
    mut walks: Vec<FreeWalk>,
    line: Line,
    values: &[Value],
    on: bool,
    there: bool,
) -> Result<Vec<FreeWalk>, AllocError>
    ensures { IfOk result (λ v. v.items
        ≡ flat_map (free.next_of values.now on there line) walks.items) }
{
    match line {
        Line::Label(_) => {
            go_over_all(&mut walks, line);
            Ok(walks)
        }
        Line::Does(instruction) => {
            if is_load(instruction) || is_branch(instruction) {
                return spread(alloc, &walks, instruction, values, on, there);
            }
            go_over_all(&mut walks, line);
            Ok(walks)
        }
    }
}

/// Whether free runs go on behind a line, whose branch is taken or not.
fn goes_by(
    lines: &[Line],
    counts: &[u32],
    size: usize,
    from: usize,
    line: Line,
    jumps: bool,
) -> bool
    requires within { from ≤ length lines.now }
    requires counted { AreCounts lines.now size counts.now from }
    ensures { result ≡ free.goes_by size (drop from lines.now) jumps line }
{
    match line {
        Line::Label(_) => false,
        Line::Does(instruction) => {
            count_on(lines, counts, size, from, target(instruction, jumps)) > 0
        }
    }
}

/// Whether the line is a store.
fn is_store(line: Line) -> bool
    ensures { result ≡ free.is_store_line line }
{
    match line {
        Line::Label(_) => false,
        Line::Does(instruction) => matches!(
            instruction,
            Instruction::Store(_, _) | Instruction::StoreIndexed(_, _, _)
        ),
    }
}

/// The index behind the last store, or 0 where there is none.
fn stores_end(lines: &[Line]) -> usize
    ensures within { result ≤ length lines.now }
    ensures none { free.HasNoStore lines.now result (length lines.now) }
{
    let mut end = lines.len();
    while end > 0 {
        if is_store(lines[end - 1]) {
            return end;
        }
        end -= 1;
    }
    end
}

/// Adds the values that the free runs of the thread over the values store, until there are more
/// values than a domain can have.
pub fn add_stored(
    alloc: Global,
    lines: &[Line],
    first: State,
    values: &[Value],
    stored: &mut Vec<Value>,
) -> Result<(), AllocError>
    requires { IsValueSet stored.old.items }
    ensures set { IsValueSet stored.new.items }
    ensures added { OnOk result (free.AreAdded (free.Stores lines.now first values.now)
        stored.old.items stored.new.items) }
{
    let end = stores_end(lines);
    if end == 0 {
        return Ok(());
    }
    let size = values.len();
    let counts = free_counts(alloc, lines, size)?;
    if count_at(&counts, 0) == 0 {
        return Ok(());
    }
    let mut walks = Vec::new(alloc);
    walks.push(FreeWalk {
        state: first,
        seeking: None,
    })?;
    for index in 0..end {
        let line = lines[index];
        note_all(&walks, line, stored)?;
        let on = goes_by(lines, &counts, size, index + 1, line, false);
        let there = goes_by(lines, &counts, size, index + 1, line, true);
        walks = go_on(alloc, walks, line, values, on, there)?;
    }
    Ok(())
}
