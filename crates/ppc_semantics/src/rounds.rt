//! The domain of values that loads can read, and the limits of a test.

ghost use Rattle.std.specs.Prelude.{ℕ, ◌≡◌, ◌≤◌, ◌<◌, ◌+◌, ◌↔◌, ◌-◌, ◌^◌, IfOk, IfErr, OnOk, IsTrue, List, Contains, min, length, vec_len};
ghost use Rattle.std.specs.List.{AllPairs, count_by};
ghost use Rattle.thread_runs.specs.declared.value.Value.{Value};
ghost use Rattle.thread_runs.specs.ValueSet.{IsProperValue, IsValueSet};
ghost use Rattle.thread_runs.specs.Runs.{IsLess, StoresFreely};
ghost use Rattle.thread_runs.specs.AllRuns as all;
ghost use Rattle.thread_runs.specs.FreeRuns.{HasFreeRuns};
ghost use Rattle.thread_runs.specs.FreeWalks.{AreAdded};
ghost use Rattle.ppc_lowering.specs.Domain as dom;
ghost use Rattle.ppc_lowering.specs.Lowering as low;

use bit_relations::MAX_EVENTS;
use ppc_lowering::{DomainFault, EvalRefusal, program};
use std::alloc::{AllocError, Global};
use text_values::Test;
use thread_runs::{
    Domain, Instruction, Line, MANY, MAX_VALUES, Program, State, Value, add_stored, add_value,
    free_count, is_load, run_count, thread_lines,
};

/// The greatest number of combinations of runs.
pub const MAX_COMBINATIONS: u64 = 1_048_576;

/// Whether the line is a load, a store or a fence.
fn makes_event(line: Line) -> bool
    ensures { result ≡ dom.has_event line }
{
    match line {
        Line::Label(_) => false,
        Line::Does(instruction) => matches!(
            instruction,
            Instruction::Load(_, _)
                | Instruction::LoadIndexed(_, _, _)
                | Instruction::Store(_, _)
                | Instruction::StoreIndexed(_, _, _)
                | Instruction::Fence(_)
        ),
    }
}

fn loads(line: Line) -> bool
    ensures { result ≡ dom.has_load line }
{
    match line {
        Line::Label(_) => false,
        Line::Does(instruction) => is_load(instruction),
    }
}

fn events_in(lines: &[Line]) -> usize
    ensures { result ≡ count_by dom.has_event lines.now }
{
    let mut count: usize = 0;
    for line in lines {
        if makes_event(*line) {
            count += 1;
        }
    }
    count
}

fn loads_in(lines: &[Line]) -> usize
    ensures { result ≡ count_by dom.has_load lines.now }
{
    let mut count: usize = 0;
    for line in lines {
        if loads(*line) {
            count += 1;
        }
    }
    count
}

/// The number of locations, loads, stores and fences of the program.
fn event_count(program: &Program) -> usize
    ensures { result ≡ min (dom.event_total program.now) (2 ^ 64 - 1) }
{
    let mut count = program.locations.len();
    for lines in &program.threads {
        count = count.saturating_add(events_in(lines));
    }
    count
}

/// The number of loads of the program.
fn load_count(program: &Program) -> usize
    ensures { result ≡ min (dom.load_total program.now) (2 ^ 64 - 1) }
{
    let mut count: usize = 0;
    for lines in &program.threads {
        count = count.saturating_add(loads_in(lines));
    }
    count
}

/// The initial values of the locations.
fn initial_values(alloc: Global, program: &Program) -> Result<Vec<Value>, AllocError>
    ensures set { IfOk result (λ v. IsValueSet v.items) }
    ensures values { IfOk result (λ v. (u : Value)
        → Contains v.items u ↔ (Contains program.now.initial.items u × IsProperValue u)) }
{
    let mut values = Vec::new(alloc);
    for value in &program.initial {
        add_value(&mut values, *value)?;
    }
    Ok(values)
}

/// The values with those that some free run over them stores.
fn next_values(alloc: Global, program: &Program, values: &[Value]) -> Result<Vec<Value>, AllocError>
    requires { IsValueSet values.now }
    ensures set { IfOk result (λ v. IsValueSet v.items) }
    ensures added { IfOk result (λ v. AreAdded
        (StoresFreely (dom.threads_of program.now) (Contains values.now)) values.now v.items) }
{
    let mut next = Vec::from_slice(alloc, values)?;
    for thread in 0..program.threads.len() {
        let first = State::first(program, thread);
        add_stored(
            alloc,
            thread_lines(program, thread),
            first,
            values,
            &mut next,
        )?;
    }
    Ok(next)
}

/// How many free runs a thread has over so many values, or 4,097 if there are more.
fn thread_count(
    alloc: Global,
    program: &Program,
    thread: usize,
    size: usize,
) -> Result<u32, DomainFault>
    ensures counted { IfOk result (λ n. (V : List Value) → AllPairs IsLess V → length V ≡ size
        → (m : ℕ) × HasFreeRuns (all.thread_of program.now thread) V m × (n ≡ min m 4097)) }
    ensures fault { IfErr result (λ e. dom.IsDomainMemoryFault e) }
{
    match free_count(alloc, thread_lines(program, thread), size) {
        Ok(count) => Ok(count),
        Err(fault) => Err(DomainFault::OutOfMemory(fault)),
    }
}

/// The bounds of one round.
fn check_round(alloc: Global, program: &Program, values: &[Value]) -> Result<(), DomainFault>
    requires { IsValueSet values.now }
    ensures few { OnOk result (length values.now ≤ 16) }
    ensures runs { OnOk result (dom.HasFewRuns program.now values.now
        (vec_len program.now.threads)) }
    ensures fault { IfErr result (λ e. dom.IsRoundFault program.now values.now e) }
{
    if values.len() > MAX_VALUES {
        return Err(DomainFault::Refused(EvalRefusal::TooManyValues));
    }
    for thread in 0..program.threads.len() {
        match thread_count(alloc, program, thread, values.len()) {
            Ok(count) => {
                if count >= MANY {
                    return Err(DomainFault::Refused(EvalRefusal::TooManyRuns));
                }
            }
            Err(fault) => return Err(fault),
        }
    }
    Ok(())
}

/// How many runs a thread has over the values.
fn runs_in_thread(
    alloc: Global,
    program: &Program,
    thread: usize,
    values: &[Value],
) -> Result<usize, DomainFault>
    requires { IsValueSet values.now }
    ensures counted { IfOk result (λ n.
        all.HasRuns (all.thread_of program.now thread) values.now n) }
    ensures fault { IfErr result (λ e. dom.IsDomainMemoryFault e) }
{
    let first = State::first(program, thread);
    match run_count(alloc, thread_lines(program, thread), first, values) {
        Ok(count) => Ok(count),
        Err(fault) => Err(DomainFault::OutOfMemory(fault)),
    }
}

/// A number that is not 0, and at least that of the values.
fn size_of(values: &[Value]) -> usize
    ensures within { length values.now ≤ result }
    ensures some { 0 < result }
{
    values.len().max(1)
}

/// Whether the numbers of free runs tell that there are few enough combinations of runs.
fn are_surely_few(alloc: Global, program: &Program, values: &[Value]) -> Result<bool, AllocError>
    requires { IsValueSet values.now }
    ensures { IfOk result (λ b. IsTrue b
        → (n : ℕ) × dom.HasCombinations (dom.threads_of program.now) values.now n
        × (n ≤ 1048576)) }
{
    let size = size_of(values);
    let mut product: u64 = 1;
    for thread in 0..program.threads.len() {
        let count = free_count(alloc, thread_lines(program, thread), size)?;
        if count >= MANY {
            return Ok(false);
        }
        product = product.saturating_mul(count as u64);
    }
    if product > MAX_COMBINATIONS {
        return Ok(false);
    }
    Ok(true)
}

/// The bound of the combinations of runs, by counting the runs.
fn count_combinations(alloc: Global, program: &Program, values: &[Value]) -> Result<(), DomainFault>
    requires { IsValueSet values.now }
    ensures few { OnOk result ((n : ℕ)
        × dom.HasCombinations (dom.threads_of program.now) values.now n × (n ≤ 1048576)) }
    ensures fault { IfErr result (λ e. dom.IsCombinationFault program.now values.now e) }
{
    let mut product: u64 = 1;
    for thread in 0..program.threads.len() {
        match runs_in_thread(alloc, program, thread, values) {
            Ok(count) => {
                product = product.saturating_mul(count as u64);
            }
            Err(fault) => return Err(fault),
        }
    }
    if product > MAX_COMBINATIONS {
        return Err(DomainFault::Refused(EvalRefusal::TooManyCombinations));
    }
    Ok(())
}

/// The bound of the combinations of runs.
fn check_combinations(alloc: Global, program: &Program, values: &[Value]) -> Result<(), DomainFault>
    requires { IsValueSet values.now }
    ensures few { OnOk result ((n : ℕ)
        × dom.HasCombinations (dom.threads_of program.now) values.now n × (n ≤ 1048576)) }
    ensures fault { IfErr result (λ e. dom.IsCombinationFault program.now values.now e) }
{
    match are_surely_few(alloc, program, values) {
        Ok(true) => Ok(()),
        Ok(false) => count_combinations(alloc, program, values),
        Err(fault) => Err(DomainFault::OutOfMemory(fault)),
    }
}

/// The values before the first round.
fn first_round(alloc: Global, program: &Program) -> Result<Vec<Value>, DomainFault>
    ensures set { IfOk result (λ v. IsValueSet v.items) }
    ensures round { IfOk result (λ v. dom.AreProper program.now
        → dom.IsNextDomain program.now 0 v.items) }
    ensures fault { IfErr result (λ e. dom.IsDomainMemoryFault e) }
{
    match initial_values(alloc, program) {
        Ok(values) => Ok(values),
        Err(fault) => Err(DomainFault::OutOfMemory(fault)),
    }
}

/// The values after one round more.
fn next_round(alloc: Global, program: &Program, values: &[Value]) -> Result<Vec<Value>, DomainFault>
    requires { IsValueSet values.now }
    ensures set { IfOk result (λ v. IsValueSet v.items) }
    ensures round { IfOk result (λ v. (k : ℕ) → dom.IsDomainAt program.now k values.now
        → dom.IsNextDomain program.now (k + 1) v.items) }
    ensures unchanged { IfOk result (λ v. length values.now ≡ length v.items
        → values.now ≡ v.items) }
    ensures fault { IfErr result (λ e. dom.IsDomainMemoryFault e) }
{
    match next_values(alloc, program, values) {
        Ok(values) => Ok(values),
        Err(fault) => Err(DomainFault::OutOfMemory(fault)),
    }
}

/// The values after the last round, where each round is within the bounds.
fn last_round(alloc: Global, program: &Program) -> Result<Vec<Value>, DomainFault>
    requires { dom.event_total program.now ≤ 128 }
    ensures set { IfOk result (λ v. IsValueSet v.items) }
    ensures round { IfOk result (λ v. dom.AreProper program.now
        → dom.IsDomainAt program.now (dom.load_total program.now) v.items) }
    ensures within { OnOk result (dom.AreProper program.now → (k : ℕ)
        → k ≤ dom.load_total program.now → dom.IsBoundedRound program.now k) }
    ensures fault { IfErr result (λ e. dom.AreProper program.now → dom.LacksDomain program.now e) }
{
    let mut values = first_round(alloc, program)?;
    check_round(alloc, program, &values)?;
    for round in 0..load_count(program) {
        let _rounds_before = round;
        let next = next_round(alloc, program, &values)?;
        if next.len() == values.len() {
            return Ok(values);
        }
        check_round(alloc, program, &next)?;
        values = next;
    }
    Ok(values)
}

/// The values that loads can read: the initial values of the locations and, for as many domain
/// rounds as the program has loads, the values that some free run over the values so far stores. In
/// a free run each conditional branch is taken or not, each load reads any value, and no access is
/// a fault.
///
/// Limits, in this order: 128 locations, loads, stores and fences together; before the first round
/// and after each round 16 values, then 4,096 free runs of a thread; 1,048,576 combinations of
/// runs. Errors: the first limit that is exceeded, or out of memory.
pub fn domain_of(alloc: Global, program: &Program) -> Result<Domain, DomainFault>
    ensures set { IfOk result (λ d. IsValueSet d.values.items) }
    ensures domain { IfOk result (λ d. dom.AreProper program.now
        → dom.IsDomain program.now d.values.items) }
    ensures fault { IfErr result (λ e. dom.AreProper program.now → dom.LacksDomain program.now e) }
{
    if event_count(program) > MAX_EVENTS {
        return Err(DomainFault::Refused(EvalRefusal::TooManyEvents));
    }
    let values = last_round(alloc, program)?;
    check_combinations(alloc, program, &values)?;
    Ok(Domain { values })
}

/// The domain of a test: that of its program. Errors: the refusal of its program, or out of memory.
pub fn domain(alloc: Global, test: &Test) -> Result<Domain, DomainFault>
    ensures set { IfOk result (λ d. IsValueSet d.values.items) }
    ensures domain { IfOk result (λ d. low.IsTestDomain test.now d.values.items) }
    ensures fault { IfErr result (λ e. low.IsTestDomainFault test.now e) }
{
    match program(alloc, test) {
        Ok(program) => domain_of(alloc, &program),
        Err(fault) => Err(DomainFault::OutOfMemory(fault)),
    }
}
