//! The free runs of a thread.

ghost use Rattle.std.specs.Prelude.{◌≡◌, [], ◌∷◌, ◌++◌, true, false, None, option_map, map, IfOk, if◌then◌else◌};
ghost use Rattle.text_values.specs.TestValue.{content_of};
ghost use Rattle.meaning.specs.Sets.{IsOnce, IsListOf};
ghost use Rattle.meaning.specs.Machine as machine;
ghost use Rattle.meaning.specs.Domain as domain;
ghost use Rattle.plain_machine.specs.Values.{value_as, state_as};
ghost use Rattle.plain_runs.specs.Runs.{instance_as, ValuesOf};
ghost use Rattle.plain_runs.specs.Frees.{free_run_as, with_first, IsFreeRunFrom, IsFreeRunWith, IsFreeRunLoading};

use crate::run::{Instance, Run, label_behind, prepended};
use crate::thread::lines_of;
use plain_machine::instruction::{is_branch, is_load, state_after, target};
use plain_machine::start::initial_state;
use plain_machine::state::State;
use plain_machine::value::Value;
use std::alloc::{AllocError, Global};
use text_values::{Instruction, Step, Test};

/// A free run: whether each of its conditional branches is taken, the values that its loads take,
/// and what it executes.
#[derive(Drop)]
pub struct FreeRun<'a> {
    /// Whether each conditional branch is taken.
    pub choices: Vec<bool>,
    /// What each load takes.
    pub values: Vec<Value<'a>>,
    /// What it executes.
    pub run: Run<'a>,
}

// The free run that ends at once.
fn ended<'a>(alloc: Global, state: &State<'a>) -> Result<Vec<FreeRun<'a>>, AllocError>
    ensures { IfOk result (λ v. map free_run_as v.items ≡ record {
      choices = [];
      values = [];
      run = record { instances = []; final = state_as state.now; faulted = false };
    } ∷ []) }
{
    let mut runs = Vec::new(alloc);
    runs.push(FreeRun {
        choices: Vec::new(alloc),
        values: Vec::new(alloc),
        run: Run {
            instances: Vec::new(alloc),
            end: *state,
            faulted: false,
        },
    })?;
    Ok(runs)
}

// The choices with one more before them, if the instruction is a conditional branch.
fn choices_with(
    alloc: Global,
    instruction: &Instruction,
    taken: bool,
    choices: &[bool],
) -> Result<Vec<bool>, AllocError>
    ensures { IfOk result (λ v. v.items
        ≡ (if machine.is_branch instruction.now then taken ∷ [] else []) ++ choices.now) }
{
    let mut longer = Vec::new(alloc);
    if is_branch(instruction) {
        longer.push(taken)?;
    }
    longer.extend_from_slice(choices)?;
    Ok(longer)
}

// The values with one more before them, if the instruction is a load.
fn values_with<'a>(
    alloc: Global,
    instance: &Instance<'a>,
    values: &[Value<'a>],
) -> Result<Vec<Value<'a>>, AllocError>
    ensures { IfOk result (λ v. map value_as v.items
        ≡ (if machine.is_load instance.now.instruction.now then value_as instance.now.loaded ∷ []
        else []) ++ map value_as values.now) }
{
    let mut longer = Vec::new(alloc);
    if is_load(instance.instruction) {
        longer.push(instance.loaded)?;
    }
    longer.extend_from_slice(values)?;
    Ok(longer)
}

// The free run with an instance before it, whose branch is taken or not.
fn begun<'a>(
    alloc: Global,
    taken: bool,
    instance: &Instance<'a>,
    rest: &FreeRun<'a>,
) -> Result<FreeRun<'a>, AllocError>
    ensures { IfOk result (λ f. free_run_as f
        ≡ with_first taken (instance_as instance.now) (free_run_as rest.now)) }
{
    let choices = choices_with(alloc, instance.instruction, taken, &rest.choices)?;
    let values = values_with(alloc, instance, &rest.values)?;
    let run = prepended(alloc, instance, &rest.run)?;
    Ok(FreeRun {
        choices,
        values,
        run,
    })
}

fn all_begun<'a>(
    alloc: Global,
    taken: bool,
    instance: &Instance<'a>,
    runs: &[FreeRun<'a>],
) -> Result<Vec<FreeRun<'a>>, AllocError>
    ensures { IfOk result (λ v. map free_run_as v.items
        ≡ map (with_first taken (instance_as instance.now)) (map free_run_as runs.now)) }
{
    let mut longer = Vec::new(alloc);
    for run in runs {
        let one = begun(alloc, taken, instance, run)?;
        longer.push(one)?;
    }
    Ok(longer)
}

// The free runs that begin with an instruction, which loads the value if it is a load.
#[cycle(free)]
fn free_runs_with<'a>(
    alloc: Global,
    lines: &'a [Step],
    instruction: &'a Instruction,
    state: &State<'a>,
    taken: bool,
    loaded: &Value<'a>,
    values: &[Value<'a>],
) -> Result<Vec<FreeRun<'a>>, AllocError>
    requires { IsOnce (map value_as values.now) }
    ensures { IfOk result (λ v. IsListOf (IsFreeRunWith (ValuesOf values.now) lines.now
        instruction.now (state_as state.now) taken (value_as loaded.now))
        (map free_run_as v.items)) }
{
    let next = state_after(instruction, loaded, state);
    let seeking = target(instruction, taken);
    let rest = free_runs_from(alloc, lines, seeking, &next, values)?;
    let instance = Instance {
        instruction,
        before: *state,
        loaded: *loaded,
    };
    let longer = all_begun(alloc, taken, &instance, &rest)?;
    Ok(longer)
}

// The free runs that begin with a load.
#[cycle(free)]
fn free_runs_loading<'a>(
    alloc: Global,
    lines: &'a [Step],
    instruction: &'a Instruction,
    state: &State<'a>,
    values: &[Value<'a>],
) -> Result<Vec<FreeRun<'a>>, AllocError>
    requires { IsOnce (map value_as values.now) }
    ensures { IfOk result (λ v. IsListOf (IsFreeRunLoading (ValuesOf values.now)
        (ValuesOf values.now) lines.now instruction.now (state_as state.now))
        (map free_run_as v.items)) }
{
    let mut runs = Vec::new(alloc);
    for value in values {
        let mut more = free_runs_with(alloc, lines, instruction, state, false, value, values)?;
        runs.append(&mut more)?;
    }
    Ok(runs)
}

// The free runs that begin with a conditional branch.
#[cycle(free)]
fn free_runs_branching<'a>(
    alloc: Global,
    lines: &'a [Step],
    instruction: &'a Instruction,
    state: &State<'a>,
    values: &[Value<'a>],
) -> Result<Vec<FreeRun<'a>>, AllocError>
    requires once { IsOnce (map value_as values.now) }
    requires branch { machine.is_branch instruction.now ≡ true }
    ensures { IfOk result (λ v. IsListOf (IsFreeRunFrom (ValuesOf values.now)
        (Step.Instruction instruction.now ∷ lines.now) None (state_as state.now))
        (map free_run_as v.items)) }
{
    let none = Value::NoValue;
    let mut runs = free_runs_with(alloc, lines, instruction, state, false, &none, values)?;
    let mut more = free_runs_with(alloc, lines, instruction, state, true, &none, values)?;
    runs.append(&mut more)?;
    Ok(runs)
}

// The free runs that go on with an instruction.
#[cycle(free)]
fn free_runs_at<'a>(
    alloc: Global,
    lines: &'a [Step],
    instruction: &'a Instruction,
    state: &State<'a>,
    values: &[Value<'a>],
) -> Result<Vec<FreeRun<'a>>, AllocError>
    requires { IsOnce (map value_as values.now) }
    ensures { IfOk result (λ v. IsListOf (IsFreeRunFrom (ValuesOf values.now)
        (Step.Instruction instruction.now ∷ lines.now) None (state_as state.now))
        (map free_run_as v.items)) }
{
    if is_branch(instruction) {
        return free_runs_branching(alloc, lines, instruction, state, values);
    }
    if is_load(instruction) {
        let loading = free_runs_loading(alloc, lines, instruction, state, values)?;
        return Ok(loading);
    }
    let others = free_runs_with(
        alloc,
        lines,
        instruction,
        state,
        false,
        &Value::NoValue,
        values,
    )?;
    Ok(others)
}

// The free runs that go on at a line.
#[cycle(free)]
fn free_runs_at_line<'a>(
    alloc: Global,
    line: &'a Step,
    lines: &'a [Step],
    seeking: Option<&'a [u8]>,
    state: &State<'a>,
    values: &[Value<'a>],
) -> Result<Vec<FreeRun<'a>>, AllocError>
    requires { IsOnce (map value_as values.now) }
    ensures { IfOk result (λ v. IsListOf (IsFreeRunFrom (ValuesOf values.now)
        (line.now ∷ lines.now) (option_map (λ l. l.now) seeking.entry) (state_as state.now))
        (map free_run_as v.items)) }
{
    match line {
        Step::Label(label) => {
            let behind = label_behind(label, seeking);
            let labelled = free_runs_from(alloc, lines, behind, state, values)?;
            Ok(labelled)
        }
        Step::Instruction(instruction) => match seeking {
            Some(label) => {
                let passed = free_runs_from(alloc, lines, Some(label), state, values)?;
                Ok(passed)
            }
            None => free_runs_at(alloc, lines, instruction, state, values),
        },
    }
}

/// The free runs of these lines from a state on, where the thread looks for the label, if there is
/// one: one for each choice of branches, and of the values that its loads take from the list.
/// Errors: want of memory.
#[cycle(free)]
pub fn free_runs_from<'a>(
    alloc: Global,
    lines: &'a [Step],
    seeking: Option<&'a [u8]>,
    state: &State<'a>,
    values: &[Value<'a>],
) -> Result<Vec<FreeRun<'a>>, AllocError>
    requires { IsOnce (map value_as values.now) }
    ensures { IfOk result (λ v. IsListOf (IsFreeRunFrom (ValuesOf values.now) lines.now
        (option_map (λ l. l.now) seeking.entry) (state_as state.now)) (map free_run_as v.items)) }
{
    match lines.split_first() {
        Some((line, rest)) => free_runs_at_line(alloc, line, rest, seeking, state, values),
        None => ended(alloc, state),
    }
}

/// The free runs of a thread, likewise.
pub fn thread_free_runs<'a>(
    alloc: Global,
    test: &'a Test,
    thread: usize,
    values: &[Value<'a>],
) -> Result<Vec<FreeRun<'a>>, AllocError>
    requires { IsOnce (map value_as values.now) }
    ensures { IfOk result (λ v. IsListOf (domain.IsFreeRun (content_of test.now)
        (ValuesOf values.now) thread) (map free_run_as v.items)) }
{
    let state = initial_state(test, thread);
    let lines = lines_of(test, thread);
    let runs = free_runs_from(alloc, lines, None, &state, values)?;
    Ok(runs)
}
