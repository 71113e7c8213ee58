//! All runs of a thread.

ghost use Rattle.std.specs.Prelude.{◌≡◌, [], ◌∷◌, None, option_map, map, IfOk};
ghost use Rattle.meaning.specs.Sets.{IsOnce, IsListOf};
ghost use Rattle.meaning.specs.Machine as machine;
ghost use Rattle.meaning.specs.Runs.{with_instance, label_after};
ghost use Rattle.plain_machine.specs.Values.{value_as, state_as};
ghost use Rattle.plain_runs.specs.Runs.{instance_as, run_as, ValuesOf, IsRunFrom, IsRunWith, IsRunLoading};

use plain_machine::instruction::{is_fault, is_load, is_taken_in, state_after, target};
use plain_machine::state::State;
use plain_machine::value::Value;
use std::alloc::{AllocError, Global};
use text_values::{Instruction, Name, Step};

/// An instruction that a run executes.
#[derive(Clone, Copy)]
pub struct Instance<'a> {
    /// The instruction.
    pub instruction: &'a Instruction,
    /// The state before it.
    pub before: State<'a>,
    /// The value that it loads if it is a load.
    pub loaded: Value<'a>,
}

/// A run.
#[derive(Drop)]
pub struct Run<'a> {
    /// What it executes.
    pub instances: Vec<Instance<'a>>,
    /// The state at the end.
    pub end: State<'a>,
    /// Whether a fault ended it.
    pub faulted: bool,
}

// The run that ends at once.
fn ended<'a>(alloc: Global, faulted: bool, state: &State<'a>) -> Result<Vec<Run<'a>>, AllocError>
    ensures { IfOk result (λ v. map run_as v.items
        ≡ record { instances = []; final = state_as state.now; faulted = faulted } ∷ []) }
{
    let mut runs = Vec::new(alloc);
    runs.push(Run {
        instances: Vec::new(alloc),
        end: *state,
        faulted,
    })?;
    Ok(runs)
}

/// The run with an instance before it. Errors: want of memory, as in all that follows.
pub fn prepended<'a>(
    alloc: Global,
    instance: &Instance<'a>,
    run: &Run<'a>,
) -> Result<Run<'a>, AllocError>
    ensures { IfOk result (λ r. run_as r
        ≡ with_instance (instance_as instance.now) (run_as run.now)) }
{
    let mut instances = Vec::new(alloc);
    instances.push(*instance)?;
    instances.extend_from_slice(&run.instances)?;
    Ok(Run {
        instances,
        end: run.end,
        faulted: run.faulted,
    })
}

fn all_prepended<'a>(
    alloc: Global,
    instance: &Instance<'a>,
    runs: &[Run<'a>],
) -> Result<Vec<Run<'a>>, AllocError>
    ensures { IfOk result (λ v. map run_as v.items
        ≡ map (with_instance (instance_as instance.now)) (map run_as runs.now)) }
{
    let mut longer = Vec::new(alloc);
    for run in runs {
        let one = prepended(alloc, instance, run)?;
        longer.push(one)?;
    }
    Ok(longer)
}

/// The label that is still looked for behind a label.
pub fn label_behind<'a>(label: &Name, seeking: Option<&'a [u8]>) -> Option<&'a [u8]>
    ensures { option_map (λ l. l.now) result
        ≡ label_after label.now (option_map (λ l. l.now) seeking.entry) }
{
    match seeking {
        Some(wanted) => {
            if wanted == label.as_bytes() {
                None
            } else {
                Some(wanted)
            }
        }
        None => None,
    }
}

// The runs that begin with an instruction, which loads the value if it is a load.
#[cycle(runs)]
fn runs_with<'a>(
    alloc: Global,
    lines: &'a [Step],
    instruction: &'a Instruction,
    state: &State<'a>,
    loaded: &Value<'a>,
    values: &[Value<'a>],
) -> Result<Vec<Run<'a>>, AllocError>
    requires { IsOnce (map value_as values.now) }
    ensures { IfOk result (λ v. IsListOf (IsRunWith (ValuesOf values.now) lines.now
        instruction.now (machine.is_taken_in (state_as state.now) instruction.now)
        (state_as state.now) (value_as loaded.now)) (map run_as v.items)) }
{
    let next = state_after(instruction, loaded, state);
    let seeking = target(instruction, is_taken_in(state, instruction));
    let rest = runs_from(alloc, lines, seeking, &next, values)?;
    let instance = Instance {
        instruction,
        before: *state,
        loaded: *loaded,
    };
    let longer = all_prepended(alloc, &instance, &rest)?;
    Ok(longer)
}

// The runs that begin with a load.
#[cycle(runs)]
fn runs_loading<'a>(
    alloc: Global,
    lines: &'a [Step],
    instruction: &'a Instruction,
    state: &State<'a>,
    values: &[Value<'a>],
) -> Result<Vec<Run<'a>>, AllocError>
    requires { IsOnce (map value_as values.now) }
    ensures { IfOk result (λ v. IsListOf (IsRunLoading (ValuesOf values.now)
        (ValuesOf values.now) lines.now instruction.now
        (machine.is_taken_in (state_as state.now) instruction.now) (state_as state.now))
        (map run_as v.items)) }
{
    let mut runs = Vec::new(alloc);
    for value in values {
        let mut more = runs_with(alloc, lines, instruction, state, value, values)?;
        runs.append(&mut more)?;
    }
    Ok(runs)
}

// The runs that go on with an instruction.
#[cycle(runs)]
fn runs_at<'a>(
    alloc: Global,
    lines: &'a [Step],
    instruction: &'a Instruction,
    state: &State<'a>,
    values: &[Value<'a>],
) -> Result<Vec<Run<'a>>, AllocError>
    requires { IsOnce (map value_as values.now) }
    ensures { IfOk result (λ v. IsListOf (IsRunFrom (ValuesOf values.now)
        (Step.Instruction instruction.now ∷ lines.now) None (state_as state.now))
        (map run_as v.items)) }
{
    if is_fault(instruction, state) {
        return ended(alloc, true, state);
    }
    if is_load(instruction) {
        let loading = runs_loading(alloc, lines, instruction, state, values)?;
        return Ok(loading);
    }
    let others = runs_with(alloc, lines, instruction, state, &Value::NoValue, values)?;
    Ok(others)
}

// The runs that go on at a line.
#[cycle(runs)]
fn runs_at_line<'a>(
    alloc: Global,
    line: &'a Step,
    lines: &'a [Step],
    seeking: Option<&'a [u8]>,
    state: &State<'a>,
    values: &[Value<'a>],
) -> Result<Vec<Run<'a>>, AllocError>
    requires { IsOnce (map value_as values.now) }
    ensures { IfOk result (λ v. IsListOf (IsRunFrom (ValuesOf values.now)
        (line.now ∷ lines.now) (option_map (λ l. l.now) seeking.entry) (state_as state.now))
        (map run_as v.items)) }
{
    match line {
        Step::Label(label) => {
            let behind = label_behind(label, seeking);
            let labelled = runs_from(alloc, lines, behind, state, values)?;
            Ok(labelled)
        }
        Step::Instruction(instruction) => match seeking {
            Some(label) => {
                let passed = runs_from(alloc, lines, Some(label), state, values)?;
                Ok(passed)
            }
            None => runs_at(alloc, lines, instruction, state, values),
        },
    }
}

/// The runs of these lines from a state on, where the thread looks for the label, if there is one:
/// one for each choice of the values that its loads take from the list.
#[cycle(runs)]
pub fn runs_from<'a>(
    alloc: Global,
    lines: &'a [Step],
    seeking: Option<&'a [u8]>,
    state: &State<'a>,
    values: &[Value<'a>],
) -> Result<Vec<Run<'a>>, AllocError>
    requires { IsOnce (map value_as values.now) }
    ensures { IfOk result (λ v. IsListOf (IsRunFrom (ValuesOf values.now) lines.now
        (option_map (λ l. l.now) seeking.entry) (state_as state.now)) (map run_as v.items)) }
{
    match lines.split_first() {
        Some((line, rest)) => runs_at_line(alloc, line, rest, seeking, state, values),
        None => ended(alloc, false, state),
    }
}
