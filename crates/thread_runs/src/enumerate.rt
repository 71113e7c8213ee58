//! All runs of a thread over a list of values.
ghost use Rattle.std.specs.Prelude.{◌≡◌, ◌++◌, ◌<◌, ◌≤◌, IfOk, OnOk, map, [], vec_len};
ghost use Rattle.std.specs.List.{AllPairs};
ghost use Rattle.thread_runs.specs.Runs.{IsLess};
ghost use Rattle.std.specs.List.{flat_map};
ghost use Rattle.thread_runs.specs.AllRuns as all;
ghost use Rattle.thread_runs.specs.LocationValues.{AreLocationValues, ShowsServed};

use crate::instruction::{Instruction, Line, Program};
use crate::run::{Domain, Run};
use crate::state::{State, is_load};
use crate::value::Value;
use crate::walk::{Walk, copied_with_room};
use std::alloc::{AllocError, Global};
use std::marker::Model;

/// The beginning of a run: the values that its loads took, and whether it stopped at a fault.
#[derive(Drop)]
struct Beginning {
    values: Vec<Value>,
    stopped: bool,
    walk: Walk,
}

impl Model for Beginning {
    ghost use Rattle.thread_runs.specs.AllRuns as all;

    ghost Value = { all.Beginning };

    ghost view = { λ b. record { values = b.values.items; stopped = b.stopped; walk = b.walk } };
}

impl Beginning {
    fn new(alloc: Global, first: State) -> Beginning
        ensures { result ≡ all.beginning_at first }
    {
        Beginning {
            values: Vec::new(alloc),
            stopped: false,
            walk: Walk::started(alloc, first),
        }
    }

    /// Whether it goes on by executing the instruction.
    fn executes(&self, instruction: Instruction) -> bool
        ensures { result ≡ all.executes instruction self.now }
    {
        if self.stopped {
            return false;
        }
        match self.walk.seeking() {
            Some(_) => false,
            None => !self.walk.is_fault(instruction),
        }
    }

    /// Goes over a line that is no load, or that it does not execute.
    fn go_over(&mut self, line: Line) -> Result<(), AllocError>
        ensures { OnOk result (self.new ≡ all.gone_over line self.old) }
    {
        if self.stopped {
            return Ok(());
        }
        match self.walk.seeking() {
            Some(label) => self.walk.pass(line, label),
            None => match line {
                Line::Label(_) => {}
                Line::Does(instruction) => {
                    if self.walk.is_fault(instruction) {
                        self.stopped = true;
                    } else {
                        let jumps = self.walk.goes(instruction);
                        self.walk.advance(instruction, jumps, Value::NoValue)?;
                    }
                }
            },
        }
        Ok(())
    }

    /// A copy of the beginning. Errors: out of memory.
    fn copied(&self, alloc: Global) -> Result<Beginning, AllocError>
        ensures { IfOk result (λ b. b ≡ self.now) }
    {
        Ok(Beginning {
            values: copied_with_room(alloc, &self.values)?,
            stopped: self.stopped,
            walk: self.walk.copied(alloc)?,
        })
    }

    /// The load takes the value.
    fn load(&mut self, instruction: Instruction, value: Value) -> Result<(), AllocError>
        ensures { OnOk result (self.new ≡ all.with_load instruction self.old value) }
    {
        self.values.push(value)?;
        self.walk.advance(instruction, false, value)?;
        self.stopped = false;
        Ok(())
    }

    /// What follows where the load takes the value.
    fn with_load(
        &self,
        alloc: Global,
        instruction: Instruction,
        value: Value,
    ) -> Result<Beginning, AllocError>
        ensures { IfOk result (λ b. b ≡ all.with_load instruction self.now value) }
    {
        let mut copy = self.copied(alloc)?;
        copy.load(instruction, value)?;
        Ok(copy)
    }

    /// A beginning that is whole, as a run.
    fn into_run(self) -> Run
        ensures { all.run_shown result ≡ all.shown_run (all.whole self) }
    {
        let Beginning {
            values,
            stopped,
            walk,
        } = self;
        let registers = walk.registers();
        let (steps, mut events) = walk.into_lists();
        events.truncate(128);
        Run {
            values,
            steps,
            events,
            registers,
            faulted: stopped,
        }
    }
}

/// One beginning for each value that the load takes.
fn add_loads(
    alloc: Global,
    beginning: &Beginning,
    instruction: Instruction,
    values: &[Value],
    next: &mut Vec<Beginning>,
) -> Result<(), AllocError>
    ensures { OnOk result (next.new.items
        ≡ next.old.items ++ map (all.with_load instruction beginning.now) values.now) }
{
    for value in values {
        next.push(beginning.with_load(alloc, instruction, *value)?)?;
    }
    Ok(())
}

/// One beginning for each value that the load takes, the last of them this one.
fn add_all_loads(
    alloc: Global,
    mut beginning: Beginning,
    instruction: Instruction,
    values: &[Value],
    next: &mut Vec<Beginning>,
) -> Result<(), AllocError>
    ensures { OnOk result (next.new.items
        ≡ next.old.items ++ map (all.with_load instruction beginning) values.now) }
{
    if let Some((last, others)) = values.split_last() {
        add_loads(alloc, &beginning, instruction, others, next)?;
        beginning.load(instruction, *last)?;
        next.push(beginning)?;
    }
    Ok(())
}

/// What a load of the address takes: of the values those that its location may hold, as far as that
/// is given.
fn served<'a>(values: &'a [Value], held: &'a [Vec<Value>], address: Value) -> &'a [Value]
    ensures { result.now ≡ all.served values.now held.now address }
{
    match address {
        Value::Address(location) => match held.get(location) {
            Some(own) => own,
            None => values,
        },
        _ => values,
    }
}

/// What the beginning becomes by a load.
fn spread(
    alloc: Global,
    mut beginning: Beginning,
    instruction: Instruction,
    values: &[Value],
    held: &[Vec<Value>],
    next: &mut Vec<Beginning>,
) -> Result<(), AllocError>
    ensures { OnOk result (next.new.items
        ≡ next.old.items ++ all.spread_over values.now held.now instruction beginning) }
{
    if beginning.executes(instruction) {
        let taken = served(values, held, beginning.walk.address(instruction));
        add_all_loads(alloc, beginning, instruction, taken, next)?;
    } else {
        beginning.go_over(Line::Does(instruction))?;
        next.push(beginning)?;
    }
    Ok(())
}

fn spread_all(
    alloc: Global,
    beginnings: Vec<Beginning>,
    instruction: Instruction,
    values: &[Value],
    held: &[Vec<Value>],
) -> Result<Vec<Beginning>, AllocError>
    ensures { IfOk result (λ v. v.items
        ≡ flat_map (all.spread_over values.now held.now instruction) beginnings.items) }
{
    let mut next = Vec::new(alloc);
    for beginning in beginnings {
        spread(alloc, beginning, instruction, values, held, &mut next)?;
    }
    Ok(next)
}

/// All beginnings go over a line that is no load.
fn go_over_all(beginnings: &mut Vec<Beginning>, line: Line) -> Result<(), AllocError>
    ensures { OnOk result (beginnings.new.items ≡ map (all.gone_over line) beginnings.old.items) }
{
    for beginning in beginnings.iter_mut() {
        beginning.go_over(line)?;
    }
    Ok(())
}

/// What the beginnings become by one line.
#[tactic(auto, using(crate::proofs::RunList::label_next, crate::proofs::RunList::plain_next, crate::proofs::RunList::load_next))]
fn go_on(
    alloc: Global,
    mut beginnings: Vec<Beginning>,
    line: Line,
    values: &[Value],
    held: &[Vec<Value>],
) -> Result<Vec<Beginning>, AllocError>
    ensures { IfOk result (λ v. v.items
        ≡ flat_map (all.next_over values.now held.now line) beginnings.items) }
{
    match line {
        Line::Label(_) => {
            go_over_all(&mut beginnings, line)?;
            Ok(beginnings)
        }
        Line::Does(instruction) => {
            if is_load(instruction) {
                return spread_all(alloc, beginnings, instruction, values, held);
            }
            go_over_all(&mut beginnings, line)?;
            Ok(beginnings)
        }
    }
}

/// All runs whose loads take what is given, as beginnings that are whole.
fn beginnings_of(
    alloc: Global,
    lines: &[Line],
    first: State,
    values: &[Value],
    held: &[Vec<Value>],
) -> Result<Vec<Beginning>, AllocError>
    ensures { IfOk result (λ v. v.items
        ≡ all.all_over values.now held.now lines.now (all.beginning_at first)) }
{
    let mut beginnings = Vec::new(alloc);
    beginnings.push(Beginning::new(alloc, first))?;
    for line in lines {
        beginnings = go_on(alloc, beginnings, *line, values, held)?;
    }
    Ok(beginnings)
}

/// How many runs the thread of these lines has over the values, from this state on. Errors: out of
/// memory.
pub fn run_count(
    alloc: Global,
    lines: &[Line],
    first: State,
    values: &[Value],
) -> Result<usize, AllocError>
    ensures { AllPairs IsLess values.now
        → IfOk result (all.HasRuns (record { lines = lines.now; first = first }) values.now) }
{
    Ok(beginnings_of(alloc, lines, first, values, &[])?.len())
}

fn shown_runs(alloc: Global, beginnings: Vec<Beginning>) -> Result<Vec<Run>, AllocError>
    ensures { IfOk result (λ v. map all.run_shown v.items ≡ map all.shown_whole beginnings.items) }
{
    let mut runs = Vec::new(alloc);
    for beginning in beginnings {
        runs.push(beginning.into_run())?;
    }
    Ok(runs)
}

/// The runs of a thread of the program whose loads take what is given.
fn runs_over(
    alloc: Global,
    program: &Program,
    thread: usize,
    values: &[Value],
    held: &[Vec<Value>],
) -> Result<Vec<Run>, AllocError>
    ensures runs { IfOk result (λ v. thread < vec_len program.now.threads
        → map all.run_shown v.items
        ≡ map all.shown_whole (all.all_over values.now held.now
        (all.thread_of program.now thread).lines
        (all.beginning_at (all.thread_of program.now thread).first))) }
    ensures no_thread { IfOk result (λ v. vec_len program.now.threads ≤ thread → v.items ≡ []) }
{
    match program.threads.get(thread) {
        Some(lines) => {
            let first = State::first(program, thread);
            let beginnings = beginnings_of(alloc, lines, first, values, held)?;
            let runs = shown_runs(alloc, beginnings)?;
            Ok(runs)
        }
        None => Ok(Vec::new(alloc)),
    }
}

/// The runs of a thread over the domain, in lexicographic order of their lists of loaded values. A
/// thread that the program does not have has no runs. Errors: out of memory.
pub fn runs_of(
    alloc: Global,
    program: &Program,
    thread: usize,
    domain: &Domain,
) -> Result<Vec<Run>, AllocError>
    ensures runs { IfOk result (λ v. AllPairs IsLess domain.now.values.items
        → thread < vec_len program.now.threads
        → all.ShowsRuns (all.thread_of program.now thread) domain.now.values.items v.items) }
    ensures no_thread { IfOk result (λ v. vec_len program.now.threads ≤ thread → v.items ≡ []) }
{
    runs_over(alloc, program, thread, &domain.values, &[])
}

/// The same runs but for some with a load that takes what its location never holds, where `held`
/// says what locations may hold. Errors: out of memory.
pub fn served_runs_of(
    alloc: Global,
    program: &Program,
    thread: usize,
    domain: &Domain,
    held: &[Vec<Value>],
) -> Result<Vec<Run>, AllocError>
    ensures { IfOk result (λ v. AllPairs IsLess domain.now.values.items
        → AreLocationValues program.now domain.now.values.items held.now
        → thread < vec_len program.now.threads
        → ShowsServed program.now thread domain.now.values.items v.items) }
{
    runs_over(alloc, program, thread, &domain.values, held)
}
