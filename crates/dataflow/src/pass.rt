//! The dependencies of a run.
ghost use Rattle.std.specs.Prelude.{ℕ, ◌≡◌, ◌<◌, ◌≤◌, ◌↔◌, true, IfOk, IsTrue, All, length};
ghost use Rattle.taints.specs.Chains as chains;
ghost use Rattle.dataflow.specs.Control as steering;
ghost use Rattle.dataflow.specs.Dependencies as found;
ghost use Rattle.thread_runs.specs.Machine as machine;
ghost use Rattle.bit_rows.specs.Relation.{Bit};
ghost use Rattle.taints.specs.Taints as taint;
ghost use Rattle.dataflow.specs.Bounds.{IsPairBelow, HasBound};
ghost use Rattle.thread_runs.specs.Runs as runs;

use std::alloc::{AllocError, Global};
use taints::{
    Columns, Links, Taints, clean, is_event, no_taints, note, operands, reach, registers_fit,
};
use text_values::Fence;
use thread_runs::{Instruction, Run, RunStep};

/// How many of the steps are events.
fn event_count(steps: &[RunStep]) -> usize
    ensures { result ≡ chains.event_index (runs.executed steps.now) (length steps.now) }
{
    let mut count = 0;
    for step in steps {
        if is_event(step.instruction) {
            count += 1;
        }
    }
    count
}

/// What is known of the loads along a run, as far as control goes.
#[derive(Clone, Copy)]
struct Control {
    taints: Taints,
    /// The loads that reach the CR0 of a conditional branch.
    branched: u128,
    /// Those that did so before an `isync`.
    synchronised: u128,
}

impl Control {
    fn new() -> Control
        ensures { result ≡ steering.clean_control }
    {
        Control {
            taints: no_taints(),
            branched: 0,
            synchronised: 0,
        }
    }

    /// The loads that go before an event by control.
    fn word(&self, synchronised: bool) -> u128
        ensures { result ≡ steering.control_word synchronised self.now }
    {
        if synchronised {
            self.synchronised
        } else {
            self.branched
        }
    }

    /// One instruction more, with its index among the events if it is one.
    fn note(&mut self, instruction: Instruction, index: u32)
        requires { machine.is_load instruction ≡ true → index < 128 }
        ensures { self.new ≡ steering.steered instruction index self.old }
    {
        match instruction {
            Instruction::Branch(_, _) => {
                self.branched |= operands(&self.taints, instruction);
            }
            Instruction::Fence(Fence::Isync) => {
                self.synchronised |= self.branched;
            }
            _ => {}
        }
        note(&mut self.taints, instruction, false, index);
    }
}

/// For each event, the loads from which it is behind a conditional branch, or, where
/// `synchronised`, behind an `isync` that is so. What is in the columns past the events stays.
fn control_columns(
    control: &mut Control,
    columns: &mut Columns,
    steps: &[RunStep],
    synchronised: bool,
)
    requires few { chains.event_index (runs.executed steps.now) (length steps.now) ≤ 128 }
    requires clean { control.old ≡ steering.clean_control }
    ensures columns { taint.AreLoadWordsOf (steering.control_of synchronised)
        (runs.executed steps.now) (length steps.now) columns.new }
    ensures clean { control.new ≡ steering.clean_control }
{
    let mut index = 0;
    for step in steps {
        let instruction = step.instruction;
        registers_fit(instruction);
        if is_event(instruction) {
            columns[index as usize] = control.word(synchronised);
            control.note(instruction, index);
            index += 1;
        } else {
            control.note(instruction, index);
        }
    }
    clean(&mut control.taints, steps);
    control.branched = 0;
    control.synchronised = 0;
}

/// Whether the word has the bit of an index.
fn has(word: u128, index: usize) -> bool
    requires { index < 128 }
    ensures { IsTrue result ↔ Bit word index }
{
    (word >> index) & 1 == 1
}

/// The pairs of a load and an event that it reaches, by rising loads.
fn pairs(alloc: Global, columns: &Columns, count: usize) -> Result<Vec<(usize, usize)>, AllocError>
    requires { count ≤ 128 }
    ensures within { IfOk result (λ v. All (IsPairBelow count) v.items) }
    ensures exact { IfOk result (λ v. found.ArePairsOfWords columns.now count v.items) }
{
    let mut pairs = Vec::new(alloc);
    for from in 0..count {
        for to in 0..count {
            if has(columns[to], from) {
                pairs.push((from, to))?;
            }
        }
    }
    Ok(pairs)
}

fn no_links(alloc: Global) -> Links
    ensures within { (n : ℕ) → HasBound n result }
    ensures none { found.HasNoLinks result }
{
    Links {
        addr_pairs: Vec::new(alloc),
        data_pairs: Vec::new(alloc),
        ctrl_pairs: Vec::new(alloc),
        ctrlisync_pairs: Vec::new(alloc),
        need_pairs: Vec::new(alloc),
    }
}

/// Where the loads along a run are noted. It is made once and serves one run after another.
#[derive(Clone, Copy)]
pub struct Workspace {
    known: Control,
    /// For each event the loads that reach it. Between runs they count for nothing.
    loads: Columns,
    /// Between runs no load reaches anything.
    ghost clean: { known ≡ steering.clean_control },
}

impl Workspace {
    /// A workspace for any run.
    pub fn new() -> Workspace {
        Workspace {
            known: Control::new(),
            loads: [0; 128],
        }
    }

    /// How the loads of the run reach its events: along chains of instructions that are no
    /// accesses, each of which reads a register, or CR0, that was last written by the one before.
    /// An exclusive or, or a difference, of a register with itself carries all but `need`. A run of
    /// over 128 events has no links. Errors: want of memory.
    pub fn links(&mut self, alloc: Global, run: &Run) -> Result<Links, AllocError>
        ensures within { IfOk result (HasBound (chains.event_index
            (runs.executed run.now.steps.items) (length run.now.steps.items))) }
        ensures exact { chains.event_index (runs.executed run.now.steps.items)
            (length run.now.steps.items) ≤ 128
            → IfOk result (found.AreLinks (runs.executed run.now.steps.items)) }
        ensures none { 128
            < chains.event_index (runs.executed run.now.steps.items)
            (length run.now.steps.items) → IfOk result found.HasNoLinks }
    {
        let steps = &run.steps;
        let count = event_count(steps);
        if count > 128 {
            return Ok(no_links(alloc));
        }
        reach(&mut self.known.taints, &mut self.loads, steps, false, false);
        let addr_pairs = pairs(alloc, &self.loads, count)?;
        reach(&mut self.known.taints, &mut self.loads, steps, false, true);
        let data_pairs = pairs(alloc, &self.loads, count)?;
        control_columns(&mut self.known, &mut self.loads, steps, false);
        let ctrl_pairs = pairs(alloc, &self.loads, count)?;
        control_columns(&mut self.known, &mut self.loads, steps, true);
        let ctrlisync_pairs = pairs(alloc, &self.loads, count)?;
        reach(&mut self.known.taints, &mut self.loads, steps, true, true);
        let need_pairs = pairs(alloc, &self.loads, count)?;
        Ok(Links {
            addr_pairs,
            data_pairs,
            ctrl_pairs,
            ctrlisync_pairs,
            need_pairs,
        })
    }
}

/// The links of a run, in a workspace of its own. Errors: want of memory.
pub fn links(alloc: Global, run: &Run) -> Result<Links, AllocError>
    ensures within { IfOk result (HasBound (chains.event_index (runs.executed run.now.steps.items)
        (length run.now.steps.items))) }
    ensures exact { chains.event_index (runs.executed run.now.steps.items)
        (length run.now.steps.items) ≤ 128
        → IfOk result (found.AreLinks (runs.executed run.now.steps.items)) }
    ensures none { 128
        < chains.event_index (runs.executed run.now.steps.items) (length run.now.steps.items)
        → IfOk result found.HasNoLinks }
{
    let mut workspace = Workspace::new();
    workspace.links(alloc, run)
}
