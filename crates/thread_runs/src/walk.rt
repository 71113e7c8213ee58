//! The walk of a thread through its lines.
ghost use Rattle.std.specs.Prelude.{◌≡◌, IfOk, OnOk};
ghost use Rattle.thread_runs.specs.Machine as machine;
ghost use Rattle.thread_runs.specs.Runs as runs;

use crate::instruction::{Event, Instruction, Line, RunStep};
use crate::state::{State, address, apply, event, goes, is_fault, target};
use crate::value::Value;
use std::alloc::{AllocError, Global};
use std::marker::Model;

/// A copy of the list, with room for as many items as the list has room for. Errors: out of memory.
pub fn copied_with_room<T: Copy>(alloc: Global, items: &Vec<T>) -> Result<Vec<T>, AllocError>
    ensures { IfOk result (λ v. v.items ≡ items.now.items) }
{
    let mut copy = Vec::with_capacity(alloc, items.capacity())?;
    copy.extend_from_slice(items)?;
    Ok(copy)
}

/// The label that a thread is looking for, and what it has done.
#[derive(Drop)]
pub struct Walk {
    state: State,
    seeking: Option<usize>,
    steps: Vec<RunStep>,
    events: Vec<Event>,
}

impl Model for Walk {
    ghost use Rattle.thread_runs.specs.Runs as runs;

    ghost Value = { runs.Walk };

    ghost view = { λ w. record {
      state = w.state;
      seeking = w.seeking;
      steps = w.steps.items;
      events = w.events.items;
    } };
}

impl Walk {
    /// A walk at the first line, where nothing is done.
    pub fn started(alloc: Global, state: State) -> Walk
        ensures { result ≡ runs.walk_at state }
    {
        Walk {
            state,
            seeking: None,
            steps: Vec::new(alloc),
            events: Vec::new(alloc),
        }
    }

    /// A copy of the walk. Errors: out of memory.
    pub fn copied(&self, alloc: Global) -> Result<Walk, AllocError>
        ensures { IfOk result (λ w. w ≡ self.now) }
    {
        Ok(Walk {
            state: self.state,
            seeking: self.seeking,
            steps: copied_with_room(alloc, &self.steps)?,
            events: copied_with_room(alloc, &self.events)?,
        })
    }

    /// One instruction more.
    pub fn advance(
        &mut self,
        instruction: Instruction,
        jumps: bool,
        loaded: Value,
    ) -> Result<(), AllocError>
        ensures { OnOk result (self.new ≡ runs.walk_after instruction jumps loaded self.old) }
    {
        if let Some(event) = event(instruction, loaded, &self.state) {
            self.events.push(event)?;
        }
        self.steps.push(RunStep {
            instruction,
            loaded,
        })?;
        apply(instruction, loaded, &mut self.state);
        self.seeking = target(instruction, jumps);
        Ok(())
    }

    /// Passes over a line.
    pub fn pass(&mut self, line: Line, label: usize)
        ensures { self.new ≡ runs.walk_past line label self.old }
    {
        self.seeking = match line {
            Line::Label(here) => { if label == here { None } else { Some(label) } }
            Line::Does(_) => Some(label),
        };
    }

    /// The label that is looked for, if a branch was taken.
    pub fn seeking(&self) -> Option<usize>
        ensures { result ≡ self.now.seeking }
    {
        self.seeking
    }

    /// Whether the instruction would be a fault now.
    pub fn is_fault(&self, instruction: Instruction) -> bool
        ensures { result ≡ runs.is_fault instruction self.now.state }
    {
        is_fault(instruction, &self.state)
    }

    /// The address of a load now.
    pub fn address(&self, instruction: Instruction) -> Value
        ensures { result ≡ machine.address_of instruction self.now.state }
    {
        address(instruction, &self.state)
    }

    /// Whether the instruction, if it is a branch, is taken now.
    pub fn goes(&self, instruction: Instruction) -> bool
        ensures { result ≡ runs.takes_branch instruction self.now.state }
    {
        goes(instruction, &self.state)
    }

    /// The values of the registers now.
    pub fn registers(&self) -> [Value; 32]
        ensures { result ≡ self.now.state.registers }
    {
        self.state.registers
    }

    /// The steps and the events.
    pub fn into_lists(self) -> (Vec<RunStep>, Vec<Event>)
        ensures steps { result.0.items ≡ self.steps }
        ensures events { result.1.items ≡ self.events }
    {
        (self.steps, self.events)
    }
}
