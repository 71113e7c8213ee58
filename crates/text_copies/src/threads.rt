//! Copies of threads.

ghost use Rattle.std.specs.Prelude.{◌≡◌, IfOk, map};
ghost use Rattle.text_values.specs.TestValue.{thread_steps};

use std::alloc::{AllocError, Global};
use text_values::{Instruction, Step, Thread};

fn copied_instruction(alloc: Global, instruction: &Instruction) -> Result<Instruction, AllocError>
    ensures { IfOk result (λ i. i ≡ instruction.now) }
{
    match instruction {
        Instruction::LoadImmediate { target, value } => Ok(Instruction::LoadImmediate {
            target: *target,
            value: *value,
        }),
        Instruction::Move { target, source } => Ok(Instruction::Move {
            target: *target,
            source: *source,
        }),
        Instruction::AddImmediate {
            target,
            left,
            value,
        } => Ok(Instruction::AddImmediate {
            target: *target,
            left: *left,
            value: *value,
        }),
        Instruction::Compute {
            operation,
            target,
            left,
            right,
        } => Ok(Instruction::Compute {
            operation: *operation,
            target: *target,
            left: *left,
            right: *right,
        }),
        Instruction::Load { target, base } => Ok(Instruction::Load {
            target: *target,
            base: *base,
        }),
        Instruction::LoadIndexed {
            target,
            base,
            index,
        } => Ok(Instruction::LoadIndexed {
            target: *target,
            base: *base,
            index: *index,
        }),
        Instruction::Store { source, base } => Ok(Instruction::Store {
            source: *source,
            base: *base,
        }),
        Instruction::StoreIndexed {
            source,
            base,
            index,
        } => Ok(Instruction::StoreIndexed {
            source: *source,
            base: *base,
            index: *index,
        }),
        Instruction::Compare { left, right } => Ok(Instruction::Compare {
            left: *left,
            right: *right,
        }),
        Instruction::CompareImmediate { left, value } => Ok(Instruction::CompareImmediate {
            left: *left,
            value: *value,
        }),
        Instruction::BranchIf { condition, label } => Ok(Instruction::BranchIf {
            condition: *condition,
            label: label.copied(alloc)?,
        }),
        Instruction::Branch { label } => Ok(Instruction::Branch {
            label: label.copied(alloc)?,
        }),
        Instruction::Fence(fence) => Ok(Instruction::Fence(*fence)),
    }
}

fn copied_step(alloc: Global, step: &Step) -> Result<Step, AllocError>
    ensures { IfOk result (λ s. s ≡ step.now) }
{
    match step {
        Step::Label(name) => Ok(Step::Label(name.copied(alloc)?)),
        Step::Instruction(instruction) => {
            Ok(Step::Instruction(copied_instruction(alloc, instruction)?))
        }
    }
}

fn copied_thread(alloc: Global, thread: &Thread) -> Result<Thread, AllocError>
    ensures { IfOk result (λ t. thread_steps t ≡ thread_steps thread.now) }
{
    let mut steps = Vec::with_capacity(alloc, thread.steps.len())?;
    for step in &thread.steps {
        steps.push(copied_step(alloc, step)?)?;
    }
    Ok(Thread { steps })
}

/// A copy of threads. Errors: out of memory.
pub fn copied_threads(alloc: Global, threads: &[Thread]) -> Result<Vec<Thread>, AllocError>
    ensures { IfOk result (λ v. map thread_steps v.items ≡ map thread_steps threads.now) }
{
    let mut copies = Vec::with_capacity(alloc, threads.len())?;
    for thread in threads {
        copies.push(copied_thread(alloc, thread)?)?;
    }
    Ok(copies)
}
