//! Dependencies of the instructions of a run on its loads.

ghost use Rattle.std.specs.Prelude.{◌≡◌, ◌↔◌, ◌<◌, ◌≤◌, length, Contains, IfOk, IsTrue};
ghost use Rattle.meaning.specs.Dependencies as dependencies;
ghost use Rattle.meaning.specs.Dependencies.{LoadReaches, IsAddr, IsData, IsNeed, IsCtrl, IsCtrlIsync};
ghost use Rattle.plain_events.specs.Slots.{instructions_as, IsReadBy, passes_of};
ghost use Rattle.plain_events.specs.Reaching.{IsBranchOn, IsIsyncOn, IsSoBefore};

use crate::chain::reaching;
use crate::slot::{Passes, Reads};
use plain_machine::instruction::{is_branch, is_fence, is_load, is_store};
use plain_runs::run::Instance;
use std::alloc::{AllocError, Global};
use text_values::{Fence, Instruction};

fn both(first: bool, second: bool) -> bool
    ensures { IsTrue result ↔ (IsTrue first × IsTrue second) }
{
    first && second
}

fn is_among(indexes: &[usize], index: usize) -> bool
    ensures { IsTrue result ↔ Contains indexes.now index }
{
    indexes.contains(&index)
}

// Whether the instruction at an index is a load and reaches a slot that another reads in this way.
fn is_reaching(
    alloc: Global,
    instances: &[Instance],
    passes: Passes,
    reads: Reads,
    from: usize,
    to: usize,
) -> Result<bool, AllocError>
    requires from { from < length instances.now }
    requires to { to < length instances.now }
    ensures { IfOk result (λ b. IsTrue b ↔ LoadReaches (passes_of passes) (IsReadBy reads)
        (instructions_as instances.now) from to) }
{
    let sources = reaching(alloc, instances, passes, reads, to)?;
    let loads = is_load(instances[from].instruction);
    let reaches = is_among(&sources, from);
    let is = both(loads, reaches);
    Ok(is)
}

/// Whether the instructions at these indexes are related by `addr`. Errors: want of memory, as in
/// all that follows.
pub fn is_addr(
    alloc: Global,
    instances: &[Instance],
    from: usize,
    to: usize,
) -> Result<bool, AllocError>
    requires from { from < length instances.now }
    requires to { to < length instances.now }
    ensures { IfOk result (λ b. IsTrue b ↔ IsAddr (instructions_as instances.now) from to) }
{
    let is = is_reaching(alloc, instances, Passes::Links, Reads::Address, from, to)?;
    Ok(is)
}

/// Whether they are related by `data`.
pub fn is_data(
    alloc: Global,
    instances: &[Instance],
    from: usize,
    to: usize,
) -> Result<bool, AllocError>
    requires from { from < length instances.now }
    requires to { to < length instances.now }
    ensures { IfOk result (λ b. IsTrue b ↔ IsData (instructions_as instances.now) from to) }
{
    let is = is_reaching(alloc, instances, Passes::Links, Reads::Stored, from, to)?;
    Ok(is)
}

/// Whether they are related by need.
pub fn is_need(
    alloc: Global,
    instances: &[Instance],
    from: usize,
    to: usize,
) -> Result<bool, AllocError>
    requires from { from < length instances.now }
    requires to { to < length instances.now }
    ensures { IfOk result (λ b. IsTrue b ↔ IsNeed (instructions_as instances.now) from to) }
{
    let is = is_reaching(
        alloc,
        instances,
        Passes::LinksOfNeed,
        Reads::Stored,
        from,
        to,
    )?;
    Ok(is)
}

fn is_event(instruction: &Instruction) -> bool
    ensures { result ≡ dependencies.is_event instruction.now }
{
    is_load(instruction) || is_store(instruction) || is_fence(instruction)
}

fn is_isync(instruction: &Instruction) -> bool
    ensures { result ≡ dependencies.is_isync instruction.now }
{
    match instruction {
        Instruction::Fence(Fence::Isync) => true,
        Instruction::Fence(Fence::Sync) => false,
        Instruction::Fence(Fence::LightweightSync) => false,
        Instruction::Fence(Fence::Eieio) => false,
        _ => false,
    }
}

// Whether the instruction at an index is a branch and reads what a load reaches.
fn is_branch_on(
    alloc: Global,
    instances: &[Instance],
    from: usize,
    index: usize,
) -> Result<bool, AllocError>
    requires from { from < length instances.now }
    requires index { index < length instances.now }
    ensures { IfOk result (λ b. IsTrue b ↔ IsBranchOn (instructions_as instances.now) from index) }
{
    let branches = is_branch(instances[index].instruction);
    let reaches = is_reaching(alloc, instances, Passes::Links, Reads::Operand, from, index)?;
    let is = both(branches, reaches);
    Ok(is)
}

// Whether there is one before an index.
fn has_branch_before(
    alloc: Global,
    instances: &[Instance],
    from: usize,
    to: usize,
) -> Result<bool, AllocError>
    requires from { from < length instances.now }
    requires to { to < length instances.now }
    ensures { IfOk result (λ b. IsTrue b
        ↔ IsSoBefore (IsBranchOn (instructions_as instances.now) from) to) }
{
    for index in 0..to {
        let is = is_branch_on(alloc, instances, from, index)?;
        if is {
            return Ok(true);
        }
    }
    Ok(false)
}

/// Whether they are related by `ctrl`.
pub fn is_ctrl(
    alloc: Global,
    instances: &[Instance],
    from: usize,
    to: usize,
) -> Result<bool, AllocError>
    requires from { from < length instances.now }
    requires to { to < length instances.now }
    ensures { IfOk result (λ b. IsTrue b ↔ IsCtrl (instructions_as instances.now) from to) }
{
    let does = is_event(instances[to].instruction);
    let depends = has_branch_before(alloc, instances, from, to)?;
    let is = both(does, depends);
    Ok(is)
}

// Whether the instruction at an index is `isync` and `ctrl`-after a load.
fn is_isync_on(
    alloc: Global,
    instances: &[Instance],
    from: usize,
    index: usize,
) -> Result<bool, AllocError>
    requires from { from < length instances.now }
    requires index { index < length instances.now }
    ensures { IfOk result (λ b. IsTrue b ↔ IsIsyncOn (instructions_as instances.now) from index) }
{
    let fences = is_isync(instances[index].instruction);
    let depends = is_ctrl(alloc, instances, from, index)?;
    let is = both(fences, depends);
    Ok(is)
}

// Whether there is one before an index.
fn has_isync_before(
    alloc: Global,
    instances: &[Instance],
    from: usize,
    to: usize,
) -> Result<bool, AllocError>
    requires from { from < length instances.now }
    requires to { to < length instances.now }
    ensures { IfOk result (λ b. IsTrue b
        ↔ IsSoBefore (IsIsyncOn (instructions_as instances.now) from) to) }
{
    for index in 0..to {
        let is = is_isync_on(alloc, instances, from, index)?;
        if is {
            return Ok(true);
        }
    }
    Ok(false)
}

/// Whether they are related by `ctrlisync`.
pub fn is_ctrlisync(
    alloc: Global,
    instances: &[Instance],
    from: usize,
    to: usize,
) -> Result<bool, AllocError>
    requires from { from < length instances.now }
    requires to { to < length instances.now }
    ensures { IfOk result (λ b. IsTrue b ↔ IsCtrlIsync (instructions_as instances.now) from to) }
{
    let does = is_event(instances[to].instruction);
    let depends = has_isync_before(alloc, instances, from, to)?;
    let is = both(does, depends);
    Ok(is)
}
