//! Chains of instructions, each of which feeds the next.

ghost use Rattle.std.specs.Prelude.{◌≡◌, ◌<◌, ◌≤◌, [], Some, length, IfOk, OnOk, if◌then◌else◌};
ghost use Rattle.meaning_plain.specs.Lists.{Grows};
ghost use Rattle.plain_events.specs.Slots.{slot_as, instructions_as, IsAmong, IsReadBy};
ghost use Rattle.plain_events.specs.Reaching.{IsWriterFound, HasChain, IsFedBy, ReachesSlot, ReachesOneOf};

use crate::slot::{Passes, Reads, Slot, Slots, is_stopped, is_written, slots_read};
use plain_runs::run::Instance;
use std::alloc::{AllocError, Global};

// The index, if the test holds, and else what was found before.
fn later(found: Option<usize>, index: usize, is: bool) -> Option<usize>
    ensures { result ≡ (if is then Some index else found) }
{
    if is { Some(index) } else { found }
}

/// The last of the instructions before the index that writes the slot.
pub fn last_writer(instances: &[Instance], slot: &Slot, before: usize) -> Option<usize>
    requires { before ≤ length instances.now }
    ensures { IsWriterFound (instructions_as instances.now) (slot_as slot.now) before result }
{
    let mut last = None;
    for index in 0..before {
        let is = is_written(instances[index].instruction, slot);
        last = later(last, index, is);
    }
    last
}

fn put_index(sources: &mut Vec<usize>, index: usize) -> Result<(), AllocError>
    ensures { OnOk result (Grows (λ i. i ≡ index) sources.old.items sources.new.items) }
{
    sources.push(index)?;
    Ok(())
}

// Puts where chains begin that end at an instruction.
#[cycle(chains)]
fn put_sources(
    instances: &[Instance],
    passes: Passes,
    index: usize,
    sources: &mut Vec<usize>,
) -> Result<(), AllocError>
    requires { index < length instances.now }
    ensures { OnOk result (Grows (HasChain passes (instructions_as instances.now) index)
        sources.old.items sources.new.items) }
{
    put_index(sources, index)?;
    put_fed(instances, passes, index, sources)?;
    Ok(())
}

// The same, for chains of one step or more.
#[cycle(chains)]
fn put_fed(
    instances: &[Instance],
    passes: Passes,
    index: usize,
    sources: &mut Vec<usize>,
) -> Result<(), AllocError>
    requires { index < length instances.now }
    ensures { OnOk result (Grows (IsFedBy passes (instructions_as instances.now) index)
        sources.old.items sources.new.items) }
{
    let instruction = instances[index].instruction;
    if is_stopped(passes, instruction) {
        return Ok(());
    }
    let slots = slots_read(Reads::Operand, instruction);
    put_all_sources(instances, passes, index, &slots, sources)?;
    Ok(())
}

// Puts where chains begin that end at the last instruction before the index that writes one of the
// slots.
#[cycle(chains)]
fn put_all_sources(
    instances: &[Instance],
    passes: Passes,
    index: usize,
    slots: &Slots,
    sources: &mut Vec<usize>,
) -> Result<(), AllocError>
    requires { index < length instances.now }
    ensures { OnOk result (Grows (ReachesOneOf passes (instructions_as instances.now) index
        (IsAmong slots.now)) sources.old.items sources.new.items) }
{
    match slots {
        Slots::Nothing => Ok(()),
        Slots::One(slot) => {
            put_slot_sources(instances, passes, index, slot, sources)?;
            Ok(())
        }
        Slots::Two(first, second) => {
            put_slot_sources(instances, passes, index, first, sources)?;
            put_slot_sources(instances, passes, index, second, sources)?;
            Ok(())
        }
    }
}

// The same, for one slot.
#[cycle(chains)]
fn put_slot_sources(
    instances: &[Instance],
    passes: Passes,
    index: usize,
    slot: &Slot,
    sources: &mut Vec<usize>,
) -> Result<(), AllocError>
    requires { index < length instances.now }
    ensures { OnOk result (Grows (ReachesSlot passes (instructions_as instances.now) index
        (slot_as slot.now)) sources.old.items sources.new.items) }
{
    match last_writer(instances, slot, index) {
        Some(writer) => {
            put_sources(instances, passes, writer, sources)?;
            Ok(())
        }
        None => Ok(()),
    }
}

/// The instructions from which a chain reaches a slot that an instruction reads in this way.
/// Errors: want of memory.
pub fn reaching(
    alloc: Global,
    instances: &[Instance],
    passes: Passes,
    reads: Reads,
    index: usize,
) -> Result<Vec<usize>, AllocError>
    requires { index < length instances.now }
    ensures { IfOk result (λ v. Grows (ReachesOneOf passes (instructions_as instances.now) index
        (IsReadBy reads (instructions_as instances.now index))) [] v.items) }
{
    let mut sources = Vec::new(alloc);
    let slots = slots_read(reads, instances[index].instruction);
    put_all_sources(instances, passes, index, &slots, &mut sources)?;
    Ok(sources)
}
