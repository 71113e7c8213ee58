//! What instructions read and write beside memory.

ghost use Rattle.std.specs.Prelude.{◌≡◌, ◌↔◌, option_map, Some, false, IsTrue};
ghost use Rattle.meaning.specs.Dependencies as dependencies;
ghost use Rattle.meaning.specs.Dependencies.{IsWritten, IsAddressRegister, IsStoredRegister, IsOperand};
ghost use Rattle.plain_events.specs.Slots.{slot_as, IsAmong, IsReadBy, passes_of};

use plain_machine::instruction::{cancels, is_load, is_store};
use text_values::{Instruction, Register};

/// What an instruction reads or writes beside memory.
#[derive(Clone, Copy)]
pub enum Slot {
    /// A register.
    Register(Register),
    /// CR0.
    Cr0,
}

/// How an instruction reads a slot.
#[derive(Clone, Copy)]
pub enum Reads {
    /// As a part of the address of a load or a store.
    Address,
    /// As what a store stores.
    Stored,
    /// Otherwise.
    Operand,
}

/// Through which instructions a chain may run.
#[derive(Clone, Copy)]
pub enum Passes {
    /// Through those that are no load and no store.
    Links,
    /// Through those of them that are no `xor` or `subf` of a register with itself.
    LinksOfNeed,
}

/// The slots that an instruction reads in one of these ways.
#[derive(Clone, Copy)]
pub enum Slots {
    /// It reads none so.
    Nothing,
    /// It reads this one.
    One(Slot),
    /// It reads both, which may be the same.
    Two(Slot, Slot),
}

/// Whether both are the same.
pub fn is_same_slot(first: &Slot, second: &Slot) -> bool
    ensures { IsTrue result ↔ (slot_as first.now ≡ slot_as second.now) }
{
    match (first, second) {
        (Slot::Register(r), Slot::Register(q)) => r.number() == q.number(),
        (Slot::Cr0, Slot::Cr0) => true,
        (Slot::Register(_), Slot::Cr0) => false,
        (Slot::Cr0, Slot::Register(_)) => false,
    }
}

// The slot that an instruction writes, if it writes one.
fn written(instruction: &Instruction) -> Option<Slot>
    ensures { (p : dependencies.Slot)
        → (option_map slot_as result ≡ Some p) ↔ IsWritten instruction.now p }
{
    match instruction {
        Instruction::LoadImmediate { target, .. } => Some(Slot::Register(*target)),
        Instruction::Move { target, .. } => Some(Slot::Register(*target)),
        Instruction::AddImmediate { target, .. } => Some(Slot::Register(*target)),
        Instruction::Compute { target, .. } => Some(Slot::Register(*target)),
        Instruction::Load { target, .. } => Some(Slot::Register(*target)),
        Instruction::LoadIndexed { target, .. } => Some(Slot::Register(*target)),
        Instruction::Compare { .. } => Some(Slot::Cr0),
        Instruction::CompareImmediate { .. } => Some(Slot::Cr0),
        _ => None,
    }
}

/// Whether an instruction writes the slot.
pub fn is_written(instruction: &Instruction, slot: &Slot) -> bool
    ensures { IsTrue result ↔ IsWritten instruction.now (slot_as slot.now) }
{
    match written(instruction) {
        Some(one) => is_same_slot(&one, slot),
        None => false,
    }
}

// The slots that an instruction reads as its address.
fn address_slots(instruction: &Instruction) -> Slots
    ensures { (p : dependencies.Slot) → IsAmong result p ↔ IsAddressRegister instruction.now p }
{
    match instruction {
        Instruction::Load { base, .. } => Slots::One(Slot::Register(*base)),
        Instruction::LoadIndexed { base, index, .. } => Slots::Two(
            Slot::Register(*base),
            Slot::Register(*index),
        ),
        Instruction::Store { base, .. } => Slots::One(Slot::Register(*base)),
        Instruction::StoreIndexed { base, index, .. } => Slots::Two(
            Slot::Register(*base),
            Slot::Register(*index),
        ),
        _ => Slots::Nothing,
    }
}

// The slots that hold what an instruction stores.
fn stored_slots(instruction: &Instruction) -> Slots
    ensures { (p : dependencies.Slot) → IsAmong result p ↔ IsStoredRegister instruction.now p }
{
    match instruction {
        Instruction::Store { source, .. } => Slots::One(Slot::Register(*source)),
        Instruction::StoreIndexed { source, .. } => Slots::One(Slot::Register(*source)),
        _ => Slots::Nothing,
    }
}

// The slots that an instruction reads otherwise.
fn operand_slots(instruction: &Instruction) -> Slots
    ensures { (p : dependencies.Slot) → IsAmong result p ↔ IsOperand instruction.now p }
{
    match instruction {
        Instruction::Move { source, .. } => Slots::One(Slot::Register(*source)),
        Instruction::AddImmediate { left, .. } => Slots::One(Slot::Register(*left)),
        Instruction::Compute { left, right, .. } => Slots::Two(
            Slot::Register(*left),
            Slot::Register(*right),
        ),
        Instruction::Compare { left, right } => Slots::Two(
            Slot::Register(*left),
            Slot::Register(*right),
        ),
        Instruction::CompareImmediate { left, .. } => Slots::One(Slot::Register(*left)),
        Instruction::BranchIf { .. } => Slots::One(Slot::Cr0),
        _ => Slots::Nothing,
    }
}

/// The slots that an instruction reads in this way.
pub fn slots_read(reads: Reads, instruction: &Instruction) -> Slots
    ensures { (p : dependencies.Slot) → IsAmong result p ↔ IsReadBy reads instruction.now p }
{
    match reads {
        Reads::Address => address_slots(instruction),
        Reads::Stored => stored_slots(instruction),
        Reads::Operand => operand_slots(instruction),
    }
}

fn is_link(instruction: &Instruction) -> bool
    ensures { result ≡ dependencies.is_link instruction.now }
{
    !(is_load(instruction) || is_store(instruction))
}

fn is_link_of_need(instruction: &Instruction) -> bool
    ensures { result ≡ dependencies.is_link_of_need instruction.now }
{
    match instruction {
        Instruction::Compute {
            operation,
            left,
            right,
            ..
        } => !cancels(*operation, *left, *right),
        _ => is_link(instruction),
    }
}

// Whether a chain may run through the instruction.
fn is_passed(passes: Passes, instruction: &Instruction) -> bool
    ensures { result ≡ passes_of passes instruction.now }
{
    match passes {
        Passes::Links => is_link(instruction),
        Passes::LinksOfNeed => is_link_of_need(instruction),
    }
}

/// Whether no chain may run through the instruction.
pub fn is_stopped(passes: Passes, instruction: &Instruction) -> bool
    ensures { IsTrue result ↔ (passes_of passes instruction.now ≡ false) }
{
    !is_passed(passes, instruction)
}
