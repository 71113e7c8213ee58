//! How loads reach the events of a run, in one pass.
ghost use Rattle.std.specs.Prelude.{◌≡◌, ◌<◌, ◌≤◌, true, length};
ghost use Rattle.taints.specs.Chains as chains;
ghost use Rattle.thread_runs.specs.Machine as machine;
ghost use Rattle.thread_runs.specs.Runs as runs;
ghost use Rattle.taints.specs.Taints as taint;

use thread_runs::{Instruction, RunStep, cancels, is_load};

/// For each register, and for CR0, the loads that reach it: bits, by their indexes among the
/// events.
#[derive(Clone, Copy)]
pub struct Taints {
    /// By the register's number.
    pub registers: [u128; 256],
    /// Those that reach CR0.
    pub compared: u128,
}

/// For each event, the loads that reach it: bits, by their indexes among the events.
pub type Columns = [u128; 128];

/// No load reaches anything.
pub fn no_taints() -> Taints
    ensures { result ≡ taint.clean_taints }
{
    Taints {
        registers: [0; 256],
        compared: 0,
    }
}

fn bits_of(taints: &Taints, r: u8) -> u128
    ensures { result ≡ taint.word_of taints.now (chains.Register r) }
{
    taints.registers[usize::from(r)]
}

/// Whether the instruction passes values on.
fn passes(instruction: Instruction, narrow: bool) -> bool
    ensures { result ≡ taint.passes_of narrow instruction }
{
    match instruction {
        Instruction::Load(..)
        | Instruction::LoadIndexed(..)
        | Instruction::Store(..)
        | Instruction::StoreIndexed(..) => false,
        Instruction::Operate(operation, _, a, b) => !narrow || !cancels(operation, a, b),
        _ => true,
    }
}

/// The bits of all operands.
pub fn operands(taints: &Taints, instruction: Instruction) -> u128
    ensures { result ≡ taint.operand_word instruction taints.now }
{
    match instruction {
        Instruction::Move(_, a)
        | Instruction::AddImmediate(_, a, _)
        | Instruction::CompareImmediate(a, _) => bits_of(taints, a),
        Instruction::Operate(_, _, a, b) | Instruction::Compare(a, b) => {
            bits_of(taints, a) | bits_of(taints, b)
        }
        Instruction::Branch(_, _) => taints.compared,
        _ => 0,
    }
}

/// A word with one bit.
fn bit(index: u32) -> u128
    requires { index < 128 }
    ensures { result ≡ taint.bit_word index }
{
    1 << index
}

/// The bits of what the instruction writes.
fn origin(taints: &Taints, instruction: Instruction, narrow: bool, index: u32) -> u128
    requires { machine.is_load instruction ≡ true → index < 128 }
    ensures { result ≡ taint.origin_word narrow instruction index taints.now }
{
    if is_load(instruction) {
        bit(index)
    } else if passes(instruction, narrow) {
        operands(taints, instruction)
    } else {
        0
    }
}

/// Sets the bits of what the instruction writes.
fn write(taints: &mut Taints, instruction: Instruction, word: u128)
    ensures { taints.new ≡ taint.with_word instruction word taints.old }
{
    match instruction {
        Instruction::Immediate(d, _)
        | Instruction::Move(d, _)
        | Instruction::AddImmediate(d, _, _)
        | Instruction::Operate(_, d, _, _)
        | Instruction::Load(d, _)
        | Instruction::LoadIndexed(d, _, _) => taints.registers[usize::from(d)] = word,
        Instruction::Compare(_, _) | Instruction::CompareImmediate(_, _) => taints.compared = word,
        _ => {}
    }
}

/// Notes what the instruction writes.
pub fn note(taints: &mut Taints, instruction: Instruction, narrow: bool, index: u32)
    requires { machine.is_load instruction ≡ true → index < 128 }
    ensures { taints.new ≡ taint.taints_after narrow instruction index taints.old }
{
    let word = origin(taints, instruction, narrow, index);
    write(taints, instruction, word);
}

/// Sets back all words, of which only those that one of the steps writes have bits.
pub fn clean(taints: &mut Taints, steps: &[RunStep])
    requires { taint.IsWrittenBetween (runs.executed steps.now) 0 (length steps.now) taints.old }
    ensures { taints.new ≡ taint.clean_taints }
{
    for step in steps {
        write(taints, step.instruction, 0);
    }
}

/// The bits of what an access reads: of its address, or of what it stores.
fn reads(taints: &Taints, instruction: Instruction, stored: bool) -> u128
    ensures { result ≡ taint.read_word stored instruction taints.now }
{
    if stored {
        match instruction {
            Instruction::Store(d, _) | Instruction::StoreIndexed(d, _, _) => bits_of(taints, d),
            _ => 0,
        }
    } else {
        match instruction {
            Instruction::Load(_, a) | Instruction::Store(_, a) => bits_of(taints, a),
            Instruction::LoadIndexed(_, a, b) | Instruction::StoreIndexed(_, a, b) => {
                bits_of(taints, a) | bits_of(taints, b)
            }
            _ => 0,
        }
    }
}

/// Whether the instruction is a load, a store or a fence.
pub fn is_event(instruction: Instruction) -> bool
    ensures { result ≡ chains.is_event instruction }
{
    matches!(
        instruction,
        Instruction::Load(..)
            | Instruction::LoadIndexed(..)
            | Instruction::Store(..)
            | Instruction::StoreIndexed(..)
            | Instruction::Fence(_)
    )
}

/// Every register is within the file of registers: nothing is done, and the contract says it.
pub fn registers_fit(instruction: Instruction)
    ensures operands { (p : chains.Resource) → chains.IsOperand instruction p → taint.IsInFile p }
    ensures addresses { (p : chains.Resource) → chains.IsAddressRegister instruction p
        → taint.IsInFile p }
    ensures stored { (p : chains.Resource) → chains.IsStoredRegister instruction p
        → taint.IsInFile p }
{
    match instruction {
        Instruction::Move(_, _a) => {}
        Instruction::AddImmediate(_, _a, _) => {}
        Instruction::CompareImmediate(_a, _) => {}
        Instruction::Load(_, _a) => {}
        Instruction::Operate(_, _, _a, _b) => {}
        Instruction::Compare(_a, _b) => {}
        Instruction::LoadIndexed(_, _a, _b) => {}
        Instruction::Store(_d, _a) => {}
        Instruction::StoreIndexed(_d, _a, _b) => {}
        Instruction::Immediate(_, _) => {}
        Instruction::Branch(_, _) => {}
        Instruction::Jump(_) => {}
        Instruction::Fence(_) => {}
    }
}

/// For each event of a run, the loads that reach its address, or what it stores. What is in the
/// columns past the events stays.
pub fn reach(
    taints: &mut Taints,
    columns: &mut Columns,
    steps: &[RunStep],
    narrow: bool,
    stored: bool,
)
    requires few { chains.event_index (runs.executed steps.now) (length steps.now) ≤ 128 }
    requires clean { taints.old ≡ taint.clean_taints }
    ensures columns { taint.AreLoadWords narrow stored (runs.executed steps.now) (length steps.now)
        columns.new }
    ensures clean { taints.new ≡ taint.clean_taints }
{
    let mut index = 0;
    for step in steps {
        let instruction = step.instruction;
        registers_fit(instruction);
        if is_event(instruction) {
            columns[index as usize] = reads(taints, instruction, stored);
            note(taints, instruction, narrow, index);
            index += 1;
        } else {
            note(taints, instruction, narrow, index);
        }
    }
    clean(taints, steps);
}
