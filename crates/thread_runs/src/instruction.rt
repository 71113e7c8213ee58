//! Programs: threads whose locations and labels are numbers.

use crate::value::Value;
use text_values::{BranchCondition, Fence, Name, Operation};

/// An instruction (Power ISA, books I and II). Its first register is the one that it writes, or
/// stores.
#[derive(Clone, Copy)]
pub enum Instruction {
    /// `li`: the register becomes the number.
    Immediate(u8, u32),
    /// `mr`: the first becomes the second.
    Move(u8, u8),
    /// `addi`: the first becomes the sum of the second and the number.
    AddImmediate(u8, u8, u32),
    /// `add`, `subf`, `xor`, `or` or `and`: the first becomes the result on the second and the
    /// third.
    Operate(Operation, u8, u8, u8),
    /// `lwz`: the first is loaded from the address in the second.
    Load(u8, u8),
    /// `lwzx`: the first is loaded from the sum of the others.
    LoadIndexed(u8, u8, u8),
    /// `stw`: the first is stored at the address in the second.
    Store(u8, u8),
    /// `stwx`: the first is stored at the sum of the others.
    StoreIndexed(u8, u8, u8),
    /// `cmpw`: CR0 becomes the comparison of the first with the second.
    Compare(u8, u8),
    /// `cmpwi`: CR0 becomes the comparison of the register with the number.
    CompareImmediate(u8, u32),
    /// A conditional branch to a label.
    Branch(BranchCondition, usize),
    /// `b`: a branch to a label.
    Jump(usize),
    /// A fence.
    Fence(Fence),
}

/// A line of a thread: a label by its number, or an instruction.
#[derive(Clone, Copy)]
pub enum Line {
    /// A label, by its index among those of its thread, sorted by name bytes.
    Label(usize),
    /// An instruction.
    Does(Instruction),
}

/// A test whose locations and labels are numbers.
#[derive(Drop)]
pub struct Program {
    /// All locations of the test, sorted by name bytes, each once.
    pub locations: Vec<Name>,
    /// The initial value of each location.
    pub initial: Vec<Value>,
    /// The lines of each thread.
    pub threads: Vec<Vec<Line>>,
    /// The initial values of the registers of each thread.
    pub registers: Vec<[Value; 32]>,
}

/// An event: an access with its address and its value, or a fence.
#[derive(Clone, Copy)]
pub enum Event {
    /// A load: its address and the value that it loads.
    Load(Value, Value),
    /// A store: its address and the value that it stores.
    Store(Value, Value),
    /// A fence.
    Fence(Fence),
}

/// An instruction that was executed, with the value that it loaded if it is a load.
#[derive(Clone, Copy)]
pub struct RunStep {
    /// The instruction.
    pub instruction: Instruction,
    /// The loaded value, or no value if it is not a load.
    pub loaded: Value,
}
