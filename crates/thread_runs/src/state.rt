//! The state of a thread, and what each instruction does to it.
ghost use Rattle.std.specs.Prelude.{◌≡◌};
ghost use Rattle.thread_runs.specs.Machine as machine;

use crate::instruction::{Event, Instruction, Program};
use crate::value::{
    Comparison, Value, compare, conjunction, difference, disjunction, exclusive, is_address,
    is_value, sum,
};
use text_values::{BranchCondition, Operation};

/// The registers and CR0.
#[derive(Clone, Copy)]
pub struct State {
    /// The values of `r0` to `r31`.
    pub registers: [Value; 32],
    /// The last comparison, in CR0.
    pub compared: Comparison,
}

impl State {
    ghost use Rattle.thread_runs.specs.AllRuns as all;

    /// The state in which a thread begins. CR0 starts as equal.
    pub fn first(program: &Program, thread: usize) -> State
        ensures { result ≡ all.first_of program.now thread }
    {
        let registers = match program.registers.get(thread) {
            Some(file) => *file,
            None => [Value::Number(0); 32],
        };
        State {
            registers,
            compared: Comparison::Equal,
        }
    }
}

fn outcome(operation: Operation, v: Value, w: Value) -> Value
    ensures { result ≡ machine.operation_value operation v w }
{
    match operation {
        Operation::Add => sum(v, w),
        Operation::SubtractFrom => difference(v, w),
        Operation::Xor => exclusive(v, w),
        Operation::Or => disjunction(v, w),
        Operation::And => conjunction(v, w),
    }
}

/// Whether the operation gives the same value whatever its registers hold, as both are the same
/// register.
pub fn cancels(operation: Operation, a: u8, b: u8) -> bool
    ensures { result ≡ machine.cancels operation a b }
{
    match operation {
        Operation::SubtractFrom | Operation::Xor => a == b,
        Operation::Add | Operation::Or | Operation::And => false,
    }
}

fn is_taken(condition: BranchCondition, compared: Comparison) -> bool
    ensures { result ≡ machine.is_taken condition compared }
{
    match condition {
        BranchCondition::Equal => matches!(compared, Comparison::Equal),
        BranchCondition::NotEqual => !matches!(compared, Comparison::Equal),
        BranchCondition::Less => matches!(compared, Comparison::Less),
        BranchCondition::Greater => matches!(compared, Comparison::Greater),
        BranchCondition::LessOrEqual => matches!(compared, Comparison::Less | Comparison::Equal),
        BranchCondition::GreaterOrEqual => matches!(
            compared,
            Comparison::Greater | Comparison::Equal
        ),
    }
}

fn is_senseless(condition: BranchCondition, compared: Comparison) -> bool
    ensures { result ≡ machine.is_senseless condition compared }
{
    match condition {
        BranchCondition::Equal | BranchCondition::NotEqual => false,
        _ => matches!(compared, Comparison::Unlike),
    }
}

/// The value of the register of this number.
pub fn register(state: &State, r: u8) -> Value
    ensures { result ≡ machine.register state.now r }
{
    match state.registers.get(usize::from(r)) {
        Some(v) => *v,
        None => Value::Number(0),
    }
}

fn put(state: &mut State, r: u8, v: Value)
    ensures { state.new ≡ machine.with_register state.old r v }
{
    if usize::from(r) < 32 {
        state.registers[usize::from(r)] = v;
    }
}

fn operated(operation: Operation, a: u8, b: u8, state: &State) -> Value
    ensures { result ≡ machine.operated operation a b state.now }
{
    if cancels(operation, a, b) {
        Value::Number(0)
    } else {
        outcome(operation, register(state, a), register(state, b))
    }
}

/// The step of the instruction, which has loaded the value if it is a load.
pub fn apply(instruction: Instruction, loaded: Value, state: &mut State)
    ensures { state.new ≡ machine.state_after instruction loaded state.old }
{
    match instruction {
        Instruction::Immediate(d, n) => put(state, d, Value::Number(n)),
        Instruction::Move(d, a) => {
            let value = register(state, a);
            put(state, d, value)
        }
        Instruction::AddImmediate(d, a, n) => {
            let value = sum(register(state, a), Value::Number(n));
            put(state, d, value)
        }
        Instruction::Operate(operation, d, a, b) => {
            let value = operated(operation, a, b, state);
            put(state, d, value)
        }
        Instruction::Load(d, _) => put(state, d, loaded),
        Instruction::LoadIndexed(d, _, _) => put(state, d, loaded),
        Instruction::Compare(a, b) => {
            state.compared = compare(register(state, a), register(state, b));
        }
        Instruction::CompareImmediate(a, n) => {
            state.compared = compare(register(state, a), Value::Number(n));
        }
        Instruction::Store(_, _)
        | Instruction::StoreIndexed(_, _, _)
        | Instruction::Branch(_, _)
        | Instruction::Jump(_)
        | Instruction::Fence(_) => {}
    }
}

/// The address of a load; of another instruction no value.
pub fn address(instruction: Instruction, state: &State) -> Value
    ensures { result ≡ machine.address_of instruction state.now }
{
    match instruction {
        Instruction::Load(_, a) => register(state, a),
        Instruction::LoadIndexed(_, a, b) => sum(register(state, a), register(state, b)),
        _ => Value::NoValue,
    }
}

/// The event of the instruction, if it has one.
pub fn event(instruction: Instruction, loaded: Value, state: &State) -> Option<Event>
    ensures { machine.event_of instruction loaded state.now ≡ machine.list_of result }
{
    match instruction {
        Instruction::Load(_, a) => Some(Event::Load(register(state, a), loaded)),
        Instruction::LoadIndexed(_, a, b) => {
            let address = sum(register(state, a), register(state, b));
            Some(Event::Load(address, loaded))
        }
        Instruction::Store(d, a) => Some(Event::Store(register(state, a), register(state, d))),
        Instruction::StoreIndexed(d, a, b) => {
            let address = sum(register(state, a), register(state, b));
            Some(Event::Store(address, register(state, d)))
        }
        Instruction::Fence(fence) => Some(Event::Fence(fence)),
        _ => None,
    }
}

/// Whether the instruction is a fault here.
pub fn is_fault(instruction: Instruction, state: &State) -> bool
    ensures { result ≡ machine.is_fault instruction state.now }
{
    match instruction {
        Instruction::AddImmediate(_, a, n) => {
            !is_value(sum(register(state, a), Value::Number(n)))
        }
        Instruction::Operate(operation, _, a, b) => !is_value(operated(operation, a, b, state)),
        Instruction::Load(_, a) | Instruction::Store(_, a) => !is_address(register(state, a)),
        Instruction::LoadIndexed(_, a, b) | Instruction::StoreIndexed(_, a, b) => {
            !is_address(sum(register(state, a), register(state, b)))
        }
        Instruction::Branch(condition, _) => is_senseless(condition, state.compared),
        _ => false,
    }
}

/// Whether the instruction reads memory.
pub fn is_load(instruction: Instruction) -> bool
    ensures { result ≡ machine.is_load instruction }
{
    matches!(
        instruction,
        Instruction::Load(..) | Instruction::LoadIndexed(..)
    )
}

/// Whether the instruction is a conditional branch.
pub fn is_branch(instruction: Instruction) -> bool
    ensures { result ≡ machine.is_branch instruction }
{
    matches!(instruction, Instruction::Branch(_, _))
}

/// Whether a branch is taken here.
pub fn goes(instruction: Instruction, state: &State) -> bool
    ensures { result ≡ machine.takes_branch instruction state.now }
{
    match instruction {
        Instruction::Branch(condition, _) => is_taken(condition, state.compared),
        _ => false,
    }
}

/// The label at which the thread goes on, or `None` if it goes on at the next line.
pub fn target(instruction: Instruction, jumps: bool) -> Option<usize>
    ensures { result ≡ machine.branch_target instruction jumps }
{
    match instruction {
        Instruction::Branch(_, label) => { if jumps { Some(label) } else { None } }
        Instruction::Jump(label) => Some(label),
        _ => None,
    }
}
