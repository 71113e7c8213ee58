//! What instructions do to the state of a thread.

ghost use Rattle.std.specs.Prelude.{◌≡◌, option_map, option_to_list};
ghost use Rattle.meaning.specs.Machine as machine;
ghost use Rattle.plain_machine.specs.Values.{value_as, state_as};

use crate::state::{State, register, with_comparison, with_register};
use crate::value::{
    Value, compared, is_address, is_taken, is_value, lacks_order, operated, sum, word,
};
use text_values::{Instruction, Operation, Register};

/// Whether it is `xor` or `subf` of a register with itself.
pub fn cancels(operation: Operation, left: Register, right: Register) -> bool
    ensures { result ≡ machine.cancels operation left right }
{
    match operation {
        Operation::SubtractFrom | Operation::Xor => left.number() == right.number(),
        Operation::Add | Operation::Or | Operation::And => false,
    }
}

/// What an operation gives of two registers.
pub fn computed<'a>(
    state: &State<'a>,
    operation: Operation,
    left: Register,
    right: Register,
) -> Value<'a>
    ensures { value_as result ≡ machine.result_in (state_as state.now) operation left right }
{
    if cancels(operation, left, right) {
        return Value::Number(0);
    }
    let first = register(state, left);
    let second = register(state, right);
    operated(operation, &first, &second)
}

/// `add` of two registers.
pub fn sum_in<'a>(state: &State<'a>, left: Register, right: Register) -> Value<'a>
    ensures { value_as result ≡ machine.sum_of (machine.register (state_as state.now) left)
        (machine.register (state_as state.now) right) }
{
    let first = register(state, left);
    let second = register(state, right);
    sum(&first, &second)
}

/// The sum of a register and a number.
pub fn sum_with<'a>(state: &State<'a>, left: Register, value: i32) -> Value<'a>
    ensures { value_as result ≡ machine.sum_of (machine.register (state_as state.now) left)
        (machine.word value) }
{
    let first = register(state, left);
    let second = word(value);
    sum(&first, &second)
}

/// The state after an instruction, which loads the value if it is a load.
pub fn state_after<'a>(
    instruction: &Instruction,
    loaded: &Value<'a>,
    state: &State<'a>,
) -> State<'a>
    ensures { state_as result
        ≡ machine.state_after instruction.now (value_as loaded.now) (state_as state.now) }
{
    match instruction {
        Instruction::LoadImmediate { target, value } => {
            with_register(state, *target, &word(*value))
        }
        Instruction::Move { target, source } => {
            with_register(state, *target, &register(state, *source))
        }
        Instruction::AddImmediate {
            target,
            left,
            value,
        } => with_register(state, *target, &sum_with(state, *left, *value)),
        Instruction::Compute {
            operation,
            target,
            left,
            right,
        } => with_register(state, *target, &computed(state, *operation, *left, *right)),
        Instruction::Load { target, base: _ } => with_register(state, *target, loaded),
        Instruction::LoadIndexed {
            target,
            base: _,
            index: _,
        } => with_register(state, *target, loaded),
        Instruction::Compare { left, right } => {
            let first = register(state, *left);
            let second = register(state, *right);
            with_comparison(state, compared(&first, &second))
        }
        Instruction::CompareImmediate { left, value } => {
            let first = register(state, *left);
            with_comparison(state, compared(&first, &word(*value)))
        }
        Instruction::Store { .. } => *state,
        Instruction::StoreIndexed { .. } => *state,
        Instruction::BranchIf { .. } => *state,
        Instruction::Branch { .. } => *state,
        Instruction::Fence(_) => *state,
    }
}

/// Where a load loads from, or a store stores.
pub fn address<'a>(instruction: &Instruction, state: &State<'a>) -> Value<'a>
    ensures { value_as result ≡ machine.address_of instruction.now (state_as state.now) }
{
    match instruction {
        Instruction::Load { target: _, base } => register(state, *base),
        Instruction::LoadIndexed {
            target: _,
            base,
            index,
        } => sum_in(state, *base, *index),
        Instruction::Store { source: _, base } => register(state, *base),
        Instruction::StoreIndexed {
            source: _,
            base,
            index,
        } => sum_in(state, *base, *index),
        _ => Value::NoValue,
    }
}

/// The value that a store stores, if it is one.
pub fn stored<'a>(instruction: &Instruction, state: &State<'a>) -> Option<Value<'a>>
    ensures { option_to_list (option_map value_as result)
        ≡ machine.stored_values instruction.now (state_as state.now) }
{
    match instruction {
        Instruction::Store { source, base: _ } => Some(register(state, *source)),
        Instruction::StoreIndexed {
            source,
            base: _,
            index: _,
        } => Some(register(state, *source)),
        _ => None,
    }
}

/// Whether it is `lwz` or `lwzx`.
pub fn is_load(instruction: &Instruction) -> bool
    ensures { result ≡ machine.is_load instruction.now }
{
    matches!(
        instruction,
        Instruction::Load { .. } | Instruction::LoadIndexed { .. }
    )
}

/// Whether it is `stw` or `stwx`.
pub fn is_store(instruction: &Instruction) -> bool
    ensures { result ≡ machine.is_store instruction.now }
{
    matches!(
        instruction,
        Instruction::Store { .. } | Instruction::StoreIndexed { .. }
    )
}

/// Whether it is a fence.
pub fn is_fence(instruction: &Instruction) -> bool
    ensures { result ≡ machine.is_fence instruction.now }
{
    matches!(instruction, Instruction::Fence(_))
}

/// Whether it is a conditional branch.
pub fn is_branch(instruction: &Instruction) -> bool
    ensures { result ≡ machine.is_branch instruction.now }
{
    matches!(instruction, Instruction::BranchIf { .. })
}

/// Whether the instruction is a fault in this state.
pub fn is_fault(instruction: &Instruction, state: &State) -> bool
    ensures { result ≡ machine.is_fault instruction.now (state_as state.now) }
{
    match instruction {
        Instruction::AddImmediate {
            target: _,
            left,
            value,
        } => !is_value(&sum_with(state, *left, *value)),
        Instruction::Compute {
            operation,
            target: _,
            left,
            right,
        } => !is_value(&computed(state, *operation, *left, *right)),
        Instruction::BranchIf {
            condition,
            label: _,
        } => lacks_order(*condition, state.compared),
        Instruction::Load { .. } => !is_address(&address(instruction, state)),
        Instruction::LoadIndexed { .. } => !is_address(&address(instruction, state)),
        Instruction::Store { .. } => !is_address(&address(instruction, state)),
        Instruction::StoreIndexed { .. } => !is_address(&address(instruction, state)),
        Instruction::LoadImmediate { .. } => false,
        Instruction::Move { .. } => false,
        Instruction::Compare { .. } => false,
        Instruction::CompareImmediate { .. } => false,
        Instruction::Branch { .. } => false,
        Instruction::Fence(_) => false,
    }
}

/// Whether the instruction is a conditional branch that is taken in this state.
pub fn is_taken_in(state: &State, instruction: &Instruction) -> bool
    ensures { result ≡ machine.is_taken_in (state_as state.now) instruction.now }
{
    match instruction {
        Instruction::BranchIf {
            condition,
            label: _,
        } => is_taken(*condition, state.compared),
        _ => false,
    }
}

/// The label at which the thread goes on, if not at the next line.
pub fn target(instruction: &Instruction, taken: bool) -> Option<&[u8]>
    ensures { option_map (λ l. l.now) result ≡ machine.target instruction.now taken }
{
    match instruction {
        Instruction::BranchIf {
            condition: _,
            label,
        } => { if taken { Some(label.as_bytes()) } else { None } }
        Instruction::Branch { label } => Some(label.as_bytes()),
        _ => None,
    }
}
