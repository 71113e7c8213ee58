//! Instructions by their shapes.

ghost use Rattle.std.specs.Prelude.{◌≡◌, ◌↔◌, IsTrue, option_map, pos};
ghost use Rattle.text_equality.specs.Shapes as shapes;

use text_values::{BranchCondition, Fence, Instruction, Name, Operation, Register};

/// An instruction without its label. What it lacks is 0.
#[derive(Clone, Copy)]
pub struct Shape {
    /// Which instruction it is.
    pub kind: u8,
    /// Which operation, condition or fence.
    pub word: u8,
    /// Its first register.
    pub first: u8,
    /// Its second register.
    pub second: u8,
    /// Its third register.
    pub third: u8,
    /// Its number.
    pub value: i32,
}

fn operation_number(operation: Operation) -> u8
    ensures { result ≡ shapes.operation_number operation }
{
    match operation {
        Operation::Add => 0,
        Operation::SubtractFrom => 1,
        Operation::Xor => 2,
        Operation::Or => 3,
        Operation::And => 4,
    }
}

fn condition_number(condition: BranchCondition) -> u8
    ensures { result ≡ shapes.condition_number condition }
{
    match condition {
        BranchCondition::Equal => 0,
        BranchCondition::NotEqual => 1,
        BranchCondition::Less => 2,
        BranchCondition::Greater => 3,
        BranchCondition::LessOrEqual => 4,
        BranchCondition::GreaterOrEqual => 5,
    }
}

fn fence_number(fence: Fence) -> u8
    ensures { result ≡ shapes.fence_number fence }
{
    match fence {
        Fence::Sync => 0,
        Fence::LightweightSync => 1,
        Fence::Eieio => 2,
        Fence::Isync => 3,
    }
}

// The shape of an instruction that has neither a word nor a number.
fn plain(kind: u8, first: Register, second: Register, third: u8) -> Shape
    ensures { result ≡ shapes.shape kind 0 first second third (pos 0) }
{
    Shape {
        kind,
        word: 0,
        first: first.number(),
        second: second.number(),
        third,
        value: 0,
    }
}

// The shape of an instruction that has a word alone.
fn worded(kind: u8, word: u8) -> Shape
    ensures { result ≡ shapes.shape kind word 0 0 0 (pos 0) }
{
    Shape {
        kind,
        word,
        first: 0,
        second: 0,
        third: 0,
        value: 0,
    }
}

// The shape of an instruction that has a number.
fn valued(kind: u8, first: Register, second: u8, value: i32) -> Shape
    ensures { result ≡ shapes.shape kind 0 first second 0 value }
{
    Shape {
        kind,
        word: 0,
        first: first.number(),
        second,
        third: 0,
        value,
    }
}

fn computed(operation: Operation, target: Register, left: Register, right: Register) -> Shape
    ensures { result
        ≡ shapes.shape 3 (shapes.operation_number operation) target left right (pos 0) }
{
    Shape {
        kind: 3,
        word: operation_number(operation),
        first: target.number(),
        second: left.number(),
        third: right.number(),
        value: 0,
    }
}

// What an instruction is but for its label.
fn shape_of(instruction: &Instruction) -> Shape
    ensures { result ≡ shapes.shape_of instruction.now }
{
    match instruction {
        Instruction::LoadImmediate { target, value } => valued(0, *target, 0, *value),
        Instruction::Move { target, source } => plain(1, *target, *source, 0),
        Instruction::AddImmediate {
            target,
            left,
            value,
        } => valued(2, *target, left.number(), *value),
        Instruction::Compute {
            operation,
            target,
            left,
            right,
        } => computed(*operation, *target, *left, *right),
        Instruction::Load { target, base } => plain(4, *target, *base, 0),
        Instruction::LoadIndexed {
            target,
            base,
            index,
        } => plain(5, *target, *base, index.number()),
        Instruction::Store { source, base } => plain(6, *source, *base, 0),
        Instruction::StoreIndexed {
            source,
            base,
            index,
        } => plain(7, *source, *base, index.number()),
        Instruction::Compare { left, right } => plain(8, *left, *right, 0),
        Instruction::CompareImmediate { left, value } => valued(9, *left, 0, *value),
        Instruction::BranchIf { condition, .. } => worded(10, condition_number(*condition)),
        Instruction::Branch { .. } => worded(11, 0),
        Instruction::Fence(fence) => worded(12, fence_number(*fence)),
    }
}

// The label that an instruction names.
fn label_of(instruction: &Instruction) -> Option<&Name>
    ensures { option_map (λ n. n.now) result ≡ shapes.label_of instruction.now }
{
    match instruction {
        Instruction::LoadImmediate { .. } => None,
        Instruction::Move { .. } => None,
        Instruction::AddImmediate { .. } => None,
        Instruction::Compute { .. } => None,
        Instruction::Load { .. } => None,
        Instruction::LoadIndexed { .. } => None,
        Instruction::Store { .. } => None,
        Instruction::StoreIndexed { .. } => None,
        Instruction::Compare { .. } => None,
        Instruction::CompareImmediate { .. } => None,
        Instruction::BranchIf { label, .. } => Some(label),
        Instruction::Branch { label } => Some(label),
        Instruction::Fence(_) => None,
    }
}

fn is_same_shape(first: Shape, second: Shape) -> bool
    ensures { IsTrue result ↔ (first ≡ second) }
{
    first.kind == second.kind
        && first.word == second.word
        && first.first == second.first
        && first.second == second.second
        && first.third == second.third
        && first.value == second.value
}

fn is_same_label(first: Option<&Name>, second: Option<&Name>) -> bool
    ensures { IsTrue result
        ↔ (option_map (λ n. n.now) first.entry ≡ option_map (λ n. n.now) second.entry) }
{
    match (first, second) {
        (Some(a), Some(b)) => a.is_same(b),
        (None, None) => true,
        (Some(_), None) => false,
        (None, Some(_)) => false,
    }
}

/// Whether two instructions are equal.
#[tactic(auto, using(crate::proofs::ReadOff::same_instructions))]
pub(crate) fn is_same_instruction(first: &Instruction, second: &Instruction) -> bool
    ensures { IsTrue result ↔ (first.now ≡ second.now) }
{
    is_same_shape(shape_of(first), shape_of(second))
        && is_same_label(label_of(first), label_of(second))
}
