//! Prints observables, instructions and conditions.

ghost use Rattle.std.specs.Prelude.{◌≡◌, ◌++◌, ◌+◌, OnOk, IfOk, codes};
ghost use Rattle.std.specs.Fmt.{decimal, signed_decimal};
ghost use Rattle.text_values.specs.TestValue.{formula_of, level};
ghost use Rattle.litmus_printing.specs.Printing.{line, register_text, value_text, place_text, entry_text, operation_text, branch_text, fence_text, instruction_text, step_text, connective_text, is_loose, formula_text, condition_text};
ghost use Rattle.text_values.specs.Joined.{bracketed};

use std::alloc::{AllocError, Global};
use text_values::{
    BranchCondition, Condition, Connective, Fence, InitEntry, Instruction, Operation, Place,
    Proposition, Quantifier, Register, Step, Value, put_bytes, put_decimal,
};

/// Appends a location or a register: `[x]` or `1:r1`. Errors: out of memory.
pub fn put_place(text: &mut Vec<u8>, place: &Place) -> Result<(), AllocError>
    ensures { OnOk result (text.new.items ≡ text.old.items ++ place_text place.now) }
{
    match place {
        Place::Location(name) => {
            put_bytes(text, b"[")?;
            put_bytes(text, name.as_bytes())?;
            put_bytes(text, b"]")
        }
        Place::Register(thread, register) => put_thread_register(text, *thread, *register),
    }
}

/// Appends a value: a number with its sign, or a location's name. Errors: out of memory.
pub fn put_value(text: &mut Vec<u8>, value: &Value) -> Result<(), AllocError>
    ensures { OnOk result (text.new.items ≡ text.old.items ++ value_text value.now) }
{
    match value {
        Value::Number(n) => put_number(text, *n),
        Value::Address(name) => put_bytes(text, name.as_bytes()),
    }
}

fn put_number(text: &mut Vec<u8>, n: i32) -> Result<(), AllocError>
    ensures { OnOk result (text.new.items ≡ text.old.items ++ signed_decimal n) }
{
    if n < 0 {
        put_bytes(text, b"-")?;
    }
    put_decimal(text, u64::from(n.unsigned_abs()))
}

fn put_register(text: &mut Vec<u8>, register: Register) -> Result<(), AllocError>
    ensures { OnOk result (text.new.items ≡ text.old.items ++ register_text register) }
{
    put_bytes(text, b"r")?;
    put_decimal(text, u64::from(register.number()))
}

fn put_thread_register(
    text: &mut Vec<u8>,
    thread: usize,
    register: Register,
) -> Result<(), AllocError>
    ensures { OnOk result (text.new.items
        ≡ text.old.items ++ (decimal thread ++ (codes ":" ++ register_text register))) }
{
    put_decimal(text, thread as u64)?;
    put_bytes(text, b":")?;
    put_register(text, register)
}

/// Appends an entry, a location without brackets.
pub fn put_entry(text: &mut Vec<u8>, entry: &InitEntry) -> Result<(), AllocError>
    ensures { OnOk result (text.new.items ≡ text.old.items ++ line (entry_text entry.now)) }
{
    match &entry.place {
        Place::Location(name) => put_bytes(text, name.as_bytes())?,
        Place::Register(thread, register) => put_thread_register(text, *thread, *register)?,
    }
    put_bytes(text, b"=")?;
    put_value(text, &entry.value)?;
    put_bytes(text, b";\n")
}

fn operation_name(operation: Operation) -> &'static [u8]
    ensures { result.now ≡ operation_text operation }
{
    match operation {
        Operation::Add => b"add",
        Operation::SubtractFrom => b"subf",
        Operation::Xor => b"xor",
        Operation::Or => b"or",
        Operation::And => b"and",
    }
}

fn branch_name(condition: BranchCondition) -> &'static [u8]
    ensures { result.now ≡ branch_text condition }
{
    match condition {
        BranchCondition::Equal => b"beq",
        BranchCondition::NotEqual => b"bne",
        BranchCondition::Less => b"blt",
        BranchCondition::Greater => b"bgt",
        BranchCondition::LessOrEqual => b"ble",
        BranchCondition::GreaterOrEqual => b"bge",
    }
}

/// How a fence is written: `sync`, `lwsync`, `eieio` or `isync`.
pub fn fence_name(fence: Fence) -> &'static [u8]
    ensures { result.now ≡ fence_text fence }
{
    match fence {
        Fence::Sync => b"sync",
        Fence::LightweightSync => b"lwsync",
        Fence::Eieio => b"eieio",
        Fence::Isync => b"isync",
    }
}

// Appends a word, a space and a register.
fn put_one(text: &mut Vec<u8>, word: &[u8], first: Register) -> Result<(), AllocError>
    ensures { OnOk result (text.new.items
        ≡ text.old.items ++ (word.now ++ (codes " " ++ register_text first))) }
{
    put_bytes(text, word)?;
    put_bytes(text, b" ")?;
    put_register(text, first)
}

// Appends a word and two registers.
fn put_two(
    text: &mut Vec<u8>,
    word: &[u8],
    first: Register,
    second: Register,
) -> Result<(), AllocError>
    ensures { OnOk result (text.new.items
        ≡ text.old.items ++ (word.now
        ++ (codes " " ++ (register_text first ++ (codes "," ++ register_text second))))) }
{
    put_one(text, word, first)?;
    put_bytes(text, b",")?;
    put_register(text, second)
}

// Appends a word and three registers.
fn put_three(
    text: &mut Vec<u8>,
    word: &[u8],
    first: Register,
    second: Register,
    third: Register,
) -> Result<(), AllocError>
    ensures { OnOk result (text.new.items
        ≡ text.old.items ++ (word.now ++ (codes " " ++ (register_text first
        ++ (codes "," ++ (register_text second ++ (codes "," ++ register_text third))))))) }
{
    put_two(text, word, first, second)?;
    put_bytes(text, b",")?;
    put_register(text, third)
}

// Appends a word, a register and a number.
fn put_one_with(
    text: &mut Vec<u8>,
    word: &[u8],
    first: Register,
    value: i32,
) -> Result<(), AllocError>
    ensures { OnOk result (text.new.items
        ≡ text.old.items ++ (word.now
        ++ (codes " " ++ (register_text first ++ (codes "," ++ signed_decimal value))))) }
{
    put_one(text, word, first)?;
    put_bytes(text, b",")?;
    put_number(text, value)
}

// Appends a word, two registers and a number.
fn put_two_with(
    text: &mut Vec<u8>,
    word: &[u8],
    first: Register,
    second: Register,
    value: i32,
) -> Result<(), AllocError>
    ensures { OnOk result (text.new.items
        ≡ text.old.items ++ (word.now ++ (codes " " ++ (register_text first ++ (codes ","
        ++ (register_text second ++ (codes "," ++ signed_decimal value))))))) }
{
    put_two(text, word, first, second)?;
    put_bytes(text, b",")?;
    put_number(text, value)
}

// Appends an access at a register.
fn put_access(
    text: &mut Vec<u8>,
    word: &[u8],
    first: Register,
    base: Register,
) -> Result<(), AllocError>
    ensures { OnOk result (text.new.items
        ≡ text.old.items ++ (word.now ++ (codes " " ++ (register_text first
        ++ (codes "," ++ (codes "0(" ++ (register_text base ++ codes ")"))))))) }
{
    put_one(text, word, first)?;
    put_bytes(text, b",0(")?;
    put_register(text, base)?;
    put_bytes(text, b")")
}

// Appends a branch to a label.
fn put_branch(text: &mut Vec<u8>, word: &[u8], label: &[u8]) -> Result<(), AllocError>
    ensures { OnOk result (text.new.items
        ≡ text.old.items ++ (word.now ++ (codes " " ++ label.now))) }
{
    put_bytes(text, word)?;
    put_bytes(text, b" ")?;
    put_bytes(text, label)
}

fn put_instruction(text: &mut Vec<u8>, instruction: &Instruction) -> Result<(), AllocError>
    ensures { OnOk result (text.new.items ≡ text.old.items ++ instruction_text instruction.now) }
{
    match instruction {
        Instruction::LoadImmediate { target, value } => put_one_with(text, b"li", *target, *value),
        Instruction::Move { target, source } => put_two(text, b"mr", *target, *source),
        Instruction::AddImmediate {
            target,
            left,
            value,
        } => put_two_with(text, b"addi", *target, *left, *value),
        Instruction::Compute {
            operation,
            target,
            left,
            right,
        } => put_three(text, operation_name(*operation), *target, *left, *right),
        Instruction::Load { target, base } => put_access(text, b"lwz", *target, *base),
        Instruction::LoadIndexed {
            target,
            base,
            index,
        } => put_three(text, b"lwzx", *target, *base, *index),
        Instruction::Store { source, base } => put_access(text, b"stw", *source, *base),
        Instruction::StoreIndexed {
            source,
            base,
            index,
        } => put_three(text, b"stwx", *source, *base, *index),
        Instruction::Compare { left, right } => put_two(text, b"cmpw", *left, *right),
        Instruction::CompareImmediate { left, value } => {
            put_one_with(text, b"cmpwi", *left, *value)
        }
        Instruction::BranchIf { condition, label } => {
            put_branch(text, branch_name(*condition), label.as_bytes())
        }
        Instruction::Branch { label } => put_branch(text, b"b", label.as_bytes()),
        Instruction::Fence(fence) => put_bytes(text, fence_name(*fence)),
    }
}

/// Appends a label with its colon, or an instruction.
pub fn put_step(text: &mut Vec<u8>, step: &Step) -> Result<(), AllocError>
    ensures { OnOk result (text.new.items ≡ text.old.items ++ step_text step.now) }
{
    match step {
        Step::Label(label) => {
            put_bytes(text, label.as_bytes())?;
            put_bytes(text, b":")
        }
        Step::Instruction(instruction) => put_instruction(text, instruction),
    }
}

fn connective_sign(connective: Connective) -> &'static [u8]
    ensures { result.now ≡ connective_text connective }
{
    match connective {
        Connective::And => b" /\\ ",
        Connective::Or => b" \\/ ",
        Connective::Implies => b" => ",
    }
}

// Whether a proposition is joined by an operator that is looser than this.
fn is_loose(least: usize, proposition: &Proposition) -> bool
    ensures { result ≡ is_loose least (formula_of proposition.now) }
{
    match proposition {
        Proposition::Joined(connective, _, _) => connective.level() < least,
        Proposition::Constant(_) => false,
        Proposition::Holds(_, _) => false,
        Proposition::Not(_) => false,
    }
}

// Appends an operand, in parentheses where they are wanted.
#[cycle(proposition)]
fn put_operand(
    text: &mut Vec<u8>,
    operand: &Proposition,
    in_parentheses: bool,
) -> Result<(), AllocError>
    ensures { OnOk result (text.new.items
        ≡ text.old.items ++ bracketed in_parentheses (formula_text (formula_of operand.now))) }
{
    if in_parentheses {
        put_bytes(text, b"(")?;
        put_proposition(text, operand)?;
        put_bytes(text, b")")
    } else {
        put_proposition(text, operand)
    }
}

#[cycle(proposition)]
fn put_proposition(text: &mut Vec<u8>, proposition: &Proposition) -> Result<(), AllocError>
    ensures { OnOk result (text.new.items
        ≡ text.old.items ++ formula_text (formula_of proposition.now)) }
{
    match proposition {
        Proposition::Constant(value) => put_bytes(text, if *value { b"true" } else { b"false" }),
        Proposition::Holds(place, value) => {
            put_place(text, place)?;
            put_bytes(text, b"=")?;
            put_value(text, value)
        }
        Proposition::Not(operand) => {
            put_bytes(text, b"not (")?;
            put_proposition(text, operand)?;
            put_bytes(text, b")")
        }
        Proposition::Joined(connective, left, right) => {
            put_operand(text, left, is_loose(connective.level() + 1, left))?;
            put_bytes(text, connective_sign(*connective))?;
            put_operand(text, right, is_loose(connective.level(), right))
        }
    }
}

/// Appends a condition.
pub fn put_condition(text: &mut Vec<u8>, condition: &Condition) -> Result<(), AllocError>
    ensures { OnOk result (text.new.items
        ≡ text.old.items
        ++ condition_text condition.now.quantifier (formula_of condition.now.proposition)) }
{
    let quantifier: &[u8] = match condition.quantifier {
        Quantifier::Exists => b"exists (",
        Quantifier::NotExists => b"~exists (",
        Quantifier::Forall => b"forall (",
    };
    put_bytes(text, quantifier)?;
    put_proposition(text, &condition.proposition)?;
    put_bytes(text, b")")
}

/// The printed condition: its quantifier, and its proposition in parentheses. Errors: want of
/// memory.
pub fn print_condition(alloc: Global, condition: &Condition) -> Result<Vec<u8>, AllocError>
    ensures { IfOk result (λ v. v.items
        ≡ condition_text condition.now.quantifier (formula_of condition.now.proposition)) }
{
    let mut text = Vec::new(alloc);
    put_condition(&mut text, condition)?;
    Ok(text)
}
