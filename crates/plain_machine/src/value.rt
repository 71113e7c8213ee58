//! What registers and locations hold, and what operations give.

ghost use Rattle.std.specs.Prelude.{◌≡◌, ◌↔◌, IsTrue};
ghost use Rattle.meaning.specs.Machine as machine;
ghost use Rattle.plain_machine.specs.Values.{value_as, comparison_as};

use text_values::{BranchCondition, Operation};

/// What a register or a location holds.
#[derive(Clone, Copy)]
pub enum Value<'a> {
    /// A number of 32 bits.
    Number(u32),
    /// The address of a location, by its name.
    Address(&'a [u8]),
    /// What an operation gives where it would be a fault.
    NoValue,
}

/// What the last comparison found of its first operand.
#[derive(Clone, Copy)]
pub enum Comparison {
    /// It is less, as a signed number.
    Less,
    /// Both are the same number or the same address.
    Equal,
    /// It is greater, as a signed number.
    Greater,
    /// One of the two is an address, and the other is not the same address.
    Unlike,
}

/// Whether both are the same.
pub fn is_same_value(first: &Value, second: &Value) -> bool
    ensures { IsTrue result ↔ (value_as first.now ≡ value_as second.now) }
{
    match (first, second) {
        (Value::Number(m), Value::Number(n)) => m == n,
        (Value::Address(k), Value::Address(l)) => *k == *l,
        (Value::NoValue, Value::NoValue) => true,
        _ => false,
    }
}

/// A number of a test.
pub fn word(number: i32) -> Value<'static>
    ensures { value_as result ≡ machine.word number }
{
    Value::Number(number.cast_unsigned())
}

/// `add`.
pub fn sum<'a>(first: &Value<'a>, second: &Value<'a>) -> Value<'a>
    ensures { value_as result ≡ machine.sum_of (value_as first.now) (value_as second.now) }
{
    match (first, second) {
        (Value::Number(m), Value::Number(n)) => Value::Number(m.wrapping_add(*n)),
        (Value::Address(_), Value::Number(n)) => { if *n == 0 { *first } else { Value::NoValue } }
        (Value::Number(m), Value::Address(_)) => { if *m == 0 { *second } else { Value::NoValue } }
        _ => Value::NoValue,
    }
}

fn zero_if_same(first: &[u8], second: &[u8]) -> Value<'static>
    ensures { value_as result ≡ machine.zero_if_same first.now second.now }
{
    if first == second {
        Value::Number(0)
    } else {
        Value::NoValue
    }
}

/// `subf`: the second less the first.
pub fn difference(first: &Value, second: &Value) -> Value<'static>
    ensures { value_as result ≡ machine.difference_of (value_as first.now) (value_as second.now) }
{
    match (first, second) {
        (Value::Number(m), Value::Number(n)) => Value::Number(n.wrapping_sub(*m)),
        (Value::Address(k), Value::Address(l)) => zero_if_same(k, l),
        _ => Value::NoValue,
    }
}

/// `xor`.
pub fn exclusive_or(first: &Value, second: &Value) -> Value<'static>
    ensures { value_as result
        ≡ machine.exclusive_or_of (value_as first.now) (value_as second.now) }
{
    match (first, second) {
        (Value::Number(m), Value::Number(n)) => Value::Number(*m ^ *n),
        (Value::Address(k), Value::Address(l)) => zero_if_same(k, l),
        _ => Value::NoValue,
    }
}

/// `or`.
pub fn either(first: &Value, second: &Value) -> Value<'static>
    ensures { value_as result
        ≡ machine.result_of Operation.Or (value_as first.now) (value_as second.now) }
{
    match (first, second) {
        (Value::Number(m), Value::Number(n)) => Value::Number(*m | *n),
        _ => Value::NoValue,
    }
}

/// `and`.
pub fn both(first: &Value, second: &Value) -> Value<'static>
    ensures { value_as result
        ≡ machine.result_of Operation.And (value_as first.now) (value_as second.now) }
{
    match (first, second) {
        (Value::Number(m), Value::Number(n)) => Value::Number(*m & *n),
        _ => Value::NoValue,
    }
}

/// What an operation gives of two values.
pub fn operated<'a>(operation: Operation, first: &Value<'a>, second: &Value<'a>) -> Value<'a>
    ensures { value_as result
        ≡ machine.result_of operation (value_as first.now) (value_as second.now) }
{
    match operation {
        Operation::Add => sum(first, second),
        Operation::SubtractFrom => difference(first, second),
        Operation::Xor => exclusive_or(first, second),
        Operation::Or => either(first, second),
        Operation::And => both(first, second),
    }
}

fn compared_numbers(first: u32, second: u32) -> Comparison
    ensures { comparison_as result
        ≡ machine.comparison_of (machine.Number first) (machine.Number second) }
{
    if first == second {
        Comparison::Equal
    } else if first.wrapping_add(0x8000_0000) < second.wrapping_add(0x8000_0000) {
        Comparison::Less
    } else {
        Comparison::Greater
    }
}

/// What a comparison finds of its first operand.
pub fn compared(first: &Value, second: &Value) -> Comparison
    ensures { comparison_as result
        ≡ machine.comparison_of (value_as first.now) (value_as second.now) }
{
    match (first, second) {
        (Value::Number(m), Value::Number(n)) => compared_numbers(*m, *n),
        (Value::Address(k), Value::Address(l)) => {
            if *k == *l {
                Comparison::Equal
            } else {
                Comparison::Unlike
            }
        }
        _ => Comparison::Unlike,
    }
}

/// Whether a branch is taken after this comparison.
pub fn is_taken(condition: BranchCondition, compared: Comparison) -> bool
    ensures { result ≡ machine.is_taken condition (comparison_as compared) }
{
    match condition {
        BranchCondition::Equal => matches!(compared, Comparison::Equal),
        BranchCondition::NotEqual => !matches!(compared, Comparison::Equal),
        BranchCondition::Less => matches!(compared, Comparison::Less),
        BranchCondition::Greater => matches!(compared, Comparison::Greater),
        BranchCondition::LessOrEqual => matches!(compared, Comparison::Less | Comparison::Equal),
        BranchCondition::GreaterOrEqual => matches!(
            compared,
            Comparison::Greater | Comparison::Equal
        ),
    }
}

/// Whether a branch asks for an order where there is none.
pub fn lacks_order(condition: BranchCondition, compared: Comparison) -> bool
    ensures { result ≡ machine.lacks_order condition (comparison_as compared) }
{
    match condition {
        BranchCondition::Equal | BranchCondition::NotEqual => false,
        _ => matches!(compared, Comparison::Unlike),
    }
}

/// Whether it is a number or an address.
pub fn is_value(value: &Value) -> bool
    ensures { result ≡ machine.is_value (value_as value.now) }
{
    !matches!(value, Value::NoValue)
}

/// Whether it is an address.
pub fn is_address(value: &Value) -> bool
    ensures { result ≡ machine.is_address (value_as value.now) }
{
    matches!(value, Value::Address(_))
}
