//! The values of registers and of locations.
ghost use Rattle.std.specs.Prelude.{◌≡◌};
ghost use Rattle.thread_runs.specs.Machine as machine;

/// A number of 32 bits, the address of a location, or the result of an operation that has no value.
#[derive(Clone, Copy, Debug, PartialEq, Eq)]
pub enum Value {
    /// A number.
    Number(u32),
    /// The address of a location, by its index among the locations of the test, sorted by name
    /// bytes.
    Address(usize),
    /// No value.
    NoValue,
}

/// The result of the last comparison, in CR0 (Power ISA, book I, compare instructions).
#[derive(Clone, Copy, PartialEq, Eq)]
pub enum Comparison {
    /// The first is less, as a signed number.
    Less,
    /// Both are the same number or the same address.
    Equal,
    /// The first is greater, as a signed number.
    Greater,
    /// One of the two is an address, and the other is not the same address.
    Unlike,
}

/// The result of `add`: of numbers modulo 2^32; of an address and 0 the address; of others no
/// value.
pub fn sum(v: Value, w: Value) -> Value
    ensures { result ≡ machine.sum_of v w }
{
    match (v, w) {
        (Value::Number(m), Value::Number(n)) => Value::Number(m.wrapping_add(n)),
        (Value::Address(l), Value::Number(n)) => {
            if n == 0 {
                Value::Address(l)
            } else {
                Value::NoValue
            }
        }
        (Value::Number(m), Value::Address(l)) => {
            if m == 0 {
                Value::Address(l)
            } else {
                Value::NoValue
            }
        }
        _ => Value::NoValue,
    }
}

/// The result of `subf`: the second less the first, and 0 for equal addresses.
pub fn difference(v: Value, w: Value) -> Value
    ensures { result ≡ machine.difference_of v w }
{
    match (v, w) {
        (Value::Number(m), Value::Number(n)) => Value::Number(n.wrapping_sub(m)),
        (Value::Address(k), Value::Address(l)) => {
            if k == l {
                Value::Number(0)
            } else {
                Value::NoValue
            }
        }
        _ => Value::NoValue,
    }
}

/// The result of `xor`: bitwise on numbers, and 0 for equal addresses.
pub fn exclusive(v: Value, w: Value) -> Value
    ensures { result ≡ machine.exclusive_of v w }
{
    match (v, w) {
        (Value::Number(m), Value::Number(n)) => Value::Number(m ^ n),
        (Value::Address(k), Value::Address(l)) => {
            if k == l {
                Value::Number(0)
            } else {
                Value::NoValue
            }
        }
        _ => Value::NoValue,
    }
}

/// The result of `or`: bitwise on numbers.
pub fn disjunction(v: Value, w: Value) -> Value
    ensures { result ≡ machine.disjunction_of v w }
{
    match (v, w) {
        (Value::Number(m), Value::Number(n)) => Value::Number(m | n),
        _ => Value::NoValue,
    }
}

/// The result of `and`: bitwise on numbers.
pub fn conjunction(v: Value, w: Value) -> Value
    ensures { result ≡ machine.conjunction_of v w }
{
    match (v, w) {
        (Value::Number(m), Value::Number(n)) => Value::Number(m & n),
        _ => Value::NoValue,
    }
}

fn compare_numbers(m: u32, n: u32) -> Comparison
    ensures { result ≡ machine.numbers_compared m n }
{
    if m == n {
        Comparison::Equal
    } else if m.wrapping_add(0x8000_0000) < n.wrapping_add(0x8000_0000) {
        Comparison::Less
    } else {
        Comparison::Greater
    }
}

/// The comparison of the first with the second.
pub fn compare(v: Value, w: Value) -> Comparison
    ensures { result ≡ machine.comparison_of v w }
{
    match (v, w) {
        (Value::Number(m), Value::Number(n)) => compare_numbers(m, n),
        (Value::Address(k), Value::Address(l)) => {
            if k == l {
                Comparison::Equal
            } else {
                Comparison::Unlike
            }
        }
        _ => Comparison::Unlike,
    }
}

/// Whether it is a value.
pub fn is_value(v: Value) -> bool
    ensures { result ≡ machine.is_value v }
{
    !matches!(v, Value::NoValue)
}

/// Whether it is an address.
pub fn is_address(v: Value) -> bool
    ensures { result ≡ machine.is_address v }
{
    matches!(v, Value::Address(_))
}
