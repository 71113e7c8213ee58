//! Tests: threads, initial values and conditions.

ghost use Rattle.std.specs.Prelude.{◌≡◌, ◌≤◌};
ghost use Rattle.text_values.specs.TestValue.{level};

use crate::instruction::{Instruction, Register};
use crate::name::Name;

/// A location in memory, or a register of a thread.
pub enum Place {
    /// A location in memory, by its name.
    Location(Name),
    /// A register of the thread of this number, from 0 on.
    Register(usize, Register),
}

impl Drop for Place {
    fn drop(self) {
        match self {
            Place::Location(_) => {},
            Place::Register(_, _) => {},
        }
    }
}

/// The value of a location or a register.
pub enum Value {
    /// A number of 32 bits.
    Number(i32),
    /// The address of the location of this name.
    Address(Name),
}

impl Drop for Value {
    fn drop(self) {
        match self {
            Value::Number(_) => {},
            Value::Address(_) => {},
        }
    }
}

/// The initial value of a location or a register. The initial value is 0 if no entry gives it.
pub struct InitEntry {
    /// The location or the register.
    pub place: Place,
    /// Its initial value.
    pub value: Value,
}

impl Drop for InitEntry {
    fn drop(self) {
        let InitEntry { place: _, value: _ } = self;
    }
}

/// A line of a thread: a label or an instruction.
pub enum Step {
    /// A label, the target of branches of the same thread that stand before it.
    Label(Name),
    /// An instruction.
    Instruction(Instruction),
}

impl Drop for Step {
    fn drop(self) {
        match self {
            Step::Label(_) => {},
            Step::Instruction(_) => {},
        }
    }
}

/// A thread: its labels and instructions in program order.
pub struct Thread {
    /// Labels and instructions, in the order of the text.
    pub steps: Vec<Step>,
}

impl Drop for Thread {
    fn drop(self) {
        let Thread { steps: _ } = self;
    }
}

/// Of which final states of the allowed executions a condition says that its proposition holds.
#[derive(Clone, Copy, Debug, PartialEq, Eq)]
pub enum Quantifier {
    /// At least one of them, `exists`.
    Exists,
    /// None of them, `~exists`.
    NotExists,
    /// All of them, `forall`.
    Forall,
}

/// An operator that joins two propositions.
#[derive(Clone, Copy, PartialEq, Eq)]
pub enum Connective {
    /// Both hold, `/\`.
    And,
    /// One of them holds, or both, `\/`.
    Or,
    /// The second holds where the first does, `=>`.
    Implies,
}

impl Connective {
    /// How tightly the operator binds: 1 the least, 3 the most. Each operator groups to the right.
    pub fn level(self) -> usize
        ensures value { result ≡ level self }
        ensures bound { result ≤ 3 }
    {
        match self {
            Connective::And => 3,
            Connective::Or => 2,
            Connective::Implies => 1,
        }
    }
}

/// What a condition says of one final state.
pub enum Proposition {
    /// `true` or `false`.
    Constant(bool),
    /// The location or the register has this value.
    Holds(Place, Value),
    /// The negation.
    Not(Box<Proposition>),
    /// Two propositions, joined by an operator.
    Joined(Connective, Box<Proposition>, Box<Proposition>),
}

impl Drop for Proposition {
    fn drop(self) {
        match self {
            Proposition::Constant(_) => {},
            Proposition::Holds(_, _) => {},
            Proposition::Not(_) => {},
            Proposition::Joined(_, _, _) => {},
        }
    }
}

/// The condition of a test: a quantifier over final states, and a proposition on one of them (the
/// herd7 manual, chapter on litmus tests).
pub struct Condition {
    /// Which final states satisfy the proposition.
    pub quantifier: Quantifier,
    /// The proposition on one final state.
    pub proposition: Proposition,
}

impl Drop for Condition {
    fn drop(self) {
        let Condition {
            quantifier: _,
            proposition: _,
        } = self;
    }
}

/// A litmus test (the herd7 manual, chapter on litmus tests).
#[derive(Drop)]
pub struct Test {
    /// The name of the test, as the log prints it.
    pub name: Name,
    /// The initial values in the order of the text, at most one for each location or register.
    pub init: Vec<InitEntry>,
    /// The threads. The number of a thread is its index.
    pub threads: Vec<Thread>,
    /// The locations and registers of `locations`, in the order of the text, with repeats. A final
    /// state shows them beside those of the condition.
    pub observed: Vec<Place>,
    /// The condition.
    pub condition: Condition,
}
