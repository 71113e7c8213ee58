//! Instructions, as a test writes them.

use crate::name::Name;
use std::marker::Model;

/// A register, `r0` to `r31`. Contracts see it as its number.
#[derive(Clone, Copy)]
pub struct Register {
    number: u8,
}

impl Model for Register {
    ghost use Rattle.std.specs.Prelude.{ℕ, ◌<◌};

    ghost Value = { ℕ };

    ghost view = { λ r. r.number };

    ghost inverse = { λ n. record { number = n } };

    ghost invariant = { λ r. r.number < 32 };
}

impl Register {
    ghost use Rattle.std.specs.Prelude.{◌≡◌, ◌<◌};

    /// The register of this number. Callers give a number below 32.
    pub fn new(number: u8) -> Register
        requires { number < 32 }
        ensures { result ≡ number }
    {
        Register { number }
    }

    /// Its number, from 0 to 31.
    pub fn number(self) -> u8
        ensures value { result ≡ self }
        ensures bound { result < 32 }
    {
        self.number
    }
}

/// An operation on two registers of 32 bits.
#[derive(Clone, Copy, PartialEq, Eq)]
pub enum Operation {
    /// The sum, modulo 2^32 (`add`).
    Add,
    /// The second operand less the first, modulo 2^32 (`subf`).
    SubtractFrom,
    /// Bitwise exclusive or (`xor`).
    Xor,
    /// Bitwise or (`or`).
    Or,
    /// Bitwise and (`and`).
    And,
}

/// When a conditional branch is taken: what the last comparison found of its first operand.
#[derive(Clone, Copy, PartialEq, Eq)]
pub enum BranchCondition {
    /// It equals the second (`beq`).
    Equal,
    /// It differs from the second (`bne`).
    NotEqual,
    /// It is less (`blt`).
    Less,
    /// It is greater (`bgt`).
    Greater,
    /// It is not greater (`ble`).
    LessOrEqual,
    /// It is not less (`bge`).
    GreaterOrEqual,
}

/// A fence (Power ISA, book II, storage control instructions).
#[derive(Clone, Copy, PartialEq, Eq)]
pub enum Fence {
    /// The full fence (`sync`).
    Sync,
    /// The lightweight fence, which does not order a store before a later load (`lwsync`).
    LightweightSync,
    /// The fence between stores (`eieio`).
    Eieio,
    /// The fence behind branches (`isync`).
    Isync,
}

/// An instruction of a thread (Power ISA, book I, branch and fixed-point instructions; the herd7
/// manual, chapter on litmus tests). Registers hold 32 bits here.
#[derive(Drop)]
pub enum Instruction {
    /// Sets a register to a number (`li`).
    LoadImmediate {
        target: Register,
        value: i32,
    },
    /// Sets a register to the value of another (`mr`).
    Move {
        target: Register,
        source: Register,
    },
    /// Sets a register to the sum of a register and a number (`addi`); the register is not `r0`.
    AddImmediate {
        target: Register,
        left: Register,
        value: i32,
    },
    /// Sets a register to the result of an operation on two others (`add`, `subf`, `xor`, `or`,
    /// `and`).
    Compute {
        operation: Operation,
        target: Register,
        left: Register,
        right: Register,
    },
    /// Loads from the address in a register, which is not `r0` (`lwz`).
    Load {
        target: Register,
        base: Register,
    },
    /// Loads from the sum of two registers, the first not `r0` (`lwzx`).
    LoadIndexed {
        target: Register,
        base: Register,
        index: Register,
    },
    /// Stores a register at the address in another, which is not `r0` (`stw`).
    Store {
        source: Register,
        base: Register,
    },
    /// Stores a register at the sum of two others, the first not `r0` (`stwx`).
    StoreIndexed {
        source: Register,
        base: Register,
        index: Register,
    },
    /// Compares two registers as signed numbers (`cmpw`).
    Compare {
        left: Register,
        right: Register,
    },
    /// Compares a register and a number as signed numbers (`cmpwi`).
    CompareImmediate {
        left: Register,
        value: i32,
    },
    /// Goes to a label if the last comparison satisfies the condition.
    BranchIf {
        condition: BranchCondition,
        label: Name,
    },
    /// Goes to a label (`b`).
    Branch {
        label: Name,
    },
    /// A fence.
    Fence(Fence),
}
