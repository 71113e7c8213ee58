//! The operands of an instruction.

ghost use Rattle.std.specs.Prelude.{◌≡◌, slice_index, IfOk};
ghost use Rattle.litmus_tokens.specs.Words.{is_register, register_of, or_zero, is_int};
ghost use Rattle.litmus_words.specs.Words.{token_fits};
ghost use Rattle.litmus_words.specs.Machine.{empty_pending, registers_with, value_with, pending_after, first_of, instruction_of};
ghost use Rattle.litmus_words.specs.Taking.{pending_of, TakesCell};

use crate::opcode::{DataOpcode, Want};
use litmus_tokens::{Mark, StepError, Token, register_number, signed_number};
use std::alloc::{AllocError, Global};
use text_values::{Instruction, Register};

/// An instruction that is read in part.
#[derive(Drop)]
pub struct Pending {
    opcode: DataOpcode,
    // How many tokens were taken.
    read_count: usize,
    registers: Vec<Register>,
    value: i32,
}

impl Pending {
    /// The instruction behind its mnemonic.
    pub fn new(alloc: Global, opcode: DataOpcode) -> Pending
        ensures { pending_of result ≡ empty_pending opcode }
    {
        Pending {
            opcode,
            read_count: 0,
            registers: Vec::new(alloc),
            value: 0,
        }
    }

    /// The token that is wanted next, or `None` at the end.
    pub fn want(&self) -> Option<Want>
        ensures { result ≡ first_of (pending_of self.now).wants }
    {
        let form = self.opcode.form();
        if self.read_count < form.len() {
            Some(form[self.read_count])
        } else {
            None
        }
    }

    /// Takes one more token. Errors: it is not the one that is wanted, or out of memory; the
    /// instruction is then to be dropped.
    pub fn take(&mut self, token: &Token) -> Result<(), StepError>
        ensures { TakesCell result self.new (pending_after (pending_of self.old) token.now) }
    {
        match self.want() {
            Some(want) => {
                if !fits(want, token) {
                    return Err(StepError::Refused);
                }
            }
            None => return Err(StepError::Refused),
        }
        keep_register(&mut self.registers, token)?;
        self.read_count = self.read_count.saturating_add(1);
        self.value = value_with(self.value, token);
        Ok(())
    }

    // A register that was taken.
    fn register(&self, index: usize) -> Register
        ensures { result ≡ slice_index self.now.registers.items index }
    {
        if index < self.registers.len() {
            self.registers[index]
        } else {
            Register::new(0)
        }
    }

    /// The instruction, once all its tokens are read.
    pub fn instruction(&self) -> Instruction
        ensures { result ≡ instruction_of (pending_of self.now) }
    {
        let first = self.register(0);
        let second = self.register(1);
        let third = self.register(2);
        let value = self.value;
        match self.opcode {
            DataOpcode::LoadImmediate => Instruction::LoadImmediate {
                target: first,
                value,
            },
            DataOpcode::Move => Instruction::Move {
                target: first,
                source: second,
            },
            DataOpcode::AddImmediate => Instruction::AddImmediate {
                target: first,
                left: second,
                value,
            },
            DataOpcode::Compute(operation) => Instruction::Compute {
                operation,
                target: first,
                left: second,
                right: third,
            },
            DataOpcode::Load => Instruction::Load {
                target: first,
                base: second,
            },
            DataOpcode::LoadIndexed => Instruction::LoadIndexed {
                target: first,
                base: second,
                index: third,
            },
            DataOpcode::Store => Instruction::Store {
                source: first,
                base: second,
            },
            DataOpcode::StoreIndexed => Instruction::StoreIndexed {
                source: first,
                base: second,
                index: third,
            },
            DataOpcode::Compare => Instruction::Compare {
                left: first,
                right: second,
            },
            DataOpcode::CompareImmediate => Instruction::CompareImmediate { left: first, value },
        }
    }
}

// Keeps the register that a token is; a word that is none counts as `r0`.
fn keep_register(registers: &mut Vec<Register>, token: &Token) -> Result<(), AllocError>
    ensures { IfOk result (λ _. registers.new.items
        ≡ registers_with token.now registers.old.items) }
{
    if let Token::Word(word) = token {
        registers.push(register_of(word.as_bytes()))?;
    }
    Ok(())
}

// The number after a token.
fn value_with(value: i32, token: &Token) -> i32
    ensures { result ≡ value_with token.now value }
{
    match token {
        Token::Number(is_negative, digits) => {
            match signed_number(*is_negative, digits.as_bytes()) {
                Some(number) => number,
                None => value,
            }
        }
        _ => value,
    }
}

fn register_of(word: &[u8]) -> Register
    ensures { result ≡ or_zero (register_of word.now) }
{
    match register_number(word) {
        Some(number) => Register::new(number),
        None => Register::new(0),
    }
}

/// Whether a word names a register.
pub fn is_register(word: &[u8]) -> bool
    ensures { result ≡ is_register word.now }
{
    match register_number(word) {
        Some(_) => true,
        None => false,
    }
}

/// Whether a sign and digits spell a number of 32 bits.
pub fn is_int(is_negative: bool, digits: &[u8]) -> bool
    ensures { result ≡ is_int is_negative digits.now }
{
    match signed_number(is_negative, digits) {
        Some(_) => true,
        None => false,
    }
}

// Whether a token is what is wanted.
fn fits(want: Want, token: &Token) -> bool
    ensures { result ≡ token_fits want token.now }
{
    match want {
        Want::Register => match token {
            Token::Word(word) => is_register(word.as_bytes()),
            _ => false,
        },
        Want::Base => match token {
            Token::Word(word) => {
                is_register(word.as_bytes()) && word.as_bytes() != b"r0".as_slice()
            }
            _ => false,
        },
        Want::Immediate => match token {
            Token::Number(is_negative, digits) => is_int(*is_negative, digits.as_bytes()),
            _ => false,
        },
        Want::Zero => match token {
            Token::Number(_, digits) => digits.as_bytes().is_empty(),
            _ => false,
        },
        Want::Comma => match token {
            Token::Mark(Mark::Comma) => true,
            _ => false,
        },
        Want::Open => match token {
            Token::Mark(Mark::Open) => true,
            _ => false,
        },
        Want::Close => match token {
            Token::Mark(Mark::Close) => true,
            _ => false,
        },
    }
}
