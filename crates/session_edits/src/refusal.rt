//! The lines of refusals.

ghost use Rattle.std.specs.Prelude.{◌≡◌, ◌++◌, ◌∷◌, OnOk, IfOk, codes, decimal};
ghost use Rattle.session_edits.specs.Answer.{refusal_line, refused_line, refusal_answer};
ghost use Rattle.session_edits.specs.Faults.{test_line, model_line, fault_line, HasFaultLine};

use crate::answer::Answer;
use bench_texts::EditFault;
use cat_syntax::CatFault;
use litmus_ppc::LitmusFault;
use std::alloc::{AllocError, Global};
use text_values::{put_bytes, put_decimal};

// The word, and the letter and the number of the rule.
fn put_head(text: &mut Vec<u8>, letter: u8, number: u8) -> Result<(), AllocError>
    ensures { OnOk result (text.new.items
        ≡ text.old.items ++ (codes "refused " ++ letter ∷ decimal number)) }
{
    put_bytes(text, b"refused ")?;
    text.push(letter)?;
    put_decimal(text, u64::from(number))
}

/// Appends the line of a refusal: the letter of its rules and the rule's number. Errors: out of
/// memory.
#[tactic(auto, unfolding(crate::specs::Answer::refusal_line))]
pub fn put_rule(text: &mut Vec<u8>, letter: u8, number: u8) -> Result<(), AllocError>
    ensures { OnOk result (text.new.items ≡ text.old.items ++ refusal_line letter number) }
{
    put_head(text, letter, number)?;
    put_bytes(text, b"\n")
}

/// Appends the line of a refused text: the letter of its rules, the rule's number and the offset.
/// Errors: out of memory.
#[tactic(auto, unfolding(crate::specs::Answer::refused_line))]
pub fn put_refusal(
    text: &mut Vec<u8>,
    letter: u8,
    number: u8,
    offset: usize,
) -> Result<(), AllocError>
    ensures { OnOk result (text.new.items ≡ text.old.items ++ refused_line letter number offset) }
{
    put_head(text, letter, number)?;
    put_bytes(text, b" ")?;
    put_decimal(text, offset as u64)?;
    put_bytes(text, b"\n")
}

/// The refusal by a rule. Errors: out of memory.
pub fn refused_by(alloc: Global, letter: u8, number: u8) -> Result<Answer, AllocError>
    ensures { IfOk result (λ a. a ≡ refusal_answer (refusal_line letter number)) }
{
    let mut text = Vec::new(alloc);
    put_rule(&mut text, letter, number)?;
    Ok(Answer::refusal(text))
}

fn refused_at(alloc: Global, letter: u8, number: u8, offset: usize) -> Result<Answer, AllocError>
    ensures { IfOk result (λ a. a ≡ refusal_answer (refused_line letter number offset)) }
{
    let mut text = Vec::new(alloc);
    put_refusal(&mut text, letter, number, offset)?;
    Ok(Answer::refusal(text))
}

fn refused_test(alloc: Global, fault: LitmusFault) -> Result<Answer, AllocError>
    ensures line { IfOk result (λ a. a ≡ refusal_answer (test_line fault)) }
    ensures answer { OnOk result (HasFaultLine (EditFault.Test fault)) }
{
    match fault {
        LitmusFault::Refused { rule, offset } => refused_at(alloc, b'L', rule.number(), offset),
        LitmusFault::OutOfMemory(e) => Err(e),
    }
}

fn refused_model(alloc: Global, fault: CatFault) -> Result<Answer, AllocError>
    ensures line { IfOk result (λ a. a ≡ refusal_answer (model_line fault)) }
    ensures answer { OnOk result (HasFaultLine (EditFault.Model fault)) }
{
    match fault {
        CatFault::Refused { rule, offset } => refused_at(alloc, b'C', rule.number(), offset),
        CatFault::OutOfMemory(e) => Err(e),
    }
}

/// The answer to an edit that is refused. Errors: out of memory, also where the edit was refused
/// for want of it.
pub fn refused_edit(alloc: Global, fault: EditFault) -> Result<Answer, AllocError>
    ensures line { IfOk result (λ a. a ≡ refusal_answer (fault_line fault)) }
    ensures answer { IfOk result (λ a. HasFaultLine fault) }
{
    match fault {
        EditFault::NoTest => refused_by(alloc, b'X', 1),
        EditFault::NoModel => refused_by(alloc, b'X', 2),
        EditFault::NoThread => refused_by(alloc, b'X', 3),
        EditFault::NoItem => refused_by(alloc, b'X', 4),
        EditFault::Test(fault) => refused_test(alloc, fault),
        EditFault::Model(fault) => refused_model(alloc, fault),
        EditFault::Full => refused_by(alloc, b'X', 5),
        EditFault::Spent => refused_by(alloc, b'X', 6),
        EditFault::OutOfMemory(e) => Err(e),
    }
}
