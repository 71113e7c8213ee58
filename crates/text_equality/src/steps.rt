//! Threads.

ghost use Rattle.std.specs.Prelude.{◌≡◌, ◌↔◌, IsTrue};

use crate::shapes::is_same_instruction;
use text_values::Step;

fn is_same_step(first: &Step, second: &Step) -> bool
    ensures { IsTrue result ↔ (first.now ≡ second.now) }
{
    match (first, second) {
        (Step::Label(a), Step::Label(b)) => a.is_same(b),
        (Step::Instruction(a), Step::Instruction(b)) => is_same_instruction(a, b),
        (Step::Label(_), Step::Instruction(_)) => false,
        (Step::Instruction(_), Step::Label(_)) => false,
    }
}

/// Whether two threads have equal steps.
pub fn are_same_steps(first: &[Step], second: &[Step]) -> bool
    ensures { IsTrue result ↔ (first.now ≡ second.now) }
{
    if first.len() != second.len() {
        return false;
    }
    for (this, that) in first.iter().zip(second.iter()) {
        if !is_same_step(this, that) {
            return false;
        }
    }
    true
}
