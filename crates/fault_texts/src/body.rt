//! The first fault of the body of a function, and the sign that it stands at.

ghost use Rattle.std.specs.Prelude.{◌≡◌, List, reverse, map, option_map};
ghost use Rattle.text_values.specs.ModelValues.{term_of};
ghost use Rattle.binding_kinds.specs.Value.{entry_of};
ghost use Rattle.binding_kinds.specs.Senses.{Sense, HaveSenses, sense_of};
ghost use Rattle.binding_kinds.specs.Kinds.{found};
ghost use Rattle.binding_kinds.specs.Meanings.{parameter_of};
ghost use Rattle.binding_kinds.specs.First.{fault_inside, apply_fault};
ghost use Rattle.fault_texts.specs.Search.{signed_fault_of, signed_fault, first_fault_in_body};

use crate::place::{SignFault, or_later, signed_fault};
use binding_kinds::{ModelFault, Sight};
use text_values::{Expression, Name};

/// The fault of a name without arguments.
#[tactic(auto, using(binding_kinds::proofs::Bodies::inside_fault))]
fn name_fault(sight: &Sight, name: &Name) -> Option<ModelFault>
    ensures { result
        ≡ fault_inside (parameter_of (reverse sight.now.parameters.now) name.now)
        (found (reverse (map entry_of sight.now.entries.now)) name.now) }
{
    match sight.value(name) {
        Err(fault) => Some(fault),
        Ok(_) => None,
    }
}

/// The fault of a name with so many arguments.
fn applied_fault(sight: &Sight, name: &Name, count: usize) -> Option<ModelFault>
    ensures { (senses : List Sense) → HaveSenses sight.now.functions.now senses
        → result
        ≡ apply_fault (parameter_of (reverse sight.now.parameters.now) name.now)
        (sense_of senses count (found (reverse (map entry_of sight.now.entries.now))
        name.now)) }
{
    match sight.function(name, count) {
        Err(fault) => Some(fault),
        Ok(_) => None,
    }
}

/// The first fault of the body of a function. Kinds, sizes and complements count where the function
/// is applied.
pub fn body_fault<'t>(sight: &Sight, term: &'t Expression) -> Option<SignFault<'t>>
    ensures { (senses : List Sense) → HaveSenses sight.now.functions.now senses
        → option_map signed_fault_of result
        ≡ first_fault_in_body senses (reverse (map entry_of sight.now.entries.now))
        sight.now.parameters.now (term_of term.now) }
{
    match term {
        Expression::Named(name) => signed_fault(name_fault(sight, name), name.as_bytes()),
        Expression::Everything => None,
        Expression::NoPairs => None,
        Expression::NoEvents => None,
        Expression::Joined(_, left, right) => {
            let first = body_fault(sight, left);
            or_later(first, body_fault(sight, right))
        }
        Expression::Marked(_, operand) => body_fault(sight, operand),
        Expression::Complement(operand) => body_fault(sight, operand),
        Expression::Identity(operand) => body_fault(sight, operand),
        Expression::Applied(name, arguments) => {
            let count = arguments.len();
            let own = applied_fault(sight, name, count);
            let mut all = signed_fault(own, name.as_bytes());
            for argument in arguments {
                let one = body_fault(sight, argument);
                all = or_later(all, one);
            }
            all
        }
    }
}
