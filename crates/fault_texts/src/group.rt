//! The first fault of a group and of parameters, and the sign that it stands at.

ghost use Rattle.std.specs.Prelude.{◌≡◌, [], List, reverse, map, option_map};
ghost use Rattle.binding_kinds.specs.Value.{entry_of, bound_value_of};
ghost use Rattle.binding_kinds.specs.Senses.{Sense, HaveSenses};
ghost use Rattle.fault_texts.specs.Search.{signed_fault_of, signed_fault, first_fault_in_group, first_fault_in_parameters};

use crate::expression::expression_fault;
use crate::place::{SignFault, or_later, signed_fault};
use binding_kinds::{Entry, Function, binding_fault, judge, one_parameter_fault};
use text_values::{Binding, Name};

/// The first fault of the bindings of a group.
pub fn group_fault<'t>(
    entries: &[Entry],
    functions: &[Function],
    from: usize,
    recursive: bool,
    group: &'t [Binding],
) -> Option<SignFault<'t>>
    ensures { (senses : List Sense) → HaveSenses functions.now senses
        → option_map signed_fault_of result
        ≡ first_fault_in_group senses (reverse (map entry_of entries.now)) from recursive []
        (map bound_value_of group.now) }
{
    let mut all = None;
    for (index, binding) in group.iter().enumerate() {
        let judged = judge(entries, functions, from, false, &binding.body);
        let own = binding_fault(judged.kind, recursive, &group[..index], binding);
        let here = signed_fault(own, binding.name.as_bytes());
        let body = expression_fault(entries, functions, from, false, &binding.body);
        let one = or_later(here, body);
        all = or_later(all, one);
    }
    all
}

/// The first fault of the parameters of a function.
pub fn parameters_fault<'t>(parameters: &'t [Name]) -> Option<SignFault<'t>>
    ensures { option_map signed_fault_of result ≡ first_fault_in_parameters [] parameters.now }
{
    let mut all = None;
    for (index, parameter) in parameters.iter().enumerate() {
        let own = one_parameter_fault(&parameters[..index], parameter);
        let one = signed_fault(own, parameter.as_bytes());
        all = or_later(all, one);
    }
    all
}
