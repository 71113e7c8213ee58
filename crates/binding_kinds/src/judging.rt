//! The kinds and the first fault of expressions, and the faults of names that are bound.

ghost use Rattle.std.specs.Prelude.{◌≡◌, [], List, reverse, map, Ok, Err, MatchResult};
ghost use Rattle.binding_kinds.specs.Value.{Naming, entry_of, bound_value_of};
ghost use Rattle.binding_kinds.specs.Kinds.{found};
ghost use Rattle.binding_kinds.specs.Verdict.{is_seen, of_parameter, of_parameters};
ghost use Rattle.binding_kinds.specs.First.{let_fault};
ghost use Rattle.binding_kinds.specs.GroupNames.{let_names};
ghost use Rattle.binding_kinds.specs.Senses.{Sense, HasSense, HaveSenses, sense_of, size_in, kind_in, term_fault, IsSameSize};
ghost use Rattle.text_values.specs.ModelValues.{term_of};

use crate::fault::ModelFault;
use crate::function::Function;
use crate::judged::{
    Arguments, Judged, either, judged_complement, judged_faulty, judged_identity, judged_infix,
    judged_name, judged_postfix, judged_sign, unless,
};
use crate::kinds::{Kind, is_turned};
use crate::scope::{Binder, Entry, find};
use text_values::{Binding, Expression, MAX_PARAMETERS, Name};

/// The function that a name with so many arguments stands for.
pub fn function_of<'a>(
    entries: &[Entry],
    functions: &'a [Function],
    name: &Name,
    count: usize,
) -> Result<&'a Function, ModelFault>
    ensures { let looked_for = found (reverse (map entry_of entries.now)) name.now in
        (senses : List Sense) → HaveSenses functions.now senses
        → MatchResult result
        (λ f. (s : Sense) × (sense_of senses count looked_for ≡ Ok s) × HasSense f.now s)
        (λ k. sense_of senses count looked_for ≡ Err k) }
{
    let Some(found) = find(entries, name) else {
        return Err(ModelFault::Unbound);
    };
    match found.binder {
        Binder::Applicable(function) => match functions.get(function) {
            None => Err(ModelFault::Arity),
            Some(one) => {
                if one.arity == count {
                    Ok(one)
                } else {
                    Err(ModelFault::Arity)
                }
            }
        },
        Binder::Predefined(_) => Err(ModelFault::Arity),
        Binder::Bound(_) => Err(ModelFault::Arity),
    }
}

/// The kind, the size and the first fault of an expression, seen under a complement or not.
/// The names of the item itself have the slot `from` and those behind it.
pub fn judge(
    entries: &[Entry],
    functions: &[Function],
    from: usize,
    under: bool,
    term: &Expression,
) -> Judged
    ensures kind_in { (senses : List Sense) → HaveSenses functions.now senses
        → result.kind ≡ kind_in senses (reverse (map entry_of entries.now)) (term_of term.now) }
    ensures size_in { (senses : List Sense) → HaveSenses functions.now senses
        → IsSameSize result.size (size_in senses (reverse (map entry_of entries.now))
        (term_of term.now)) }
    ensures first_within { (senses : List Sense) → HaveSenses functions.now senses
        → result.fault
        ≡ term_fault senses (reverse (map entry_of entries.now)) from under
        (term_of term.now) }
{
    match term {
        Expression::Named(name) => judged_name(from, under, find(entries, name)),
        Expression::Everything => judged_sign(Kind::OfSet),
        Expression::NoPairs => judged_sign(Kind::OfRelation),
        Expression::NoEvents => judged_sign(Kind::OfSet),
        Expression::Joined(op, left, right) => {
            let first = judge(entries, functions, from, under, left);
            let second = judge(entries, functions, from, is_turned(*op, under), right);
            judged_infix(*op, first, second)
        }
        Expression::Marked(_, operand) => {
            judged_postfix(judge(entries, functions, from, under, operand))
        }
        Expression::Complement(operand) => {
            judged_complement(judge(entries, functions, from, true, operand))
        }
        Expression::Identity(operand) => {
            judged_identity(judge(entries, functions, from, under, operand))
        }
        Expression::Applied(name, arguments) => {
            match function_of(entries, functions, name, arguments.len()) {
                Err(fault) => judged_faulty(fault),
                Ok(function) => {
                    let mut all = Arguments::of(function);
                    for (index, argument) in arguments.iter().enumerate() {
                        let inner = either(under, function.is_under(index));
                        let one = judge(entries, functions, from, inner, argument);
                        all = all.with(function, index, one);
                    }
                    all.applied(function)
                }
            }
        }
    }
}

/// Whether one of the bindings has the name.
fn is_seen(before: &[Binding], name: &Name) -> bool
    ensures { result ≡ is_seen (let_names before.now) name.now }
{
    let mut is_found = false;
    for binding in before {
        if binding.name.is_same(name) {
            is_found = true;
        }
    }
    is_found
}

/// The first fault of a binding's own name, in a group after those bindings, where its body has
/// that kind.
pub fn binding_fault(
    body: Kind,
    recursive: bool,
    before: &[Binding],
    binding: &Binding,
) -> Option<ModelFault>
    ensures { (senses : List Sense) → (names : List Naming)
        → body ≡ kind_in senses names (bound_value_of binding.now).body
        → result ≡ let_fault senses names recursive (let_names before.now)
        (bound_value_of binding.now) }
{
    if is_seen(before, &binding.name) {
        return Some(ModelFault::Duplicate);
    }
    if recursive && body == Kind::OfSet {
        return Some(ModelFault::SetInRec);
    }
    None
}

/// Whether one of the parameters has the name.
#[tactic(auto, using(crate::proofs::Scopes::rev_next))]
fn is_among(before: &[Name], name: &Name) -> bool
    ensures { result ≡ is_seen (reverse before.now) name.now }
{
    let mut is_found = false;
    for parameter in before {
        if parameter.as_bytes() == name.as_bytes() {
            is_found = true;
        }
    }
    is_found
}

/// The fault of a parameter after those before it: it stands there already, or is a ninth.
pub fn one_parameter_fault(before: &[Name], parameter: &Name) -> Option<ModelFault>
    ensures { result ≡ of_parameter (reverse before.now) parameter.now }
{
    if is_among(before, parameter) {
        return Some(ModelFault::Duplicate);
    }
    unless(before.len() < MAX_PARAMETERS, ModelFault::TooLarge)
}

/// The first fault of the parameters of a function: one that stands twice, or a ninth, which no
/// text has.
pub fn parameter_fault(parameters: &[Name]) -> Option<ModelFault>
    ensures { result ≡ of_parameters [] parameters.now }
{
    for (index, parameter) in parameters.iter().enumerate() {
        let fault = one_parameter_fault(&parameters[..index], parameter);
        if fault.is_some() {
            return fault;
        }
    }
    None
}
