//! The names that an item adds, and its first fault.

ghost use Rattle.std.specs.Prelude.{◌≡◌, [], None, IfOk, OnOk, List, reverse, map, length, option_map, false};
ghost use Rattle.text_values.specs.ModelValues.{term_of};
ghost use Rattle.binding_kinds.specs.Value.{Defined, entry_of, bound_value_of, bare_item};
ghost use Rattle.binding_kinds.specs.Kinds.{takes_body};
ghost use Rattle.binding_kinds.specs.Senses.{Sense, HaveSenses, kind_in};
ghost use Rattle.binding_kinds.specs.Faults.{with_all, names_after, senses_after};
ghost use Rattle.binding_kinds.specs.Verdict.{unless};
ghost use Rattle.fault_texts.specs.Signs.{check_sign};
ghost use Rattle.fault_texts.specs.Search.{signed_fault_of, signed_fault, or_later, first_fault_in, first_fault_in_item, first_fault_in_parameters, first_fault_in_body};

use crate::body::body_fault;
use crate::expression::expression_fault;
use crate::group::{group_fault, parameters_fault};
use crate::place::{SignFault, or_later, signed_fault};
use crate::signs::check_sign;
use binding_graph::{declare_own, read_function};
use binding_kinds::{
    Binder, Entry, Function, Input, Kind, ModelFault, Scope, Sight, judge, takes_body, unless,
};
use std::alloc::{AllocError, Global};
use text_values::{Binding, Check, Expression, Item, Name};

/// Adds the names of a group whose bodies see the names before it.
#[tactic(auto, using(binding_kinds::proofs::Scopes::rev_push))]
fn declare_all(
    alloc: Global,
    entries: &mut Vec<Entry>,
    functions: &[Function],
    item: usize,
    group: &[Binding],
) -> Result<(), AllocError>
    ensures { (senses : List Sense) → HaveSenses functions.now senses
        → OnOk result (reverse (map entry_of entries.new.items)
        ≡ with_all senses (reverse (map entry_of entries.old.items))
        (reverse (map entry_of entries.old.items)) item 0 (map bound_value_of group.now)) }
{
    let before = entries.len();
    for (position, binding) in group.iter().enumerate() {
        let body = judge(&entries[..before], functions, before, false, &binding.body);
        entries.push(Entry {
            name: binding.name.copied(alloc)?,
            kind: body.kind,
            binder: Binder::Bound(Input { item, position }),
        })?;
    }
    Ok(())
}

/// The first fault of a check or a flag.
fn check_fault<'t>(
    entries: &[Entry],
    functions: &[Function],
    check: &'t Check,
) -> Option<SignFault<'t>>
    ensures { let names = reverse (map entry_of entries.now) in
        (senses : List Sense) → HaveSenses functions.now senses
        → option_map signed_fault_of result
        ≡ or_later
        (signed_fault
        (unless
        (takes_body check.now.word (kind_in senses names (term_of check.now.body)))
        ModelFault.Kind)
        (check_sign check.now.word))
        (first_fault_in senses names (length entries.now) false (term_of check.now.body)) }
{
    let from = entries.len();
    let kind = judge(entries, functions, from, false, &check.body).kind;
    let here = signed_fault(
        unless(takes_body(check.word, kind), ModelFault::Kind),
        check_sign(check.word),
    );
    or_later(
        here,
        expression_fault(entries, functions, from, false, &check.body),
    )
}

/// Adds a function, unless it has a fault: then the first one.
fn declare_function<'t>(
    alloc: Global,
    scope: &mut Scope,
    index: usize,
    name: &Name,
    parameters: &'t [Name],
    body: &'t Expression,
) -> Result<Option<SignFault<'t>>, AllocError>
    ensures fault { (senses : List Sense) → HaveSenses scope.old.functions.items senses
        → IfOk result (λ f. option_map signed_fault_of f
        ≡ or_later (first_fault_in_parameters [] parameters.now) (first_fault_in_body senses
        (reverse (map entry_of scope.old.entries.items)) parameters.now
        (term_of body.now))) }
    ensures names { (senses : List Sense) → HaveSenses scope.old.functions.items senses
        → IfOk result (λ f. f ≡ None
        → reverse (map entry_of scope.new.entries.items)
        ≡ names_after senses (reverse (map entry_of scope.old.entries.items)) index
        (Defined name.now parameters.now (term_of body.now))) }
    ensures functions { (senses : List Sense) → HaveSenses scope.old.functions.items senses
        → IfOk result (λ f. f ≡ None
        → HaveSenses scope.new.functions.items (senses_after senses
        (reverse (map entry_of scope.old.entries.items))
        (Defined name.now parameters.now (term_of body.now)))) }
{
    let fault = parameters_fault(parameters);
    if fault.is_some() {
        return Ok(fault);
    }
    let sight = Sight {
        entries: &scope.entries,
        functions: &scope.functions,
        parameters,
        from: scope.entries.len(),
    };
    let fault = body_fault(&sight, body);
    if fault.is_some() {
        return Ok(fault);
    }
    let function = read_function(alloc, &sight, index, body)?;
    let binder = Binder::Applicable(scope.functions.len());
    scope.functions.push(function)?;
    scope.entries.push(Entry {
        name: name.copied(alloc)?,
        kind: Kind::OfAny,
        binder,
    })?;
    Ok(None)
}

/// The first fault of an item, whose names are added.
pub fn declare_item<'t>(
    alloc: Global,
    scope: &mut Scope,
    index: usize,
    item: &'t Item,
) -> Result<Option<SignFault<'t>>, AllocError>
    ensures fault { (senses : List Sense) → HaveSenses scope.old.functions.items senses
        → IfOk result (λ f. option_map signed_fault_of f
        ≡ first_fault_in_item senses (reverse (map entry_of scope.old.entries.items)) index
        (bare_item item.now)) }
    ensures names { (senses : List Sense) → HaveSenses scope.old.functions.items senses
        → IfOk result (λ f. f ≡ None
        → reverse (map entry_of scope.new.entries.items)
        ≡ names_after senses (reverse (map entry_of scope.old.entries.items)) index
        (bare_item item.now)) }
    ensures functions { (senses : List Sense) → HaveSenses scope.old.functions.items senses
        → IfOk result (λ f. f ≡ None
        → HaveSenses scope.new.functions.items (senses_after senses
        (reverse (map entry_of scope.old.entries.items)) (bare_item item.now))) }
{
    let from = scope.entries.len();
    match item {
        Item::Let {
            recursive: true,
            group,
        } => {
            declare_own(alloc, &mut scope.entries, index, group)?;
            Ok(group_fault(&scope.entries, &scope.functions, from, true, group))
        }
        Item::Let {
            recursive: false,
            group,
        } => {
            let fault = group_fault(&scope.entries, &scope.functions, from, false, group);
            declare_all(alloc, &mut scope.entries, &scope.functions, index, group)?;
            Ok(fault)
        }
        Item::Check { check, .. } => Ok(check_fault(&scope.entries, &scope.functions, check)),
        Item::Flag { check, .. } => Ok(check_fault(&scope.entries, &scope.functions, check)),
        Item::Function {
            name,
            parameters,
            body,
        } => declare_function(alloc, scope, index, name, parameters, body),
        Item::Show { .. } => Ok(None),
        Item::Include(_) => Ok(None),
    }
}
