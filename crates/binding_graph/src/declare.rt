//! The names that an item adds.

ghost use Rattle.std.specs.Prelude.{◌≡◌, ◌++◌, ◌∷◌, [], None, IfOk, OnOk, List, length, reverse, map};
ghost use Rattle.text_values.specs.ModelValues.{term_of};
ghost use Rattle.binding_kinds.specs.Value.{Naming, Bound, Defined, entry_of, bound_value_of};
ghost use Rattle.binding_kinds.specs.Senses.{Sense, HaveSenses};
ghost use Rattle.binding_kinds.specs.Faults.{with_own, with_all, names_after, senses_after};
ghost use Rattle.binding_kinds.specs.Verdict.{or_else, of_parameters};
ghost use Rattle.binding_kinds.specs.First.{first_of_body};
ghost use Rattle.binding_graph.specs.Usages.{usage_of, usages_after};
ghost use Rattle.binding_graph.specs.Readings.{AreNamed};

use crate::function::{ReadFunction, read_whole};
use crate::resolved::Body;
use binding_kinds::{
    Binder, Entry, Function, Input, Kind, ModelFault, Scope, Sight, parameter_fault,
};
use std::alloc::{AllocError, Global};
use text_values::{Binding, Expression, Name};

/// Adds the names of a recursive group. Errors: want of memory.
#[tactic(auto, using(binding_kinds::proofs::Scopes::rev_push))]
pub fn declare_own(
    alloc: Global,
    entries: &mut Vec<Entry>,
    item: usize,
    group: &[Binding],
) -> Result<(), AllocError>
    ensures { OnOk result (reverse (map entry_of entries.new.items)
        ≡ with_own (reverse (map entry_of entries.old.items)) item 0
        (map bound_value_of group.now)) }
{
    for (position, binding) in group.iter().enumerate() {
        entries.push(Entry {
            name: binding.name.copied(alloc)?,
            kind: Kind::OfRelation,
            binder: Binder::Bound(Input { item, position }),
        })?;
    }
    Ok(())
}

/// Adds the names of a group with those bodies, which see the names before it. Errors: want of
/// memory.
#[tactic(auto, using(binding_kinds::proofs::Scopes::rev_push))]
pub fn declare_all(
    alloc: Global,
    entries: &mut Vec<Entry>,
    item: usize,
    bodies: &[Body],
) -> Result<(), AllocError>
    ensures { (senses : List Sense) (outer : List Naming) (bounds : List Bound)
        → AreNamed senses outer bounds bodies.now
        → OnOk result (reverse (map entry_of entries.new.items)
        ≡ with_all senses outer (reverse (map entry_of entries.old.items)) item 0 bounds) }
{
    for (position, body) in bodies.iter().enumerate() {
        entries.push(Entry {
            name: body.name.copied(alloc)?,
            kind: body.code.kind,
            binder: Binder::Bound(Input { item, position }),
        })?;
    }
    Ok(())
}

/// Adds a function of that name.
fn add_function(
    alloc: Global,
    scope: &mut Scope,
    name: &Name,
    function: Function,
) -> Result<(), AllocError>
    ensures functions { OnOk result (scope.new.functions.items
        ≡ scope.old.functions.items ++ function ∷ []) }
    ensures entries { OnOk result (scope.new.entries.items
        ≡ scope.old.entries.items
        ++ (record {
          name = name.now;
          kind = Kind.OfAny;
          binder = Binder.Applicable (length scope.old.functions.items);
        })
        ∷ []) }
{
    let binder = Binder::Applicable(scope.functions.len());
    scope.functions.push(function)?;
    scope.entries.push(Entry {
        name: name.copied(alloc)?,
        kind: Kind::OfAny,
        binder,
    })?;
    Ok(())
}

/// Adds a function, unless it has a fault: then the first one. Errors: want of memory.
pub fn declare_function(
    alloc: Global,
    scope: &mut Scope,
    index: usize,
    name: &Name,
    parameters: &[Name],
    body: &Expression,
) -> Result<Option<ModelFault>, AllocError>
    ensures fault { (senses : List Sense) → HaveSenses scope.old.functions.items senses
        → IfOk result (λ f. f
        ≡ or_else (of_parameters [] parameters.now) (first_of_body senses
        (reverse (map entry_of scope.old.entries.items)) parameters.now
        (term_of body.now))) }
    ensures names { (senses : List Sense) → HaveSenses scope.old.functions.items senses
        → IfOk result (λ f. f ≡ None
        → reverse (map entry_of scope.new.entries.items)
        ≡ names_after senses (reverse (map entry_of scope.old.entries.items)) index
        (Defined name.now parameters.now (term_of body.now))) }
    ensures functions { (senses : List Sense) → HaveSenses scope.old.functions.items senses
        → IfOk result (λ f. f ≡ None
        → HaveSenses scope.new.functions.items (senses_after senses
        (reverse (map entry_of scope.old.entries.items))
        (Defined name.now parameters.now (term_of body.now)))) }
    ensures usages { IfOk result (λ f. f ≡ None
        → map usage_of scope.new.functions.items
        ≡ usages_after (map usage_of scope.old.functions.items)
        (reverse (map entry_of scope.old.entries.items)) index
        (Defined name.now parameters.now (term_of body.now))) }
{
    let fault = parameter_fault(parameters);
    if fault.is_some() {
        return Ok(fault);
    }
    let sight = Sight {
        entries: &scope.entries,
        functions: &scope.functions,
        parameters,
        from: scope.entries.len(),
    };
    let ReadFunction { function, fault } = read_whole(alloc, &sight, index, body)?;
    if fault.is_some() {
        return Ok(fault);
    }
    add_function(alloc, scope, name, function)?;
    Ok(None)
}
