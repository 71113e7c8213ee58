//! The items of a model, one after another, each read once.

ghost use Rattle.std.specs.Prelude.{◌≡◌, ◌+◌, [], ◌∷◌, ◌++◌, List, None, Some, vec_len, IfOk, OnOk, MatchResult, reverse, map, length, true, false};
ghost use Rattle.text_values.specs.ModelValues.{term_of};
ghost use Rattle.binding_kinds.specs.Value.{Group, Defined, entry_of, bare_item, bound_value_of};
ghost use Rattle.binding_kinds.specs.Senses.{Sense, HaveSenses};
ghost use Rattle.binding_kinds.specs.Faults.{HasNoFault, FirstFault, with_own, with_all, names_after, senses_after};
ghost use Rattle.binding_kinds.specs.First.{first, first_of_item};
ghost use Rattle.binding_kinds.specs.Fits.{AreSoundSenses, AreKnown};
ghost use Rattle.binding_kinds.specs.Outermost.{naming_of};
ghost use Rattle.binding_graph.specs.Refusals.{IfRefused};
ghost use Rattle.binding_graph.specs.Usages.{Usage, usage_of, usages_after};
ghost use Rattle.binding_graph.specs.Readings.{fault_of};
ghost use Rattle.binding_graph.specs.Resolved.{IsResolvedIn, AreResolved, IsLabelledAs, AreLabelledAs};

use crate::bodies::{group_item, read_bodies, read_check};
use crate::declare::{declare_all, declare_function, declare_own};
use crate::fault::ResolveFault;
use crate::resolved::{Resolved, ResolvedItem, Role};
use crate::uses::copied_lists;
use crate::workspace::Workspace;
use binding_kinds::{ModelFault, Scope, Sight};
use std::alloc::{AllocError, Global};
use text_values::{Binding, Expression, Item, ModelText, Name, PREDEFINED};

/// Resolves a model. Each name is looked up once, also in the body of a function.
///
/// The fault that is answered is the first by item and then by index; at one index
/// the order is M1, M4, M6, M7, M3, M2, M5. Errors: the first fault of the model, by item and then
/// by index, or want of memory.
pub fn resolve(alloc: Global, text: &ModelText) -> Result<Resolved, ResolveFault>
    ensures whole { IfOk result (λ r. vec_len r.items ≡ vec_len text.now.items) }
    ensures fault { let names = reverse (map naming_of PREDEFINED) in
        let clauses = map bare_item text.now.items.items in
        MatchResult result (λ _. HasNoFault [] names 0 clauses)
        (λ e. IfRefused e (λ k. FirstFault [] names 0 clauses k)) }
    ensures items { let names = reverse (map naming_of PREDEFINED) in
        let clauses = map bare_item text.now.items.items in
        IfOk result (λ r. AreResolved [] [] names 0 clauses r.items.items) }
    ensures labels { IfOk result (λ r. AreLabelledAs text.now.items.items r.items.items) }
{
    match resolve_all(alloc, &text.items) {
        Ok(Ok(items)) => Ok(Resolved { items }),
        Ok(Err(fault)) => Err(ResolveFault::Refused(fault)),
        Err(error) => Err(ResolveFault::OutOfMemory(error)),
    }
}

/// The items of a model resolved, or the first fault.
fn resolve_all(
    alloc: Global,
    items: &[Item],
) -> Result<Result<Vec<ResolvedItem>, ModelFault>, AllocError>
    ensures fault { let names = reverse (map naming_of PREDEFINED) in
        IfOk result (λ r. MatchResult r (λ _. HasNoFault [] names 0 (map bare_item items.now))
        (λ k. FirstFault [] names 0 (map bare_item items.now) k)) }
    ensures whole { IfOk result (λ r. IfOk r (λ v. vec_len v ≡ length items.now)) }
    ensures items { let names = reverse (map naming_of PREDEFINED) in
        IfOk result (λ r.
        IfOk r (λ v. AreResolved [] [] names 0 (map bare_item items.now) v.items)) }
    ensures labels { IfOk result (λ r. IfOk r (λ v. AreLabelledAs items.now v.items)) }
{
    let mut scope = Scope::new(alloc)?;
    resolve_items(alloc, &mut scope, items)
}

/// The items resolved, or the first fault.
fn find_items(
    alloc: Global,
    scope: &mut Scope,
    work: &mut Workspace,
    items: &[Item],
) -> Result<(Vec<ResolvedItem>, Option<ModelFault>), AllocError>
    ensures fault { (senses : List Sense) → HaveSenses scope.old.functions.items senses
        → IfOk result (λ r. r.1
        ≡ first senses (reverse (map entry_of scope.old.entries.items)) 0
        (map bare_item items.now)) }
    ensures whole { IfOk result (λ r. r.1 ≡ None → vec_len r.0 ≡ length items.now) }
    ensures items { let names = reverse (map entry_of scope.old.entries.items) in
        (senses : List Sense) → HaveSenses scope.old.functions.items senses → AreSoundSenses senses
        → AreKnown names
        → IfOk result (λ r. r.1 ≡ None
        → AreResolved senses (map usage_of scope.old.functions.items) names 0
        (map bare_item items.now) r.0.items) }
    ensures labels { IfOk result (λ r. r.1 ≡ None → AreLabelledAs items.now r.0.items) }
{
    let mut resolved = Vec::with_capacity(alloc, items.len())?;
    for (index, item) in items.iter().enumerate() {
        match read_item(alloc, scope, work, index, item)? {
            Err(fault) => return Ok((resolved, Some(fault))),
            Ok(one) => push_item(&mut resolved, one)?,
        }
    }
    Ok((resolved, None))
}

/// The items resolved, or the first fault, by item and then by index.
pub fn resolve_items(
    alloc: Global,
    scope: &mut Scope,
    items: &[Item],
) -> Result<Result<Vec<ResolvedItem>, ModelFault>, AllocError>
    ensures fault { (senses : List Sense) → HaveSenses scope.old.functions.items senses
        → IfOk result (λ r. MatchResult r
        (λ _. HasNoFault senses (reverse (map entry_of scope.old.entries.items)) 0
        (map bare_item items.now))
        (λ k. FirstFault senses (reverse (map entry_of scope.old.entries.items)) 0
        (map bare_item items.now) k)) }
    ensures whole { IfOk result (λ r. IfOk r (λ v. vec_len v ≡ length items.now)) }
    ensures items { let names = reverse (map entry_of scope.old.entries.items) in
        (senses : List Sense) → HaveSenses scope.old.functions.items senses → AreSoundSenses senses
        → AreKnown names
        → IfOk result (λ r. IfOk r (λ v. AreResolved senses (map usage_of scope.old.functions.items)
        names 0 (map bare_item items.now) v.items)) }
    ensures labels { IfOk result (λ r. IfOk r (λ v. AreLabelledAs items.now v.items)) }
{
    let mut work = Workspace::new(alloc);
    let (resolved, fault) = find_items(alloc, scope, &mut work, items)?;
    match fault {
        None => Ok(Ok(resolved)),
        Some(fault) => Ok(Err(fault)),
    }
}

fn push_item(items: &mut Vec<ResolvedItem>, item: ResolvedItem) -> Result<(), AllocError>
    ensures count { OnOk result (vec_len items.new ≡ vec_len items.old + 1) }
    ensures items { OnOk result (items.new.items ≡ items.old.items ++ item ∷ []) }
{
    items.push(item)?;
    Ok(())
}

/// Reads an item and adds its names, or finds its first fault.
fn read_item(
    alloc: Global,
    scope: &mut Scope,
    work: &mut Workspace,
    index: usize,
    item: &Item,
) -> Result<Result<ResolvedItem, ModelFault>, AllocError>
    ensures fault { let names = reverse (map entry_of scope.old.entries.items) in
        (senses : List Sense) → HaveSenses scope.old.functions.items senses
        → IfOk result (λ r. fault_of r ≡ first_of_item senses names index (bare_item item.now)) }
    ensures names { let names = reverse (map entry_of scope.old.entries.items) in
        (senses : List Sense) → HaveSenses scope.old.functions.items senses
        → IfOk result (λ r. IfOk r (λ x. reverse (map entry_of scope.new.entries.items)
        ≡ names_after senses names index (bare_item item.now))) }
    ensures functions { let names = reverse (map entry_of scope.old.entries.items) in
        (senses : List Sense) → HaveSenses scope.old.functions.items senses
        → IfOk result (λ r. IfOk r (λ x. HaveSenses scope.new.functions.items
        (senses_after senses names (bare_item item.now)))) }
    ensures usages { let names = reverse (map entry_of scope.old.entries.items) in
        IfOk result (λ r. IfOk r (λ x. map usage_of scope.new.functions.items
        ≡ usages_after (map usage_of scope.old.functions.items) names index
        (bare_item item.now))) }
    ensures resolved { let us = map usage_of scope.old.functions.items in
        let names = reverse (map entry_of scope.old.entries.items) in
        (senses : List Sense) → HaveSenses scope.old.functions.items senses → AreSoundSenses senses
        → AreKnown names
        → IfOk result (λ r. IfOk r (λ x. IsResolvedIn senses us names
        (names_after senses names index (bare_item item.now)) (length names)
        (bare_item item.now) x)) }
    ensures label { IfOk result (λ r. IfOk r (λ x. IsLabelledAs item.now x)) }
{
    match item {
        Item::Let {
            recursive: true,
            group,
        } => read_recursive(alloc, scope, work, index, group),
        Item::Let {
            recursive: false,
            group,
        } => read_plain(alloc, scope, work, index, group),
        Item::Check { check, .. } => {
            read_check(
                alloc,
                &sight_of(scope, scope.entries.len()),
                check,
                None,
                work,
            )
        }
        Item::Flag { check, label } => {
            let flag = copied_label(alloc, label)?;
            read_check(
                alloc,
                &sight_of(scope, scope.entries.len()),
                check,
                flag,
                work,
            )
        }
        Item::Function {
            name,
            parameters,
            body,
        } => read_defined(alloc, scope, index, name, parameters, body),
        Item::Show { .. } => Ok(Ok(silent(alloc))),
        Item::Include(_) => Ok(Ok(silent(alloc))),
    }
}

/// What groups and checks see: the names of the item itself begin at that slot.
fn sight_of(scope: &Scope, from: usize) -> Sight<'_>
    ensures entries { result.entries.now ≡ scope.now.entries.items }
    ensures functions { result.functions.now ≡ scope.now.functions.items }
    ensures parameters { result.parameters.now ≡ [] }
    ensures from { result.from ≡ from }
{
    Sight {
        entries: &scope.entries,
        functions: &scope.functions,
        parameters: &[],
        from,
    }
}

/// Reads a group whose bodies see the names before it, and then adds its names.
fn read_plain(
    alloc: Global,
    scope: &mut Scope,
    work: &mut Workspace,
    index: usize,
    group: &[Binding],
) -> Result<Result<ResolvedItem, ModelFault>, AllocError>
    ensures fault { let names = reverse (map entry_of scope.old.entries.items) in
        (senses : List Sense) → HaveSenses scope.old.functions.items senses
        → IfOk result (λ r. fault_of r
        ≡ first_of_item senses names index (Group false (map bound_value_of group.now))) }
    ensures names { let names = reverse (map entry_of scope.old.entries.items) in
        (senses : List Sense) → HaveSenses scope.old.functions.items senses
        → IfOk result (λ r. IfOk r (λ x. reverse (map entry_of scope.new.entries.items)
        ≡ with_all senses names names index 0 (map bound_value_of group.now))) }
    ensures functions { OnOk result (scope.new.functions.items ≡ scope.old.functions.items) }
    ensures item { let us = map usage_of scope.old.functions.items in
        let names = reverse (map entry_of scope.old.entries.items) in
        (senses : List Sense) → HaveSenses scope.old.functions.items senses → AreSoundSenses senses
        → AreKnown names
        → IfOk result (λ r. IfOk r (λ x. IsResolvedIn senses us names
        (names_after senses names index (Group false (map bound_value_of group.now)))
        (length names) (Group false (map bound_value_of group.now)) x)) }
{
    let sight = sight_of(scope, scope.entries.len());
    work.uses.clear();
    match read_bodies(alloc, &sight, false, group, work)? {
        Err(fault) => Ok(Err(fault)),
        Ok(bodies) => {
            declare_all(alloc, &mut scope.entries, index, &bodies)?;
            Ok(Ok(group_item(alloc, false, bodies, &work.uses)?))
        }
    }
}

/// Adds the names of a recursive group, and then reads it.
fn read_recursive(
    alloc: Global,
    scope: &mut Scope,
    work: &mut Workspace,
    index: usize,
    group: &[Binding],
) -> Result<Result<ResolvedItem, ModelFault>, AllocError>
    ensures fault { let names = reverse (map entry_of scope.old.entries.items) in
        (senses : List Sense) → HaveSenses scope.old.functions.items senses
        → IfOk result (λ r. fault_of r
        ≡ first_of_item senses names index (Group true (map bound_value_of group.now))) }
    ensures names { let names = reverse (map entry_of scope.old.entries.items) in
        OnOk result (reverse (map entry_of scope.new.entries.items)
        ≡ with_own names index 0 (map bound_value_of group.now)) }
    ensures functions { OnOk result (scope.new.functions.items ≡ scope.old.functions.items) }
    ensures item { let us = map usage_of scope.old.functions.items in
        let names = reverse (map entry_of scope.old.entries.items) in
        (senses : List Sense) → HaveSenses scope.old.functions.items senses → AreSoundSenses senses
        → AreKnown names
        → IfOk result (λ r. IfOk r (λ x. IsResolvedIn senses us names
        (names_after senses names index (Group true (map bound_value_of group.now)))
        (length names) (Group true (map bound_value_of group.now)) x)) }
{
    let from = scope.entries.len();
    declare_own(alloc, &mut scope.entries, index, group)?;
    let sight = sight_of(scope, from);
    work.uses.clear();
    match read_bodies(alloc, &sight, true, group, work)? {
        Err(fault) => Ok(Err(fault)),
        Ok(bodies) => Ok(Ok(group_item(alloc, true, bodies, &work.uses)?)),
    }
}

/// Adds a function, and answers what it uses, or finds its first fault.
fn read_defined(
    alloc: Global,
    scope: &mut Scope,
    index: usize,
    name: &Name,
    parameters: &[Name],
    body: &Expression,
) -> Result<Result<ResolvedItem, ModelFault>, AllocError>
    ensures fault { let names = reverse (map entry_of scope.old.entries.items) in
        (senses : List Sense) → HaveSenses scope.old.functions.items senses
        → IfOk result (λ r. fault_of r
        ≡ first_of_item senses names index
        (Defined name.now parameters.now (term_of body.now))) }
    ensures names { let names = reverse (map entry_of scope.old.entries.items) in
        (senses : List Sense) → HaveSenses scope.old.functions.items senses
        → IfOk result (λ r. IfOk r (λ x. reverse (map entry_of scope.new.entries.items)
        ≡ names_after senses names index
        (Defined name.now parameters.now (term_of body.now)))) }
    ensures functions { let names = reverse (map entry_of scope.old.entries.items) in
        (senses : List Sense) → HaveSenses scope.old.functions.items senses
        → IfOk result (λ r. IfOk r (λ x. HaveSenses scope.new.functions.items (senses_after senses
        names (Defined name.now parameters.now (term_of body.now))))) }
    ensures usages { let names = reverse (map entry_of scope.old.entries.items) in
        IfOk result (λ r. IfOk r (λ x. map usage_of scope.new.functions.items
        ≡ usages_after (map usage_of scope.old.functions.items) names index
        (Defined name.now parameters.now (term_of body.now)))) }
    ensures resolved { let us = map usage_of scope.old.functions.items in
        let names = reverse (map entry_of scope.old.entries.items) in
        (senses : List Sense)
        → IfOk result (λ r. IfOk r (λ x. IsResolvedIn senses us names
        (names_after senses names index
        (Defined name.now parameters.now (term_of body.now)))
        (length names)
        (Defined name.now parameters.now (term_of body.now)) x)) }
{
    match declare_function(alloc, scope, index, name, parameters, body)? {
        Some(fault) => Ok(Err(fault)),
        None => Ok(Ok(lower_function(alloc, scope)?)),
    }
}

/// What the latest function uses.
fn lower_function(alloc: Global, scope: &Scope) -> Result<ResolvedItem, AllocError>
    ensures role { IfOk result (λ r. r.role ≡ Role.Silent) }
    ensures inputs { (us : List Usage) (u : Usage)
        → map usage_of scope.now.functions.items ≡ us ++ u ∷ []
        → IfOk result (λ r. r.inputs.items ≡ map (λ v. v.input) u.values) }
    ensures functions { (us : List Usage) (u : Usage)
        → map usage_of scope.now.functions.items ≡ us ++ u ∷ []
        → IfOk result (λ r. r.functions.items ≡ u.functions) }
{
    match scope.functions.last() {
        None => Ok(silent(alloc)),
        Some(function) => {
            let (inputs, functions) = copied_lists(alloc, &function.values, &function.functions)?;
            Ok(ResolvedItem {
                role: Role::Silent,
                inputs,
                functions,
            })
        }
    }
}

fn silent(alloc: Global) -> ResolvedItem
    ensures role { result.role ≡ Role.Silent }
    ensures inputs { result.inputs.items ≡ [] }
    ensures functions { result.functions.items ≡ [] }
{
    ResolvedItem {
        role: Role::Silent,
        inputs: Vec::new(alloc),
        functions: Vec::new(alloc),
    }
}

fn copied_label(alloc: Global, label: &Name) -> Result<Option<Name>, AllocError>
    ensures { IfOk result (λ o. o ≡ Some label.now) }
{
    Ok(Some(label.copied(alloc)?))
}
