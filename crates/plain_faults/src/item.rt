//! The faults of an item, and the names that are seen after it.

ghost use Rattle.std.specs.Prelude.{◌≡◌, ◌++◌, ◌∷◌, [], true, false, bytes_eq, length, map, filter, OnOk};
ghost use Rattle.text_values.specs.ModelValues.{term_of, check_of, clause_of, binding_of};
ghost use Rattle.text_values.specs.ModelValue as value;
ghost use Rattle.meaning.specs.Faults as definition;
ghost use Rattle.plain_faults.specs.Found.{Adds, AreNames, spellings_of};

use crate::expression::{in_body, in_term};
use crate::fault::{Fault, add_all, add_body_faults, add_if};
use crate::finding::KnownName;
use crate::kind::{Kind, either, is_relation, takes_body};
use crate::scope::{Known, Named, put_name};
use std::alloc::{AllocError, Global};
use text_values::{Binding, Check, Expression, Item, Name};

fn is_same(first: &[u8], second: &[u8]) -> bool
    ensures { result ≡ bytes_eq first.now second.now }
{
    first == second
}

// Whether the name is one of these.
fn is_among(names: &[&[u8]], name: &[u8]) -> bool
    ensures { result ≡ definition.is_among (spellings_of names.now) name.now }
{
    match names.split_first() {
        Some((first, rest)) => either(is_same(first, name), is_among(rest, name)),
        None => false,
    }
}

// Puts the faults of parameters behind others. Errors: want of memory, as in all that follows.
fn add_parameter_faults<'a>(
    earlier: &mut Vec<&'a [u8]>,
    parameters: &'a [Name],
    faults: &mut Vec<Fault>,
) -> Result<(), AllocError>
    ensures { OnOk result (Adds
        (definition.faults_of_parameters (spellings_of earlier.old.items) parameters.entry.now)
        faults.old.items faults.new.items) }
{
    match parameters.split_first() {
        Some((first, rest)) => {
            add_if(
                faults,
                is_among(earlier, first.as_bytes()),
                Fault::Duplicate,
            )?;
            add_if(faults, earlier.len() >= 8, Fault::TooLarge)?;
            earlier.insert(0, first.as_bytes())?;
            add_parameter_faults(earlier, rest, faults)
        }
        None => Ok(()),
    }
}

// Puts the faults of the bindings of a group behind others.
fn add_group_faults<'a>(
    alloc: Global,
    names: &[Named<'a>],
    recursive: bool,
    earlier: &mut Vec<&'a [u8]>,
    group: &'a [Binding],
    faults: &mut Vec<Fault>,
) -> Result<(), AllocError>
    ensures { OnOk result ((S : definition.Scope) → AreNames names.now S
        → Adds (definition.faults_of_group S recursive (spellings_of earlier.old.items)
        (map binding_of group.entry.now)) faults.old.items faults.new.items) }
{
    match group.split_first() {
        Some((first, rest)) => {
            let body = in_term(alloc, false, names, false, &first.body)?;
            add_if(
                faults,
                is_among(earlier, first.name.as_bytes()),
                Fault::Duplicate,
            )?;
            add_if(
                faults,
                recursive && !is_relation(body.kind),
                Fault::SetInRec,
            )?;
            add_all(faults, &body.faults)?;
            earlier.insert(0, first.name.as_bytes())?;
            add_group_faults(alloc, names, recursive, earlier, rest, faults)
        }
        None => Ok(()),
    }
}

// Puts the names of a recursive group before the names, as they are seen in the group or behind it.
fn put_group<'a>(
    names: &mut Vec<Named<'a>>,
    inside: bool,
    group: &'a [Binding],
) -> Result<(), AllocError>
    ensures { OnOk result ((S : definition.Scope) → AreNames names.old.items S
        → AreNames names.new.items
        (definition.with_group inside (map binding_of group.entry.now) S)) }
{
    match group.split_first() {
        Some((first, rest)) => {
            let value = KnownName {
                kind: Kind::Relation,
                size: 1,
                recursive: inside,
            };
            put_name(names, &first.name, value)?;
            put_group(names, inside, rest)
        }
        None => Ok(()),
    }
}

// Puts the names of another group before the names. Its bodies see the outer names.
fn put_bodies<'a>(
    alloc: Global,
    outer: &[Named<'a>],
    names: &mut Vec<Named<'a>>,
    group: &'a [Binding],
) -> Result<(), AllocError>
    ensures { OnOk result ((O S : definition.Scope) → AreNames outer.now O
        → AreNames names.old.items S → AreNames names.new.items
        (definition.scope_with_bodies O (map binding_of group.entry.now) S)) }
{
    match group.split_first() {
        Some((first, rest)) => {
            let body = in_term(alloc, false, outer, false, &first.body)?;
            let value = KnownName {
                kind: body.kind,
                size: 1,
                recursive: false,
            };
            put_name(names, &first.name, value)?;
            put_bodies(alloc, outer, names, rest)
        }
        None => Ok(()),
    }
}

fn put_function<'a>(
    names: &mut Vec<Named<'a>>,
    name: &'a Name,
    parameters: &'a [Name],
    body: &'a Expression,
) -> Result<(), AllocError>
    ensures { OnOk result ((S : definition.Scope) → AreNames names.old.items S
        → AreNames names.new.items ((
          name.entry.now,
          definition.AsFunction
              (length parameters.entry.now)
              (definition.in_body S parameters.entry.now (term_of body.entry.now)),
        ) ∷ S)) }
{
    let named = Named {
        name: name.as_bytes(),
        known: Known::Function(parameters, body),
    };
    names.insert(0, named)?;
    Ok(())
}

/// Puts the names that the item binds before those that it sees. Errors: want of memory, as in all
/// that follows.
pub fn put_bound<'a>(
    alloc: Global,
    names: &mut Vec<Named<'a>>,
    item: &'a Item,
) -> Result<(), AllocError>
    ensures { OnOk result ((S : definition.Scope) → AreNames names.old.items S
        → AreNames names.new.items (definition.known_after S (clause_of item.entry.now))) }
{
    match item {
        Item::Let {
            recursive: true,
            group,
        } => put_group(names, false, group),
        Item::Let {
            recursive: false,
            group,
        } => {
            let outer = Vec::from_slice(alloc, names)?;
            put_bodies(alloc, &outer, names, group)
        }
        Item::Function {
            name,
            parameters,
            body,
        } => put_function(names, name, parameters, body),
        Item::Check { .. } => Ok(()),
        Item::Flag { .. } => Ok(()),
        Item::Show { .. } => Ok(()),
        Item::Include(_) => Ok(()),
    }
}

fn add_check_faults<'a>(
    alloc: Global,
    names: &[Named<'a>],
    check: &Check,
    faults: &mut Vec<Fault>,
) -> Result<(), AllocError>
    ensures { OnOk result ((S : definition.Scope) → AreNames names.now S
        → Adds (definition.faults_of_check S (check_of check.now))
        faults.old.items faults.new.items) }
{
    let body = in_term(alloc, false, names, false, &check.body)?;
    add_if(faults, !takes_body(check.word, body.kind), Fault::Kind)?;
    add_all(faults, &body.faults)?;
    Ok(())
}

fn add_recursive_faults<'a>(
    alloc: Global,
    names: &[Named<'a>],
    group: &'a [Binding],
    faults: &mut Vec<Fault>,
) -> Result<(), AllocError>
    ensures { OnOk result ((S : definition.Scope) → AreNames names.now S
        → Adds (definition.faults_of_item S
        (value.Binding true (map binding_of group.entry.now))) faults.old.items faults.new.items) }
{
    let mut inner = Vec::from_slice(alloc, names)?;
    put_group(&mut inner, true, group)?;
    let mut earlier = Vec::new(alloc);
    add_group_faults(alloc, &inner, true, &mut earlier, group, faults)
}

fn add_plain_faults<'a>(
    alloc: Global,
    names: &[Named<'a>],
    group: &'a [Binding],
    faults: &mut Vec<Fault>,
) -> Result<(), AllocError>
    ensures { OnOk result ((S : definition.Scope) → AreNames names.now S
        → Adds (definition.faults_of_item S
        (value.Binding false (map binding_of group.entry.now))) faults.old.items faults.new.items) }
{
    let mut earlier = Vec::new(alloc);
    add_group_faults(alloc, names, false, &mut earlier, group, faults)
}

fn add_function_faults<'a>(
    alloc: Global,
    names: &[Named<'a>],
    parameters: &'a [Name],
    body: &'a Expression,
    faults: &mut Vec<Fault>,
) -> Result<(), AllocError>
    ensures { OnOk result ((S : definition.Scope) → AreNames names.now S
        → Adds (definition.faults_of_parameters [] parameters.entry.now
        ++ filter definition.is_body_fault
        (definition.in_body S parameters.entry.now (term_of body.entry.now) []).faults)
        faults.old.items faults.new.items) }
{
    let mut earlier = Vec::new(alloc);
    add_parameter_faults(&mut earlier, parameters, faults)?;
    let found = in_body(alloc, names, parameters, body, &[])?;
    add_body_faults(faults, &found.faults)
}

/// Puts the faults of an item behind others.
pub fn add_item_faults<'a>(
    alloc: Global,
    names: &[Named<'a>],
    item: &'a Item,
    faults: &mut Vec<Fault>,
) -> Result<(), AllocError>
    ensures { OnOk result ((S : definition.Scope) → AreNames names.now S
        → Adds (definition.faults_of_item S (clause_of item.entry.now))
        faults.old.items faults.new.items) }
{
    match item {
        Item::Let {
            recursive: true,
            group,
        } => add_recursive_faults(alloc, names, group, faults),
        Item::Let {
            recursive: false,
            group,
        } => add_plain_faults(alloc, names, group, faults),
        Item::Function {
            name: _,
            parameters,
            body,
        } => add_function_faults(alloc, names, parameters, body, faults),
        Item::Check { check, label: _ } => add_check_faults(alloc, names, check, faults),
        Item::Flag { check, label: _ } => add_check_faults(alloc, names, check, faults),
        Item::Show { .. } => Ok(()),
        Item::Include(_) => Ok(()),
    }
}
