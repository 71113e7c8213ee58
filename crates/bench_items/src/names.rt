//! The names of items, and the numbers that they go by.

ghost use Rattle.std.specs.Prelude.{◌≡◌, ◌↔◌, ◌≤◌, ◌∷◌, [], IfOk, IsTrue, length, map};
ghost use Rattle.std.specs.List.{AllByRecursion as Each};
ghost use Rattle.std.specs.Arc.{arc_value};
ghost use Rattle.binding_graph.specs.Contents.{role_content};
ghost use Rattle.bench_items.specs.Naming.{seen_names_in, body_names, number_in_history, numbers_of, IsInHistory, IsNumberedAlike};
ghost use Rattle.bench_items.specs.Naming.{with_new_name, with_names, with_role_names, item_outputs};

use binding_graph::{Body, Role};
use std::alloc::{AllocError, Global};
use std::sync::Arc;
use text_copies::copied_names;
use text_values::Name;

/// The number of a name: its index in a history, or how many names that has where it is none of
/// them.
pub fn number_in_history(history: &[Name], name: &[u8]) -> usize
    ensures number { result ≡ number_in_history history.now name.now }
    ensures within { result ≤ length history.now }
{
    for index in 0..history.len() {
        if history[index].as_bytes() == name {
            return index;
        }
    }
    history.len()
}

// The number of the name of a body.
fn body_number(history: &[Name], body: &Body) -> usize
    ensures number { result ≡ number_in_history history.now body.now.name }
    ensures within { result ≤ length history.now }
{
    number_in_history(history, body.name.as_bytes())
}

// The bodies of a group.
fn bodies_in(role: &Role) -> &[Body]
    ensures { body_names result.now ≡ seen_names_in (role_content role.now) }
{
    match role {
        Role::Group { bodies, .. } => bodies,
        Role::Check(_) => &[],
        Role::Silent => &[],
    }
}

// Whether the names of these bodies are in a history.
fn are_named(history: &[Name], bodies: &[Body]) -> bool
    ensures { IsTrue result ↔ Each (IsInHistory history.now) (body_names bodies.now) }
{
    for body in bodies {
        if body_number(history, body) >= history.len() {
            return false;
        }
    }
    true
}

// Adds the name of a body to a history, where it is none of its names yet.
fn put_name(alloc: Global, history: &mut Vec<Name>, body: &Body) -> Result<(), AllocError>
    ensures { IfOk result (λ _. history.new.items
        ≡ with_new_name history.old.items body.now.name) }
{
    if body_number(history, body) == history.len() {
        history.push(body.name.copied(alloc)?)?;
    }
    Ok(())
}

fn put_names(alloc: Global, history: &mut Vec<Name>, bodies: &[Body]) -> Result<(), AllocError>
    ensures { IfOk result (λ _. history.new.items
        ≡ with_names history.old.items (body_names bodies.now)) }
{
    for body in bodies {
        put_name(alloc, history, body)?;
    }
    Ok(())
}

// A history with the names of these bodies that are not in it yet.
fn more_names(
    alloc: Global,
    history: &[Name],
    bodies: &[Body],
) -> Result<Arc<Vec<Name>>, AllocError>
    ensures { IfOk result (λ h. (arc_value h).items
        ≡ with_names history.now (body_names bodies.now)) }
{
    let mut names = copied_names(alloc, history)?;
    put_names(alloc, &mut names, bodies)?;
    Ok(Arc::new(alloc, names)?)
}

/// The history of an item that does this, of which nothing was known before. Errors: out of memory.
pub(crate) fn first_history(alloc: Global, role: &Role) -> Result<Arc<Vec<Name>>, AllocError>
    ensures { IfOk result (λ h. (arc_value h).items ≡ with_role_names [] (role_content role.now)) }
{
    more_names(alloc, &[], bodies_in(role))
}

/// The history of an item after it does this. It is the same, and takes no memory, where it has the
/// names. Errors: out of memory, or too many shares.
#[tactic(auto, using(crate::proofs::Naming::names_stay))]
pub(crate) fn grown_history(
    alloc: Global,
    history: &Arc<Vec<Name>>,
    role: &Role,
) -> Result<Arc<Vec<Name>>, AllocError>
    ensures { IfOk result (λ h. (arc_value h).items
        ≡ with_role_names (arc_value history.now).items (role_content role.now)) }
{
    let bodies = bodies_in(role);
    if are_named(history, bodies) {
        Arc::try_clone(history)
    } else {
        more_names(alloc, history, bodies)
    }
}

fn numbers_of(alloc: Global, history: &[Name], bodies: &[Body]) -> Result<Vec<u64>, AllocError>
    ensures { IfOk result (λ v. v.items
        ≡ map (number_in_history history.now) (body_names bodies.now)) }
{
    let mut numbers = Vec::with_capacity(alloc, bodies.len())?;
    for body in bodies {
        let number = body_number(history, body);
        numbers.push(number as u64)?;
    }
    Ok(numbers)
}

/// The number 0 alone. Errors: out of memory.
pub fn only_zero(alloc: Global) -> Result<Vec<u64>, AllocError>
    ensures { IfOk result (λ v. v.items ≡ 0 ∷ []) }
{
    let mut numbers = Vec::with_capacity(alloc, 1)?;
    numbers.push(0)?;
    Ok(numbers)
}

/// The numbers by which the outputs of an item go that does this. Errors: out of memory.
pub(crate) fn item_outputs(
    alloc: Global,
    role: &Role,
    history: &[Name],
) -> Result<Vec<u64>, AllocError>
    ensures { IfOk result (λ v. v.items ≡ item_outputs (role_content role.now) history.now) }
{
    match role {
        Role::Group { bodies, .. } => numbers_of(alloc, history, bodies),
        Role::Check(_) => only_zero(alloc),
        Role::Silent => Ok(Vec::new(alloc)),
    }
}

// Whether the names of these bodies have the same numbers in two histories.
fn are_numbered_alike(these: &[Name], those: &[Name], bodies: &[Body]) -> bool
    ensures { IsTrue result ↔ Each (IsNumberedAlike these.now those.now) (body_names bodies.now) }
{
    for body in bodies {
        if body_number(these, body) != body_number(those, body) {
            return false;
        }
    }
    true
}

/// Whether the outputs of an item that does this go by the same numbers with two histories.
#[tactic(auto, using(crate::proofs::Naming::numbers_alike, crate::proofs::Naming::alike_numbers))]
pub fn same_outputs(role: &Role, these: &[Name], those: &[Name]) -> bool
    ensures { IsTrue result
        ↔ (item_outputs (role_content role.now) these.now
        ≡ item_outputs (role_content role.now) those.now) }
{
    match role {
        Role::Group { bodies, .. } => are_numbered_alike(these, those, bodies),
        Role::Check(_) => true,
        Role::Silent => true,
    }
}
