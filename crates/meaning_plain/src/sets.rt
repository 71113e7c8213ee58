//! The operators of cat on sets, which are lists of events.

ghost use Rattle.std.specs.Prelude.{◌≡◌, ◌↔◌, ◌⊎◌, IfOk, OnOk, IsTrue, Contains};
ghost use Rattle.meaning_plain.specs.Lists.{SetOf, HasMembers, Grows, Given};

use std::alloc::{AllocError, Global};

/// Whether the set has the event.
pub fn has_member(set: &[usize], event: usize) -> bool
    ensures { IsTrue result ↔ Contains set.now event }
{
    set.contains(&event)
}

/// Adds an event, unless it is there. Errors: want of memory.
pub fn add_member(set: &mut Vec<usize>, event: usize) -> Result<(), AllocError>
    ensures { OnOk result (Grows (λ e. e ≡ event) set.old.items set.new.items) }
{
    if has_member(set, event) {
        return Ok(());
    }
    set.push(event)?;
    Ok(())
}

// Adds an event that the other set has too.
fn add_common(set: &mut Vec<usize>, event: usize, others: &[usize]) -> Result<(), AllocError>
    ensures { OnOk result (Grows (λ e. (e ≡ event) × Contains others.now event) set.old.items
        set.new.items) }
{
    if !has_member(others, event) {
        return Ok(());
    }
    add_member(set, event)?;
    Ok(())
}

// Adds an event that the other set lacks.
fn add_other(set: &mut Vec<usize>, event: usize, others: &[usize]) -> Result<(), AllocError>
    ensures { OnOk result (Grows (λ e. (e ≡ event) × (Contains others.now event → ⊥))
        set.old.items set.new.items) }
{
    if has_member(others, event) {
        return Ok(());
    }
    add_member(set, event)?;
    Ok(())
}

fn add_members(set: &mut Vec<usize>, more: &[usize]) -> Result<(), AllocError>
    ensures { OnOk result (Grows (Given (λ x e. e ≡ x) more.now) set.old.items set.new.items) }
{
    for event in more {
        add_member(set, *event)?;
    }
    Ok(())
}

fn add_all_common(set: &mut Vec<usize>, more: &[usize], others: &[usize]) -> Result<(), AllocError>
    ensures { OnOk result (Grows (Given (λ x e. (e ≡ x) × Contains others.now x) more.now)
        set.old.items set.new.items) }
{
    for event in more {
        add_common(set, *event, others)?;
    }
    Ok(())
}

fn add_all_other(set: &mut Vec<usize>, more: &[usize], others: &[usize]) -> Result<(), AllocError>
    ensures { OnOk result (Grows (Given (λ x e. (e ≡ x) × (Contains others.now x → ⊥)) more.now)
        set.old.items set.new.items) }
{
    for event in more {
        add_other(set, *event, others)?;
    }
    Ok(())
}

/// `s | t`. Errors: want of memory, as in all that follows.
pub fn union(alloc: Global, first: &[usize], second: &[usize]) -> Result<Vec<usize>, AllocError>
    ensures { IfOk result (λ v. HasMembers (λ a. SetOf first.now a ⊎ SetOf second.now a)
        v.items) }
{
    let mut set = Vec::new(alloc);
    add_members(&mut set, first)?;
    add_members(&mut set, second)?;
    Ok(set)
}

/// `s & t`.
pub fn intersection(
    alloc: Global,
    first: &[usize],
    second: &[usize],
) -> Result<Vec<usize>, AllocError>
    ensures { IfOk result (λ v. HasMembers (λ a. SetOf first.now a × SetOf second.now a)
        v.items) }
{
    let mut set = Vec::new(alloc);
    add_all_common(&mut set, first, second)?;
    Ok(set)
}

/// `s \ t`, and the complement of t where s is the set of all events.
pub fn difference(
    alloc: Global,
    first: &[usize],
    second: &[usize],
) -> Result<Vec<usize>, AllocError>
    ensures { IfOk result (λ v. HasMembers (λ a. SetOf first.now a × (SetOf second.now a → ⊥))
        v.items) }
{
    let mut set = Vec::new(alloc);
    add_all_other(&mut set, first, second)?;
    Ok(set)
}
