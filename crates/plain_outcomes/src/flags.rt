//! The flags that kept executions raise.

ghost use Rattle.std.specs.Prelude.{◌≡◌, ◌↔◌, ◌∷◌, ◌++◌, [], not, bytes_eq, filter, Contains, IfOk, IsTrue, OnOk};
ghost use Rattle.text_values.specs.ModelValues.{clause_of, clauses_of};
ghost use Rattle.meaning.specs.Outcome as outcome;
ghost use Rattle.meaning.specs.Outcome.{AreFlags, AreRaised};
ghost use Rattle.plain_runs.specs.Locations.{names_as};
ghost use Rattle.plain_outcomes.specs.Kept.{AddsRaised};

use std::alloc::{AllocError, Global};
use text_values::Item;

fn has(raised: &[usize], index: usize) -> bool
    ensures { IsTrue result ↔ Contains raised.now index }
{
    for other in raised {
        if *other == index {
            return true;
        }
    }
    false
}

// Puts the name of a flag behind others, if it is raised. Errors: want of memory, as in all that
// follows.
fn put_raised<'a>(
    names: &mut Vec<&'a [u8]>,
    item: &'a Item,
    index: usize,
    raised: &[usize],
) -> Result<(), AllocError>
    ensures { OnOk result (AddsRaised (λ i. Contains raised.now i) index
        (clause_of item.entry.now) (names_as names.old.items) (names_as names.new.items)) }
{
    let Item::Flag { check: _, label } = item else {
        return Ok(());
    };
    if !has(raised, index) {
        return Ok(());
    }
    names.push(label.as_bytes())?;
    Ok(())
}

// The names of the flags that are raised, in the order of the items.
fn raised_names<'a>(
    alloc: Global,
    items: &'a [Item],
    raised: &[usize],
) -> Result<Vec<&'a [u8]>, AllocError>
    ensures { IfOk result (λ v. AreRaised (λ i. Contains raised.now i) 0
        (clauses_of items.entry.now) (names_as v.items)) }
{
    let mut names = Vec::new(alloc);
    for (index, item) in items.iter().enumerate() {
        put_raised(&mut names, item, index, raised)?;
    }
    Ok(names)
}

// Puts a name behind others, unless it is the first.
fn put_other<'a>(names: &mut Vec<&'a [u8]>, first: &[u8], other: &'a [u8]) -> Result<(), AllocError>
    ensures { OnOk result (names_as names.new.items ≡ names_as names.old.items
        ++ filter (λ m. not (bytes_eq first.now m)) (other.entry.now ∷ [])) }
{
    if first == other {
        return Ok(());
    }
    names.push(other)?;
    Ok(())
}

// The name, and those of the others that are not this one.
fn with_first<'a>(
    alloc: Global,
    name: &'a [u8],
    others: &[&'a [u8]],
) -> Result<Vec<&'a [u8]>, AllocError>
    ensures { IfOk result (λ v. names_as v.items
        ≡ name.entry.now ∷ filter (λ m. not (bytes_eq name.entry.now m)) (names_as others.now)) }
{
    let mut names = Vec::new(alloc);
    names.push(name)?;
    for other in others {
        put_other(&mut names, name, *other)?;
    }
    Ok(names)
}

// The names, each once, where it stands first.
fn each_once<'a>(alloc: Global, names: &[&'a [u8]]) -> Result<Vec<&'a [u8]>, AllocError>
    ensures { IfOk result (λ v. names_as v.items ≡ outcome.each_once (names_as names.now)) }
{
    match names.split_first() {
        Some((name, rest)) => {
            let later = each_once(alloc, rest)?;
            let once = with_first(alloc, *name, &later)?;
            Ok(once)
        }
        None => Ok(Vec::new(alloc)),
    }
}

/// The names of the flags that are raised, each once.
pub fn flags_of<'a>(
    alloc: Global,
    items: &'a [Item],
    raised: &[usize],
) -> Result<Vec<&'a [u8]>, AllocError>
    ensures { IfOk result (λ v. AreFlags (λ i. Contains raised.now i)
        (clauses_of items.entry.now) (names_as v.items)) }
{
    let names = raised_names(alloc, items, raised)?;
    let flags = each_once(alloc, &names)?;
    Ok(flags)
}
