//! The faults of a model.

ghost use Rattle.std.specs.Prelude.{◌≡◌, ◌∷◌, false, if◌then◌else◌, IfOk, OnOk};
ghost use Rattle.text_values.specs.ModelValues.{clauses_of};
ghost use Rattle.predefined_names.specs.PredefinedNames.{spelling, is_set};
ghost use Rattle.meaning.specs.Faults as definition;
ghost use Rattle.plain_faults.specs.Found.{kind_as, faults_as, Adds, AreNames, IsSameKnown, with_predefined};

use crate::fault::Fault;
use crate::finding::KnownName;
use crate::item::{add_item_faults, put_bound};
use crate::kind::Kind;
use crate::scope::{Known, Named};
use std::alloc::{AllocError, Global};
use text_values::{Item, PREDEFINED, Predefined};

fn kind_where(is_set: bool) -> Kind
    ensures { kind_as result ≡ (if is_set then definition.OfSet else definition.OfRelation) }
{
    if is_set { Kind::Set } else { Kind::Relation }
}

fn predefined_value(name: Predefined) -> KnownName
    ensures { IsSameKnown result (definition.value_with
        (if is_set name then definition.OfSet else definition.OfRelation) 1 false) }
{
    KnownName {
        kind: kind_where(name.is_set()),
        size: 1,
        recursive: false,
    }
}

// Puts a predefined name before the names.
fn put_one<'a>(names: &mut Vec<Named<'a>>, name: Predefined) -> Result<(), AllocError>
    ensures { OnOk result ((S : definition.Scope) → AreNames names.old.items S
        → AreNames names.new.items ((spelling name, definition.predefined_known name) ∷ S)) }
{
    let value = predefined_value(name);
    let named = Named {
        name: name.spelling(),
        known: Known::Value(value),
    };
    names.insert(0, named)?;
    Ok(())
}

// Puts predefined names before the names.
fn put_predefined<'a>(names: &mut Vec<Named<'a>>, all: &[Predefined]) -> Result<(), AllocError>
    ensures { OnOk result ((S : definition.Scope) → AreNames names.old.items S
        → AreNames names.new.items (with_predefined all.now S)) }
{
    match all.split_first() {
        Some((first, rest)) => {
            put_one(names, *first)?;
            put_predefined(names, rest)
        }
        None => Ok(()),
    }
}

fn predefined_names<'a>(alloc: Global) -> Result<Vec<Named<'a>>, AllocError>
    ensures { IfOk result (λ v. AreNames v.items definition.outermost_scope) }
{
    let mut names = Vec::new(alloc);
    put_predefined(&mut names, &PREDEFINED)?;
    Ok(names)
}

// Puts the faults of items behind others. The names are those that the first item sees.
fn add_faults<'a>(
    alloc: Global,
    names: &mut Vec<Named<'a>>,
    items: &'a [Item],
    faults: &mut Vec<Fault>,
) -> Result<(), AllocError>
    ensures { OnOk result ((S : definition.Scope) → AreNames names.old.items S
        → Adds (definition.faults_from S (clauses_of items.entry.now))
        faults.old.items faults.new.items) }
{
    match items.split_first() {
        Some((first, rest)) => {
            add_item_faults(alloc, names, first, faults)?;
            put_bound(alloc, names, first)?;
            add_faults(alloc, names, rest, faults)
        }
        None => Ok(()),
    }
}

/// The faults of a model, in the order of its text. The first of them refuses the model. Errors:
/// want of memory.
pub fn faults(alloc: Global, items: &[Item]) -> Result<Vec<Fault>, AllocError>
    ensures { IfOk result
        (λ v. faults_as v.items ≡ definition.faults (clauses_of items.now)) }
{
    let mut names = predefined_names(alloc)?;
    let mut faults = Vec::new(alloc);
    add_faults(alloc, &mut names, items, &mut faults)?;
    Ok(faults)
}
