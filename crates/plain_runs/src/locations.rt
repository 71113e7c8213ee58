//! The locations of a test, in their order.

ghost use Rattle.std.specs.Prelude.{◌≡◌, ◌≤◌, length, bytes_eq, flat_map, IfOk, IfSome, OnOk};
ghost use Rattle.text_values.specs.TestValue.{content_of, formula_of};
ghost use Rattle.meaning.specs.Names as names;
ghost use Rattle.meaning.specs.Names.{is_name_before, with_one, locations_of_entry, locations_of_formula, locations_of_observable, locations_of_value};
ghost use Rattle.plain_runs.specs.Locations.{names_as, with_all, IsPosition};

use std::alloc::{AllocError, Global};
use std::cmp::Ordering;
use text_values::{InitEntry, Place, Proposition, Test, Value};

/// Whether a name comes before another: by their bytes.
pub fn is_before(name: &[u8], other: &[u8]) -> bool
    ensures { result ≡ is_name_before name.now other.now }
{
    match name.cmp(other) {
        Ordering::Less => true,
        Ordering::Equal => false,
        Ordering::Greater => false,
    }
}

// Where a name is to be put among names in order; nowhere if it is there.
fn position(names: &[&[u8]], name: &[u8]) -> Option<usize>
    ensures bound { IfSome result (λ k. k ≤ length names.now) }
    ensures position { IsPosition name.now (names_as names.now) result }
{
    for (index, other) in names.iter().enumerate() {
        if name == *other {
            return None;
        }
        if is_before(name, other) {
            return Some(index);
        }
    }
    Some(names.len())
}

/// Puts a name among names in order, unless it is there. Errors: want of memory, as in all that
/// follows.
pub fn put_name<'a>(names: &mut Vec<&'a [u8]>, name: &'a [u8]) -> Result<(), AllocError>
    ensures { OnOk result (names_as names.new.items
        ≡ with_one bytes_eq is_name_before name.entry.now (names_as names.old.items)) }
{
    match position(names, name) {
        Some(index) => {
            names.insert(index, name)?;
            Ok(())
        }
        None => Ok(()),
    }
}

// Puts the location that an observable is, if it is one.
fn put_place<'a>(names: &mut Vec<&'a [u8]>, place: &'a Place) -> Result<(), AllocError>
    ensures { OnOk result (names_as names.new.items
        ≡ with_all (locations_of_observable place.entry.now) (names_as names.old.items)) }
{
    match place {
        Place::Location(name) => put_name(names, name.as_bytes()),
        Place::Register(_, _) => Ok(()),
    }
}

// Puts the location whose address a value is, if it is one.
fn put_value<'a>(names: &mut Vec<&'a [u8]>, value: &'a Value) -> Result<(), AllocError>
    ensures { OnOk result (names_as names.new.items
        ≡ with_all (locations_of_value value.entry.now) (names_as names.old.items)) }
{
    match value {
        Value::Address(name) => put_name(names, name.as_bytes()),
        Value::Number(_) => Ok(()),
    }
}

// Puts the locations that an entry names.
fn put_entry<'a>(names: &mut Vec<&'a [u8]>, entry: &'a InitEntry) -> Result<(), AllocError>
    ensures { OnOk result (names_as names.new.items
        ≡ with_all (locations_of_entry entry.entry.now) (names_as names.old.items)) }
{
    put_value(names, &entry.value)?;
    put_place(names, &entry.place)?;
    Ok(())
}

fn put_entries<'a>(names: &mut Vec<&'a [u8]>, entries: &'a [InitEntry]) -> Result<(), AllocError>
    ensures { OnOk result (names_as names.new.items
        ≡ with_all (flat_map locations_of_entry entries.entry.now) (names_as names.old.items)) }
{
    match entries.split_first() {
        Some((entry, rest)) => {
            put_entries(names, rest)?;
            put_entry(names, entry)?;
            Ok(())
        }
        None => Ok(()),
    }
}

fn put_places<'a>(names: &mut Vec<&'a [u8]>, places: &'a [Place]) -> Result<(), AllocError>
    ensures { OnOk result (names_as names.new.items
        ≡ with_all (flat_map locations_of_observable places.entry.now) (names_as names.old.items)) }
{
    match places.split_first() {
        Some((place, rest)) => {
            put_places(names, rest)?;
            put_place(names, place)?;
            Ok(())
        }
        None => Ok(()),
    }
}

// Puts the locations that a proposition names.
fn put_proposition<'a>(
    names: &mut Vec<&'a [u8]>,
    proposition: &'a Proposition,
) -> Result<(), AllocError>
    ensures { OnOk result (names_as names.new.items
        ≡ with_all (locations_of_formula (formula_of proposition.entry.now))
        (names_as names.old.items)) }
{
    match proposition {
        Proposition::Constant(_) => Ok(()),
        Proposition::Holds(place, value) => {
            put_value(names, value)?;
            put_place(names, place)?;
            Ok(())
        }
        Proposition::Not(operand) => put_proposition(names, operand),
        Proposition::Joined(_, left, right) => {
            put_proposition(names, right)?;
            put_proposition(names, left)?;
            Ok(())
        }
    }
}

/// The locations of a test, in their order.
pub fn locations<'a>(alloc: Global, test: &'a Test) -> Result<Vec<&'a [u8]>, AllocError>
    ensures { IfOk result (λ v. names_as v.items ≡ names.locations (content_of test.entry.now)) }
{
    let mut names = Vec::new(alloc);
    put_places(&mut names, &test.observed)?;
    put_proposition(&mut names, &test.condition.proposition)?;
    put_entries(&mut names, &test.init)?;
    Ok(names)
}
