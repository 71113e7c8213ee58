//! The names that an expression sees.

ghost use Rattle.std.specs.Prelude.{◌≡◌, bytes_eq, IfOk, OnOk};
ghost use Rattle.meaning.specs.Faults.{OfAny, value_with};
ghost use Rattle.plain_faults.specs.Found.{IsSameKnown, from_name, PutsName, PutsParameters};

use crate::finding::KnownName;
use crate::kind::Kind;
use std::alloc::AllocError;
use text_values::{Expression, Name};

/// What a name is.
#[derive(Clone, Copy)]
pub enum Known<'a> {
    /// A set or a relation.
    Value(KnownName),
    /// A function, by its parameters and its body, which sees the names before it.
    Function(&'a [Name], &'a Expression),
}

/// A name with what it is.
#[derive(Clone, Copy)]
pub struct Named<'a> {
    /// The name.
    pub name: &'a [u8],
    /// What it is.
    pub known: Known<'a>,
}

fn is_same(first: &[u8], second: &[u8]) -> bool
    ensures { result ≡ bytes_eq first.now second.now }
{
    first == second
}

/// The names from the latest that is this one; none, if there is no such name. The latest stands
/// first.
pub fn from_name<'n, 'a>(names: &'n [Named<'a>], name: &[u8]) -> &'n [Named<'a>]
    ensures { result.now ≡ from_name names.entry.now name.now }
{
    match names.split_first() {
        Some((first, rest)) => {
            if is_same(first.name, name) {
                names
            } else {
                from_name(rest, name)
            }
        }
        None => names,
    }
}

/// A value of any kind.
pub fn unknown(recursive: bool) -> KnownName
    ensures { IsSameKnown result (value_with OfAny 1 recursive) }
{
    KnownName {
        kind: Kind::Any,
        size: 1,
        recursive,
    }
}

/// Puts a name of a set or a relation before the others. Errors: want of memory, as in all that
/// follows.
pub fn put_name<'a>(
    names: &mut Vec<Named<'a>>,
    name: &'a Name,
    value: KnownName,
) -> Result<(), AllocError>
    ensures { OnOk result (PutsName name.entry.now value names.old.items names.new.items) }
{
    let named = Named {
        name: name.as_bytes(),
        known: Known::Value(value),
    };
    names.insert(0, named)?;
    Ok(())
}

/// Puts the parameters of a function before the names, with its arguments.
pub fn put_parameters<'a>(
    names: &mut Vec<Named<'a>>,
    parameters: &'a [Name],
    values: &[KnownName],
) -> Result<(), AllocError>
    ensures { OnOk result
        (PutsParameters parameters.entry.now values.now names.old.items names.new.items) }
{
    match parameters.split_first() {
        Some((first, rest)) => match values.split_first() {
            Some((value, others)) => {
                put_name(names, first, *value)?;
                put_parameters(names, rest, others)
            }
            None => {
                put_name(names, first, unknown(false))?;
                put_parameters(names, rest, values)
            }
        },
        None => Ok(()),
    }
}
