//! The names that an expression sees, and what they stand for.

ghost use Rattle.std.specs.Prelude.{◌≡◌, [], length, map, bytes_eq, IfOk, if◌then◌else◌};
ghost use Rattle.meaning.specs.Cat.{of_name, bound_of};
ghost use Rattle.meaning_plain.specs.Lists.{SetOf};
ghost use Rattle.plain_models.specs.Values.{IsEvaluatedTo};
ghost use Rattle.plain_models.specs.Scopes.{with_named, names_in, named_name, latest_index, applied_index_of};

use crate::value::{Value, copied};
use std::alloc::{AllocError, Global};
use text_values::{Item, Name};

/// What a name of an earlier item is bound to.
#[derive(Drop)]
pub enum Bound {
    /// What an expression means.
    Value(Value),
    /// A function, by the index of its item.
    Function(usize),
}

/// A name of an earlier item, or a predefined one.
#[derive(Drop)]
pub struct Named {
    /// The name.
    pub name: Name,
    /// What it is bound to.
    pub bound: Bound,
}

/// What an expression is read in.
#[derive(Clone, Copy)]
pub struct Scope<'a> {
    /// Where lists are allocated.
    pub alloc: Global,
    /// All events.
    pub all: &'a [usize],
    /// The items of the model.
    pub items: &'a [Item],
    /// The names of earlier items, the latest last.
    pub outer: &'a [Named],
    /// The names behind them, as the parameters of a function, the latest last.
    pub names: &'a [Name],
    /// What these stand for, one by one.
    pub values: &'a [Value],
}

// Whether the names are the same.
fn is_name(one: &Name, other: &Name) -> bool
    ensures { result ≡ bytes_eq one.now other.now }
{
    let mine = one.as_bytes();
    let others = other.as_bytes();
    mine == others
}

// The index, if the test holds, and else what was found before.
fn later(found: Option<usize>, index: usize, is: bool) -> Option<usize>
    ensures { result ≡ (if is then Some index else found) }
{
    if is { Some(index) } else { found }
}

// The index of the latest name that is this one.
fn latest_name(names: &[Name], name: &Name) -> Option<usize>
    ensures { result ≡ latest_index name.now names.now }
{
    let mut found = None;
    for (index, one) in names.iter().enumerate() {
        let is = is_name(one, name);
        found = later(found, index, is);
    }
    found
}

fn latest_named(outer: &[Named], name: &Name) -> Option<usize>
    ensures { result ≡ latest_index name.now (map named_name outer.now) }
{
    let mut found = None;
    for (index, one) in outer.iter().enumerate() {
        let is = is_name(&one.name, name);
        found = later(found, index, is);
    }
    found
}

fn outer_value(scope: &Scope, name: &Name) -> Result<Value, AllocError>
    ensures { IfOk result (IsEvaluatedTo (of_name (bound_of (with_named (SetOf scope.now.all.now)
        scope.now.items.now scope.now.outer.now []) name.now))) }
{
    match latest_named(scope.outer, name) {
        Some(index) => match &scope.outer[index].bound {
            Bound::Value(value) => copied(scope.alloc, value),
            Bound::Function(_) => Ok(Value::Nothing),
        },
        None => Ok(Value::Nothing),
    }
}

/// What a name without arguments means. Errors: want of memory.
pub fn value_of(scope: &Scope, name: &Name) -> Result<Value, AllocError>
    requires { length scope.now.names.now ≡ length scope.now.values.now }
    ensures { IfOk result (IsEvaluatedTo (of_name (bound_of (names_in (SetOf scope.now.all.now)
        scope.now.items.now scope.now.outer.now scope.now.names.now scope.now.values.now)
        name.now))) }
{
    match latest_name(scope.names, name) {
        Some(index) => copied(scope.alloc, &scope.values[index]),
        None => outer_value(scope, name),
    }
}

/// The index of the name of an earlier item that an application names.
pub fn applied_index(scope: &Scope, name: &Name) -> Option<usize>
    ensures { result ≡ applied_index_of scope.now.outer.now scope.now.names.now name.now }
{
    match latest_name(scope.names, name) {
        Some(_) => None,
        None => latest_named(scope.outer, name),
    }
}
