//! The names that an expression sees.

ghost use Rattle.std.specs.Prelude.{◌≡◌, reverse, map, slice_get};
ghost use Rattle.binding_kinds.specs.Value.{entry_of};
ghost use Rattle.binding_kinds.specs.Kinds.{found};
ghost use Rattle.binding_kinds.specs.Applicable.{applied_of};
ghost use Rattle.binding_kinds.specs.Meanings.{parameter_of, named_of, meaning_named, meaning_of};

use crate::fault::ModelFault;
use crate::function::Function;
use crate::scope::{Binder, Entry, Found, find};
use text_values::Name;

/// The names that an expression sees.
#[derive(Clone, Copy)]
pub struct Sight<'a> {
    /// The names in scope, the latest last.
    pub entries: &'a [Entry],
    /// The functions of the scope.
    pub functions: &'a [Function],
    /// The parameters of the function whose body it is.
    pub parameters: &'a [Name],
    /// The names of the item itself have this slot and those behind it.
    pub from: usize,
}

/// What a name without arguments stands for.
#[derive(Clone, Copy)]
pub enum Meaning {
    /// A parameter, by its index.
    Parameter(usize),
    /// A name of the scope that is no function.
    Value(Found),
}

/// What a name without arguments is found to be.
#[derive(Clone, Copy)]
pub enum Named {
    /// A parameter, by its index.
    Parameter(usize),
    /// No parameter: what the name stands for in the scope, if anything.
    Other(Option<Found>),
}

/// The index of the parameter of that name.
#[tactic(auto, using(crate::proofs::Scopes::rev_next))]
fn parameter(parameters: &[Name], name: &Name) -> Option<usize>
    ensures { result ≡ parameter_of (reverse parameters.now) name.now }
{
    let mut last = None;
    for (index, one) in parameters.iter().enumerate() {
        if one.as_bytes() == name.as_bytes() {
            last = Some(index);
        }
    }
    last
}

impl Named {
    /// What it stands for. Errors: `Unbound` where nothing binds the name, `Arity` where it is a
    /// function.
    fn meaning(self) -> Result<Meaning, ModelFault>
        ensures { result ≡ meaning_named self }
    {
        match self {
            Named::Parameter(index) => Ok(Meaning::Parameter(index)),
            Named::Other(None) => Err(ModelFault::Unbound),
            Named::Other(Some(found)) => match found.binder {
                Binder::Applicable(_) => Err(ModelFault::Arity),
                Binder::Predefined(_) => Ok(Meaning::Value(found)),
                Binder::Bound(_) => Ok(Meaning::Value(found)),
            },
        }
    }
}

impl Sight<'_> {
    /// What a name without arguments is found to be, in one look-up.
    pub fn named(&self, name: &Name) -> Named
        ensures { result
            ≡ named_of (parameter_of (reverse self.now.parameters.now) name.now)
            (found (reverse (map entry_of self.now.entries.now)) name.now) }
    {
        match parameter(self.parameters, name) {
            Some(index) => Named::Parameter(index),
            None => Named::Other(find(self.entries, name)),
        }
    }

    /// What a name without arguments stands for. Errors: `Unbound` where nothing binds the name,
    /// `Arity` where it is a function.
    #[tactic(auto, using(crate::proofs::Scopes::named_meaning))]
    pub fn value(&self, name: &Name) -> Result<Meaning, ModelFault>
        ensures { result
            ≡ meaning_of (parameter_of (reverse self.now.parameters.now) name.now)
            (found (reverse (map entry_of self.now.entries.now)) name.now) }
    {
        self.named(name).meaning()
    }

    /// The function that a name with so many arguments stands for. Errors: `Unbound` where nothing
    /// binds the name, `Arity` where it is no function of so many.
    pub fn function(&self, name: &Name, count: usize) -> Result<usize, ModelFault>
        ensures { result
            ≡ applied_of (λ f. slice_get (map (λ one. one.arity) self.now.functions.now) f) count
            (parameter_of (reverse self.now.parameters.now) name.now)
            (found (reverse (map entry_of self.now.entries.now)) name.now) }
    {
        if parameter(self.parameters, name).is_some() {
            return Err(ModelFault::Arity);
        }
        let Some(found) = find(self.entries, name) else {
            return Err(ModelFault::Unbound);
        };
        match found.binder {
            Binder::Applicable(function) => match self.functions.get(function) {
                Some(one) if one.arity == count => Ok(function),
                _ => Err(ModelFault::Arity),
            },
            _ => Err(ModelFault::Arity),
        }
    }
}
