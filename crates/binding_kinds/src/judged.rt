//! What is judged of an expression from what is judged of its parts: its kind, its size and its
//! first fault.

ghost use Rattle.std.specs.Prelude.{◌≡◌, ◌+◌, ◌*◌, ◌^◌, ◌<◌, ◌≤◌, get_or, Some, None, true, false, not, ◌||◌};
ghost use Rattle.binding_kinds.specs.Kinds.{kind_found, joined_kind, takes, marked, narrowed, is_set_kind, is_relation};
ghost use Rattle.binding_kinds.specs.Verdict.{or_else, unless, of_name, of_slot};
ghost use Rattle.binding_kinds.specs.Combinations.{digit, unknown};
ghost use Rattle.binding_kinds.specs.Senses.{IsSameSize};

use crate::fault::ModelFault;
use crate::function::{Function, MAX_SIZE};
use crate::kinds::{Kind, joined, takes};
use crate::scope::{Binder, Found, kind_found};
use crate::signature::weighed;
use text_values::Infix;

/// The kind of an expression, its size and its first fault.
#[derive(Clone, Copy)]
pub struct Judged {
    /// `OfAny` where it holds an unbound name, or an operator or an application at fault.
    pub kind: Kind,
    /// How many names, signs and operators it has, with the bodies of functions put in.
    pub size: usize,
    /// The first in the order of the text, if there is one.
    pub fault: Option<ModelFault>,
}

/// What is known of the arguments of an application so far.
#[derive(Clone, Copy)]
pub struct Arguments {
    /// Their kinds, weighed by index.
    pub combination: usize,
    /// The size of the application.
    pub size: usize,
    /// Their first fault.
    pub fault: Option<ModelFault>,
}

/// The first fault that is there.
pub fn or_else(first: Option<ModelFault>, later: Option<ModelFault>) -> Option<ModelFault>
    ensures { result ≡ or_else first later }
{
    match first {
        None => later,
        Some(fault) => Some(fault),
    }
}

/// The fault, unless the test holds.
pub fn unless(holds: bool, fault: ModelFault) -> Option<ModelFault>
    ensures { result ≡ unless holds fault }
{
    if holds { None } else { Some(fault) }
}

/// Whether one of two tests holds.
pub fn either(one: bool, other: bool) -> bool
    ensures { result ≡ (one || other) }
{
    one || other
}

/// A name or an application at fault: it fits every kind.
pub fn judged_faulty(fault: ModelFault) -> Judged
    ensures kind { result.kind ≡ Kind.OfAny }
    ensures size { result.size ≡ 1 }
    ensures fault { result.fault ≡ Some fault }
{
    Judged {
        kind: Kind::OfAny,
        size: 1,
        fault: Some(fault),
    }
}

/// `_`, `0` or `{}`.
pub fn judged_sign(of: Kind) -> Judged
    ensures kind { result.kind ≡ of }
    ensures size { result.size ≡ 1 }
    ensures fault { result.fault ≡ None }
{
    Judged {
        kind: of,
        size: 1,
        fault: None,
    }
}

/// A name without arguments that was looked for, seen under a complement or not. The names of the
/// item itself have the slot `from` and those behind it.
pub fn judged_name(from: usize, under: bool, found: Option<Found>) -> Judged
    ensures size { result.size ≡ 1 }
    ensures kind { result.kind ≡ kind_found found }
    ensures fault { result.fault ≡ of_name from under found }
{
    Judged {
        kind: kind_found(found),
        size: 1,
        fault: name_fault(from, under, found),
    }
}

/// The fault of a name without arguments that was looked for.
fn name_fault(from: usize, under: bool, found: Option<Found>) -> Option<ModelFault>
    ensures { result ≡ of_name from under found }
{
    match found {
        None => Some(ModelFault::Unbound),
        Some(found) => match found.binder {
            Binder::Applicable(_) => Some(ModelFault::Arity),
            Binder::Predefined(_) => recursive_fault(from, under, found.slot),
            Binder::Bound(_) => recursive_fault(from, under, found.slot),
        },
    }
}

/// The fault of a name that may be recursive.
fn recursive_fault(from: usize, under: bool, slot: usize) -> Option<ModelFault>
    ensures { result ≡ of_slot from under slot }
{
    if under && from <= slot {
        Some(ModelFault::NotMonotone)
    } else {
        None
    }
}

/// What an infix operator makes.
pub fn judged_infix(op: Infix, first: Judged, second: Judged) -> Judged
    ensures size { IsSameSize result.size (first.size + second.size + 1) }
    ensures kind { result.kind ≡ joined_kind op first.kind second.kind }
    ensures fault { result.fault
        ≡ or_else first.fault (or_else (unless (takes op first.kind second.kind) ModelFault.Kind)
        second.fault) }
{
    let here = unless(takes(op, first.kind, second.kind), ModelFault::Kind);
    Judged {
        kind: joined(op, first.kind, second.kind),
        size: first.size.saturating_add(second.size).saturating_add(1),
        fault: or_else(first.fault, or_else(here, second.fault)),
    }
}

/// What a postfix operator makes.
pub fn judged_postfix(inner: Judged) -> Judged
    ensures size { IsSameSize result.size (inner.size + 1) }
    ensures kind { result.kind ≡ marked inner.kind }
    ensures fault { result.fault
        ≡ or_else inner.fault (unless (is_relation inner.kind) ModelFault.Kind) }
{
    let here = unless(inner.kind.is_relation(), ModelFault::Kind);
    Judged {
        kind: inner.kind.marked(),
        size: inner.size.saturating_add(1),
        fault: or_else(inner.fault, here),
    }
}

/// A complement.
pub fn judged_complement(inner: Judged) -> Judged
    ensures size { IsSameSize result.size (inner.size + 1) }
    ensures kind { result.kind ≡ inner.kind }
    ensures fault { result.fault ≡ inner.fault }
{
    Judged {
        kind: inner.kind,
        size: inner.size.saturating_add(1),
        fault: inner.fault,
    }
}

/// An identity.
pub fn judged_identity(inner: Judged) -> Judged
    ensures size { IsSameSize result.size (inner.size + 1) }
    ensures kind { result.kind ≡ narrowed inner.kind }
    ensures fault { result.fault
        ≡ or_else (unless (is_set_kind inner.kind) ModelFault.Kind) inner.fault }
{
    let here = unless(inner.kind.is_set(), ModelFault::Kind);
    Judged {
        kind: inner.kind.narrowed(),
        size: inner.size.saturating_add(1),
        fault: or_else(here, inner.fault),
    }
}

impl Arguments {
    /// No argument yet.
    pub fn of(function: &Function) -> Arguments
        ensures combination { result.combination ≡ 0 }
        ensures size { result.size ≡ function.now.constant }
        ensures fault { result.fault ≡ None }
    {
        Arguments {
            combination: 0,
            size: function.constant,
            fault: None,
        }
    }

    /// With the argument at that index.
    pub fn with(self, function: &Function, index: usize, one: Judged) -> Arguments
        ensures combination { index < 8 → self.combination < 6561
            → result.combination ≡ self.combination + digit one.kind * 3 ^ index }
        ensures size { IsSameSize result.size
            (self.size + get_or function.now.factors index 0 * one.size) }
        ensures fault { result.fault ≡ or_else self.fault one.fault }
    {
        let more = function.factor(index).saturating_mul(one.size);
        Arguments {
            combination: self.combination.saturating_add(weighed(one.kind, index)),
            size: self.size.saturating_add(more),
            fault: or_else(self.fault, one.fault),
        }
    }

    /// The application.
    pub fn applied(self, function: &Function) -> Judged
        ensures oversized { function.now.is_oversized ≡ true
            → (result.kind ≡ Kind.OfAny) × (result.fault ≡ Some ModelFault.TooLarge)
            × (4096 < result.size) }
        ensures large { 4096 < self.size
            → (result.kind ≡ Kind.OfAny) × (result.fault ≡ Some ModelFault.TooLarge)
            × (4096 < result.size) }
        ensures small { let made = get_or function.now.signatures.items self.combination unknown in
            function.now.is_oversized ≡ false → self.size ≤ 4096
            → (result.kind ≡ made.kind)
            × (result.fault ≡ or_else (unless (not made.clashes) ModelFault.Kind) self.fault)
            × (result.size ≡ self.size) }
    {
        if function.is_oversized || self.size > MAX_SIZE {
            return Judged {
                kind: Kind::OfAny,
                size: self.size.max(MAX_SIZE + 1),
                fault: Some(ModelFault::TooLarge),
            };
        }
        let signature = function.signature(self.combination);
        Judged {
            kind: signature.kind,
            size: self.size,
            fault: or_else(unless(!signature.clashes, ModelFault::Kind), self.fault),
        }
    }
}
