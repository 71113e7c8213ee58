//! A model without fault.

use binding_kinds::{Input, Kind};
use text_values::{CheckWord, Name, Postfix, Predefined};

/// What a name stands for, where it is used.
#[derive(Clone, Copy)]
pub enum Source {
    /// A predefined name.
    Predefined(Predefined),
    /// A name of another item, by its index among the item's inputs.
    Input(usize),
    /// A name of the recursive group itself, by its position.
    Own(usize),
}

/// An operator on two sets or on two relations.
#[derive(Clone, Copy, PartialEq, Eq)]
pub enum Blend {
    /// `|`
    Union,
    /// `&`
    Intersection,
    /// `\`
    Difference,
}

/// What is done with a stack of sets and a stack of relations.
#[derive(Clone, Copy)]
pub enum Step {
    /// The set that a name stands for.
    PushSet(Source),
    /// `_`, all events of the execution.
    PushEverything,
    /// `{}`, the empty set.
    PushNoEvents,
    /// Two sets to one.
    BlendSets(Blend),
    /// A set to its complement.
    ComplementSet,
    /// The relation that a name stands for.
    PushRelation(Source),
    /// `0`, the empty relation.
    PushNoPairs,
    /// Two relations to one.
    BlendRelations(Blend),
    /// Two relations to their sequence.
    SequenceRelations,
    /// Two sets to their product.
    ProductOfSets,
    /// A set to the identity on it.
    IdentityOn,
    /// A relation to a closure of it, or to its inverse.
    Close(Postfix),
    /// A relation to its complement.
    ComplementRelation,
}

/// An expression whose kind is known, as steps.
pub struct Code {
    /// A set or a relation.
    pub kind: Kind,
    /// They leave the value alone on the stack of its kind.
    pub steps: Vec<Step>,
}

impl Drop for Code {
    fn drop(self) {
        let Code { kind: _, steps: _ } = self;
    }
}

/// One name of a group.
pub struct Body {
    /// The name that is bound.
    pub name: Name,
    /// What it stands for.
    pub code: Code,
}

impl Drop for Body {
    fn drop(self) {
        let Body { name: _, code: _ } = self;
    }
}

/// A check or a flag.
#[derive(Drop)]
pub struct CheckCode {
    /// Whether it holds where what is asked does not.
    pub negated: bool,
    /// What is asked.
    pub word: CheckWord,
    /// Of what it is asked.
    pub code: Code,
    /// The name that is raised, where it is a flag.
    pub flag: Option<Name>,
}

/// What an item does.
#[derive(Drop)]
pub enum Role {
    /// Binds the names of a group, whose bodies use them where it is recursive.
    Group { recursive: bool, bodies: Vec<Body> },
    /// Checks an expression, or flags it.
    Check(CheckCode),
    /// A function, a `show`, an `unshow` or an `include`.
    Silent,
}

/// An item whose names are resolved.
pub struct ResolvedItem {
    /// What it does.
    pub role: Role,
    /// The names of other items that it uses, each once, in the order of first use.
    pub inputs: Vec<Input>,
    /// The items of the functions that it applies, through others too, each once, in the order
    /// of first application.
    pub functions: Vec<usize>,
}

impl Drop for ResolvedItem {
    fn drop(self) {
        let ResolvedItem {
            role: _,
            inputs: _,
            functions: _,
        } = self;
    }
}

/// A model without fault: its items in the order of the text.
pub struct Resolved {
    /// As many as the text has.
    pub items: Vec<ResolvedItem>,
}

impl Drop for Resolved {
    fn drop(self) {
        let Resolved { items: _ } = self;
    }
}
