//! What the text of a model means: items and expressions.

use crate::name::Name;

/// The greatest number of parameters of a function.
pub const MAX_PARAMETERS: usize = 8;

/// An infix operator.
#[derive(Clone, Copy, PartialEq, Eq)]
pub enum Infix {
    /// `|`
    Union,
    /// `;`
    Sequence,
    /// `\`
    Difference,
    /// `&`
    Intersection,
    /// `*` of two sets
    Product,
}

/// A postfix operator.
#[derive(Clone, Copy, PartialEq, Eq)]
pub enum Postfix {
    /// `+`
    Transitive,
    /// `?`
    Reflexive,
    /// `^-1`
    Inverse,
    /// `*`
    Closure,
}

/// An expression (the herd7 manual, chapter on cat). The value does not show which operands stood
/// in parentheses.
pub enum Expression {
    /// A name.
    Named(Name),
    /// `_`, all events
    Everything,
    /// `0`, the empty relation
    NoPairs,
    /// `{}`, the empty set
    NoEvents,
    /// An infix operator between two operands.
    Joined(Infix, Box<Expression>, Box<Expression>),
    /// A postfix operator behind its operand.
    Marked(Postfix, Box<Expression>),
    /// `~`
    Complement(Box<Expression>),
    /// `[e]`, the identity on a set
    Identity(Box<Expression>),
    /// `f(e, ..)`, a function of the model with its arguments
    Applied(Name, Vec<Expression>),
}

impl Drop for Expression {
    fn drop(self) {
        match self {
            Expression::Named(_) => {},
            Expression::Everything => {},
            Expression::NoPairs => {},
            Expression::NoEvents => {},
            Expression::Joined(_, _, _) => {},
            Expression::Marked(_, _) => {},
            Expression::Complement(_) => {},
            Expression::Identity(_) => {},
            Expression::Applied(_, _) => {},
        }
    }
}

/// The property that a check asks for.
#[derive(Clone, Copy, PartialEq, Eq)]
pub enum CheckWord {
    /// `acyclic`: the relation has no cycle.
    Acyclic,
    /// `irreflexive`: the relation has no event with itself.
    Irreflexive,
    /// `empty`: the set or the relation is empty.
    Empty,
}

/// `["~"] ("acyclic" | "irreflexive" | "empty") e`
pub struct Check {
    /// Whether `~` stands before the word.
    pub negated: bool,
    /// The property.
    pub word: CheckWord,
    /// The set or the relation that is to have the property.
    pub body: Expression,
}

impl Drop for Check {
    fn drop(self) {
        let Check {
            negated: _,
            word: _,
            body: _,
        } = self;
    }
}

/// One name of a group, with its body.
pub struct Binding {
    /// The name.
    pub name: Name,
    /// Its meaning.
    pub body: Expression,
}

impl Drop for Binding {
    fn drop(self) {
        let Binding { name: _, body: _ } = self;
    }
}

/// One expression of a `show` or an `unshow`.
#[derive(Drop)]
pub struct ShownExpression {
    /// The expression.
    pub body: Expression,
    /// The name after `as`, if there is one.
    pub label: Option<Name>,
}

/// An item of a model: an instruction of cat (the herd7 manual, chapter on cat).
#[derive(Drop)]
pub enum Item {
    /// `let` or `let rec`, with one binding or more.
    Let {
        recursive: bool,
        group: Vec<Binding>,
    },
    /// `let f(a, ..) = e`
    Function {
        name: Name,
        parameters: Vec<Name>,
        body: Expression,
    },
    /// A check: an execution that fails it is forbidden.
    Check {
        check: Check,
        label: Option<Name>,
    },
    /// A flag: an execution that passes the check raises the label.
    Flag {
        check: Check,
        label: Name,
    },
    /// `show`, or `unshow` where it is hidden.
    Show {
        hidden: bool,
        shown: Vec<ShownExpression>,
    },
    /// `include`, with the text between the quotes.
    Include(Name),
}

/// A model: its items in the order of the text. The title is not kept.
pub struct ModelText {
    /// The items. A model that was read from a text has at most 256.
    pub items: Vec<Item>,
}

impl Drop for ModelText {
    fn drop(self) {
        let ModelText { items: _ } = self;
    }
}
