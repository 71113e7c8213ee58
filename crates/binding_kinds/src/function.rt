//! Functions of the model: what is kept of one, so that its body is never gone through again.

ghost use Rattle.std.specs.Prelude.{◌≡◌, ℕ, ◌<◌, get_or, false};
ghost use Rattle.std.specs.List.{count_by};
ghost use Rattle.binding_kinds.specs.Combinations.{unknown};
ghost use Rattle.binding_kinds.specs.Applicable.{is_no_parameter, is_parameter_at};

use crate::kinds::Kind;
use crate::scope::{Found, Used};
use crate::signature::Signature;
use text_values::{Infix, MAX_PARAMETERS, Postfix};

/// The greatest size of an application.
pub const MAX_SIZE: usize = 4_096;

/// A part of an expression without applications, in postfix order.
#[derive(Clone, Copy)]
pub enum Piece {
    /// A name that is no parameter.
    Value(Found),
    /// A parameter of the function whose body it is.
    Parameter(usize),
    /// `_`, all events.
    Everything,
    /// `0`, the empty relation.
    NoPairs,
    /// `{}`, the empty set.
    NoEvents,
    /// An infix operator, after its two operands.
    Joined(Infix),
    /// A postfix operator, after its operand.
    Marked(Postfix),
    /// `~`, after its operand.
    Complement,
    /// `[ ]`, after its operand.
    Identity,
}

/// A function.
pub struct Function {
    /// The index of its item in the model.
    pub item: usize,
    /// How many parameters it has.
    pub arity: usize,
    /// Whether the parameter stands somewhere under a complement or right of a difference.
    pub under: [bool; MAX_PARAMETERS],
    /// The body with the functions that it applies put in.
    pub template: Vec<Piece>,
    /// Whether each application of it is too large, so that the template is not there.
    pub is_oversized: bool,
    /// How much of the template is no parameter.
    pub constant: usize,
    /// How often each parameter stands in the template.
    pub factors: [usize; MAX_PARAMETERS],
    /// What it makes of arguments of each kind, by their combination.
    pub signatures: Vec<Signature>,
    /// The names of other items that its body uses, through the functions that it applies too,
    /// in the order of first use.
    pub values: Vec<Used>,
    /// The items of the functions that its body applies, through others too, in the order of first
    /// application.
    pub functions: Vec<usize>,
}

impl Drop for Function {
    fn drop(self) {
        let Function {
            item: _,
            arity: _,
            under: _,
            template: _,
            is_oversized: _,
            constant: _,
            factors: _,
            signatures: _,
            values: _,
            functions: _,
        } = self;
    }
}

impl Function {
    /// What an application makes of arguments of these kinds.
    pub fn signature(&self, combination: usize) -> Signature
        ensures { result ≡ get_or self.now.signatures.items combination unknown }
    {
        match self.signatures.get(combination) {
            Some(signature) => *signature,
            None => Signature {
                kind: Kind::OfAny,
                clashes: false,
            },
        }
    }

    /// Whether the parameter stands under a complement or right of a difference.
    pub fn is_under(&self, index: usize) -> bool
        ensures { result ≡ get_or self.now.under index false }
    {
        match self.under.get(index) {
            Some(under) => *under,
            None => false,
        }
    }

    /// How often the parameter counts in the size of an application.
    pub fn factor(&self, index: usize) -> usize
        ensures { result ≡ get_or self.now.factors index 0 }
    {
        match self.factors.get(index) {
            Some(factor) => *factor,
            None => 0,
        }
    }
}

impl Piece {
    /// Whether it is the parameter at that index.
    fn is_parameter_at(self, index: usize) -> bool
        ensures { result ≡ is_parameter_at index self }
    {
        match self {
            Piece::Parameter(other) => other == index,
            Piece::Value(_) => false,
            Piece::Everything => false,
            Piece::NoPairs => false,
            Piece::NoEvents => false,
            Piece::Joined(_) => false,
            Piece::Marked(_) => false,
            Piece::Complement => false,
            Piece::Identity => false,
        }
    }

    /// Whether it is no parameter.
    fn is_no_parameter(self) -> bool
        ensures { result ≡ is_no_parameter self }
    {
        match self {
            Piece::Parameter(_) => false,
            Piece::Value(_) => true,
            Piece::Everything => true,
            Piece::NoPairs => true,
            Piece::NoEvents => true,
            Piece::Joined(_) => true,
            Piece::Marked(_) => true,
            Piece::Complement => true,
            Piece::Identity => true,
        }
    }
}

/// How often the parameter stands in a template.
fn count_parameter(template: &[Piece], index: usize) -> usize
    ensures { result ≡ count_by (is_parameter_at index) template.now }
{
    let mut count = 0usize;
    for piece in template {
        if piece.is_parameter_at(index) {
            count += 1;
        }
    }
    count
}

/// How much of a template is no parameter.
fn count_others(template: &[Piece]) -> usize
    ensures { result ≡ count_by is_no_parameter template.now }
{
    let mut count = 0usize;
    for piece in template {
        if piece.is_no_parameter() {
            count += 1;
        }
    }
    count
}

/// Counts the parts of a template: those that are no parameter, and each parameter.
pub fn count_parts(template: &[Piece]) -> (usize, [usize; MAX_PARAMETERS])
    ensures constant { result.0 ≡ count_by is_no_parameter template.now }
    ensures factors { (index : ℕ) → index < 8
        → get_or result.1 index 0 ≡ count_by (is_parameter_at index) template.now }
{
    let mut factors = [0usize; MAX_PARAMETERS];
    for index in 0..MAX_PARAMETERS {
        factors[index] = count_parameter(template, index);
    }
    (count_others(template), factors)
}
