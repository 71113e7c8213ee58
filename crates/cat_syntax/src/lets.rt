//! Reads the heads of a `let`.

ghost use Rattle.std.specs.Prelude.{◌≡◌, IfOk};
ghost use Rattle.cat_grammar.specs.Grammar.{model_limits};
ghost use Rattle.text_values.specs.ModelValues.{term_of, clause_of};
ghost use Rattle.cat_grammar.specs.ItemMachine.{fresh, extended, group_clause, after_keyword, bound_name, parameter_read, after_parameter, after_let_name, after_bound, after_parameters, after_let};
ghost use Rattle.cat_syntax.specs.ReadingItems.{group_of, let_of, part_of, GivesRead};

use crate::parts::{Head, Part, body_start};
use cat_expressions::StepError;
use cat_tokens::{CatRule, Token};
use std::alloc::{AllocError, Global};
use text_values::{Binding, Expression, Item, MAX_PARAMETERS, Name};

/// The greatest number of names in a group.
pub const MAX_NAMES: usize = 64;

/// The bindings of a `let` so far.
#[derive(Drop)]
pub struct Group {
    /// Whether `rec` was read.
    pub recursive: bool,
    /// The bindings whose expressions are read, in the order of the text.
    pub bindings: Vec<Binding>,
}

/// The position of the reader in the head of a `let`.
#[derive(Drop)]
pub enum LetPart {
    /// After `let`.
    Keyword,
    /// After `let` and a name, which may be a function's.
    Named(Name),
    /// After `let rec` or `and`.
    And(Group),
    /// After a name that is not a function's.
    Bound(Group, Name),
    /// Where a parameter is wanted.
    Parameter(Name, Vec<Name>),
    /// After a parameter.
    AfterParameter(Name, Vec<Name>),
    /// After all parameters.
    Parameters(Name, Vec<Name>),
}

impl Group {
    fn new(alloc: Global, recursive: bool) -> Group
        ensures { group_of result ≡ fresh recursive }
    {
        Group {
            recursive,
            bindings: Vec::new(alloc),
        }
    }

    /// The group with one more binding. Errors: out of memory.
    pub fn with(self, name: Name, body: Expression) -> Result<Group, AllocError>
        ensures { IfOk result (λ g. group_of g ≡ extended (group_of self) name (term_of body)) }
    {
        let Group {
            recursive,
            mut bindings,
        } = self;
        bindings.push(Binding { name, body })?;
        Ok(Group {
            recursive,
            bindings,
        })
    }

    /// The item of the group.
    pub fn into_item(self) -> Item
        ensures { clause_of result ≡ group_clause (group_of self) }
    {
        let Group {
            recursive,
            bindings,
        } = self;
        Item::Let {
            recursive,
            group: bindings,
        }
    }
}

// A token after `let`.
fn keyword_read(alloc: Global, token: Token) -> Result<Part, StepError>
    ensures { GivesRead part_of result (after_keyword token) }
{
    match token {
        Token::Rec => Ok(Part::Let(LetPart::And(Group::new(alloc, true)))),
        Token::Name(name) => Ok(Part::Let(LetPart::Named(name))),
        other => Err(StepError::Refused(other.rule())),
    }
}

// The next name of a group.
fn bound_name(group: Group, token: Token) -> Result<Part, StepError>
    ensures { GivesRead part_of result (bound_name model_limits (group_of group) token) }
{
    match token {
        Token::Name(name) => {
            if group.bindings.len() >= MAX_NAMES {
                return Err(StepError::Refused(CatRule::TooMany));
            }
            Ok(Part::Let(LetPart::Bound(group, name)))
        }
        other => Err(StepError::Refused(other.rule())),
    }
}

fn parameter_read(name: Name, parameters: Vec<Name>, token: Token) -> Result<Part, StepError>
    ensures { GivesRead part_of result (parameter_read model_limits name parameters.items token) }
{
    match token {
        Token::Name(parameter) => {
            let mut parameters = parameters;
            if parameters.len() >= MAX_PARAMETERS {
                return Err(StepError::Refused(CatRule::TooMany));
            }
            parameters.push(parameter)?;
            Ok(Part::Let(LetPart::AfterParameter(name, parameters)))
        }
        other => Err(StepError::Refused(other.rule())),
    }
}

fn after_parameter(name: Name, parameters: Vec<Name>, token: Token) -> Result<Part, StepError>
    ensures { GivesRead part_of result (after_parameter name parameters.items token) }
{
    match token {
        Token::Comma => Ok(Part::Let(LetPart::Parameter(name, parameters))),
        Token::Close => Ok(Part::Let(LetPart::Parameters(name, parameters))),
        other => Err(StepError::Refused(other.rule())),
    }
}

// A token after `let` and a name.
fn after_name(alloc: Global, name: Name, token: Token) -> Result<Part, StepError>
    ensures { GivesRead part_of result (after_let_name name token) }
{
    match token {
        Token::Equals => Ok(body_start(Head::Bound(Group::new(alloc, false), name))),
        Token::Open => Ok(Part::Let(LetPart::Parameter(name, Vec::new(alloc)))),
        other => Err(StepError::Refused(other.rule())),
    }
}

// A token after a name that is no function's. A parenthesis would make it one, which is not
// supported here.
fn after_bound(group: Group, name: Name, token: Token) -> Result<Part, StepError>
    ensures { GivesRead part_of result (after_bound (group_of group) name token) }
{
    match token {
        Token::Equals => Ok(body_start(Head::Bound(group, name))),
        Token::Open => Err(StepError::Refused(CatRule::Unsupported)),
        other => Err(StepError::Refused(other.rule())),
    }
}

fn after_parameters(name: Name, parameters: Vec<Name>, token: Token) -> Result<Part, StepError>
    ensures { GivesRead part_of result (after_parameters name parameters.items token) }
{
    match token {
        Token::Equals => Ok(body_start(Head::Function(name, parameters))),
        other => Err(StepError::Refused(other.rule())),
    }
}

/// The step over a token in the head of a `let`. Errors: out of memory, or the rule that the token
/// breaks.
pub fn after_let(alloc: Global, part: LetPart, token: Token) -> Result<Part, StepError>
    ensures { GivesRead part_of result (after_let model_limits (let_of part) token) }
{
    match part {
        LetPart::Keyword => keyword_read(alloc, token),
        LetPart::Named(name) => after_name(alloc, name, token),
        LetPart::And(group) => bound_name(group, token),
        LetPart::Bound(group, name) => after_bound(group, name, token),
        LetPart::Parameter(name, parameters) => parameter_read(name, parameters, token),
        LetPart::AfterParameter(name, parameters) => after_parameter(name, parameters, token),
        LetPart::Parameters(name, parameters) => after_parameters(name, parameters, token),
    }
}
