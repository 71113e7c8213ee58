//! The tokens of a text.

ghost use Rattle.std.specs.Prelude.{◌≡◌};
ghost use Rattle.cat_tokens.specs.Tokens.{infix_of, postfix_of, rule_of, begins_operand};

use crate::rule::CatRule;
use text_values::{CheckWord, Infix, Name, Postfix};

/// An infix operator of one sign that is never postfix.
#[derive(Clone, Copy, PartialEq, Eq)]
pub enum Sign {
    /// `|`
    Bar,
    /// `;`
    Semicolon,
    /// `\`
    Backslash,
    /// `&`
    Ampersand,
}

/// A postfix operator that is never infix.
#[derive(Clone, Copy, PartialEq, Eq)]
pub enum Mark {
    /// `+`
    Plus,
    /// `?`
    Question,
    /// `^-1`
    Inverse,
}

/// A token, the end of the text, or a text that is no token.
#[derive(Drop)]
pub enum Token {
    /// A name, which is no keyword.
    Name(Name),
    /// A string, by the text between its quotes.
    Quoted(Name),
    /// An infix sign.
    Sign(Sign),
    /// A postfix sign.
    Mark(Mark),
    /// `*`, infix or postfix.
    Star,
    /// `~`
    Tilde,
    /// `(`
    Open,
    /// `)`
    Close,
    /// `[`
    OpenSquare,
    /// `]`
    CloseSquare,
    /// `{`
    OpenBrace,
    /// `}`
    CloseBrace,
    /// `_`
    Underscore,
    /// `0`
    Zero,
    /// `,`
    Comma,
    /// `=`
    Equals,
    /// `let`
    Let,
    /// `rec`
    Rec,
    /// `and`
    And,
    /// `as`
    As,
    /// `acyclic`, `irreflexive` or `empty`
    Check(CheckWord),
    /// `flag`
    Flag,
    /// `show`
    Show,
    /// `unshow`
    Unshow,
    /// `include`
    Include,
    /// The end of the text.
    End,
    /// A text that breaks this rule wherever it stands.
    Broken(CatRule),
}

impl Sign {
    /// The operator that the sign stands for.
    pub fn infix(self) -> Infix
        ensures { result ≡ infix_of self }
    {
        match self {
            Sign::Bar => Infix::Union,
            Sign::Semicolon => Infix::Sequence,
            Sign::Backslash => Infix::Difference,
            Sign::Ampersand => Infix::Intersection,
        }
    }
}

impl Mark {
    /// The operator that the mark stands for.
    pub fn postfix(self) -> Postfix
        ensures { result ≡ postfix_of self }
    {
        match self {
            Mark::Plus => Postfix::Transitive,
            Mark::Question => Postfix::Reflexive,
            Mark::Inverse => Postfix::Inverse,
        }
    }
}

impl Token {
    /// The rule that the token breaks where it is misplaced.
    pub fn rule(&self) -> CatRule
        ensures { result ≡ rule_of self.now }
    {
        match self {
            Token::Broken(rule) => *rule,
            _ => CatRule::Syntax,
        }
    }

    /// Whether an operand can begin with the token; `~` does not count.
    pub fn begins_operand(&self) -> bool
        ensures { result ≡ begins_operand self.now }
    {
        match self {
            Token::Name(_) => true,
            Token::Open => true,
            Token::OpenSquare => true,
            Token::OpenBrace => true,
            Token::Underscore => true,
            Token::Zero => true,
            _ => false,
        }
    }
}
