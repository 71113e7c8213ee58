//! The tokens of a text.

use crate::rule::LitmusRule;
use text_values::Name;

/// A punctuation token.
#[derive(Clone, Copy, PartialEq, Eq)]
pub enum Mark {
    /// `{`
    OpenBrace,
    /// `}`
    CloseBrace,
    /// `[`
    OpenBracket,
    /// `]`
    CloseBracket,
    /// `(`
    Open,
    /// `)`
    Close,
    /// `,`
    Comma,
    /// `;`
    Semicolon,
    /// `:`
    Colon,
    /// `|`
    Bar,
    /// `=`
    Equals,
    /// `~`
    Tilde,
    /// `/\`
    And,
    /// `\/`
    Or,
    /// `=>`
    Implies,
}

/// A token, the end of the text, or a byte or text at which no token begins.
#[derive(Drop)]
pub enum Token {
    /// A name, a keyword or a register.
    Word(Name),
    /// A number: whether it is negative, and its digits without leading zeros.
    Number(bool, Name),
    /// A label and its colon.
    Label(Name),
    /// A text in quotes.
    Text,
    /// A keyline, before `{`.
    Keyline,
    /// The line end behind the name of the test.
    LineEnd,
    /// Punctuation.
    Mark(Mark),
    /// The end of the text.
    End,
    /// An ASCII byte that begins no token.
    Bad,
    /// A text that breaks this rule wherever it stands.
    Broken(LitmusRule),
}
