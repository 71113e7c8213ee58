//! The rules of the language.

ghost use Rattle.std.specs.Prelude.{◌≡◌};
ghost use Rattle.cat_tokens.specs.Tokens.{digits_number};

/// The rule that a text breaks, with its number.
#[derive(Clone, Copy, Debug, PartialEq, Eq)]
pub enum CatRule {
    /// C1: a byte that begins no token.
    Token,
    /// C2: a misplaced token, unless another rule names it; a comment or a string that does not
    /// end; a text that ends too early.
    Syntax,
    /// C3: an `include` of another file than `cos.cat` and `stdlib.cat`.
    Include,
    /// C4: a keyword that is not supported, the token `++`, or `(` after a name that follows
    /// `let rec` or `and`.
    Unsupported,
    /// C5: the 257th item, the 65th name of a group or the ninth parameter.
    TooMany,
    /// C6: the 65th of `(`, `[` and `~` that are open at once, or the 1,025th operator of an
    /// expression.
    TooDeep,
    /// C7: a text of over 65,536 bytes.
    TooLong,
}

impl CatRule {
    /// The number that a refusal is printed with, from 1 to 7.
    pub fn number(self) -> u8
        ensures { result ≡ digits_number self }
    {
        match self {
            CatRule::Token => 1,
            CatRule::Syntax => 2,
            CatRule::Include => 3,
            CatRule::Unsupported => 4,
            CatRule::TooMany => 5,
            CatRule::TooDeep => 6,
            CatRule::TooLong => 7,
        }
    }
}
