//! The kinds of texts, and the head of a check.

ghost use Rattle.std.specs.Prelude.{◌≡◌};
ghost use Rattle.text_values.specs.ModelValues.{term_of, check_of};
ghost use Rattle.cat_grammar.specs.ItemMachine.{checked};

use text_values::{Check, CheckWord, Expression};

/// The kind of a text (the herd7 manual, chapter on cat).
#[derive(Clone, Copy, PartialEq, Eq)]
pub enum Form {
    /// A model: an optional title, and items.
    Model,
    /// One item, without a title.
    Item,
}

/// The head of a check, in front of its expression.
#[derive(Clone, Copy, PartialEq, Eq)]
pub struct CheckHead {
    /// Whether `flag` stands before it.
    pub flagged: bool,
    /// Whether `~` stands before the word.
    pub negated: bool,
    /// The property that is asked for.
    pub word: CheckWord,
}

impl CheckHead {
    /// The check of this expression.
    pub fn with(self, body: Expression) -> Check
        ensures { check_of result ≡ checked self (term_of body) }
    {
        Check {
            negated: self.negated,
            word: self.word,
            body,
        }
    }
}
