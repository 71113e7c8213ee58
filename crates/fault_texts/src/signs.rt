//! Operators as a model writes them.

ghost use Rattle.std.specs.Prelude.{◌≡◌};
ghost use Rattle.fault_texts.specs.Signs.{infix_sign, postfix_sign, check_sign};

use text_values::{CheckWord, Infix, Postfix};

/// How an infix operator is written.
pub fn infix_sign(op: Infix) -> &'static [u8]
    ensures { result.now ≡ infix_sign op }
{
    match op {
        Infix::Union => b"|",
        Infix::Sequence => b";",
        Infix::Difference => b"\\",
        Infix::Intersection => b"&",
        Infix::Product => b"*",
    }
}

/// How a postfix operator is written.
pub fn postfix_sign(op: Postfix) -> &'static [u8]
    ensures { result.now ≡ postfix_sign op }
{
    match op {
        Postfix::Transitive => b"+",
        Postfix::Reflexive => b"?",
        Postfix::Inverse => b"^-1",
        Postfix::Closure => b"*",
    }
}

/// The word of a check.
pub fn check_sign(word: CheckWord) -> &'static [u8]
    ensures { result.now ≡ check_sign word }
{
    match word {
        CheckWord::Acyclic => b"acyclic",
        CheckWord::Irreflexive => b"irreflexive",
        CheckWord::Empty => b"empty",
    }
}
