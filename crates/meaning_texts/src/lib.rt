//! A law of tests that are read: the numbers that they write have 32 bits. Read in specs/: Read,
//! after `Texts` of `litmus_grammar/specs` and `Words` of `meaning_laws/specs`.
#![tactic(auto)]

ghost use Rattle.meaning_texts.specs.Read.{TextsAreOfWords};

/// A test that a text means writes numbers of 32 bits.
pub fn texts_are_of_words()
    ensures { TextsAreOfWords }
{}
