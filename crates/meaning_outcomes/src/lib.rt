//! The law that ties the program to `meaning`: what evaluating a test from nothing gives is what
//! the test says under the model. Read in specs/: Outcomes, after `Evaluates` of `meaning/specs`
//! and `FromScratch` of `from_scratch/specs`.
#![tactic(auto)]

ghost use Rattle.std.specs.Prelude.{IfOk};
ghost use Rattle.meaning_outcomes.specs.Outcomes.{FromScratchIsMeant, TestsOfWordsAreMeant, OutcomesAreOne, IsMeant};

use cut_spaces::eval_cell;
use meaning_laws::test_is_of_words;
use std::alloc::{AllocError, Global};
use text_values::{ModelText, Test};
use verdict::Outcome;

/// What evaluating the test from nothing gives under a model is what the test says under it, and
/// the test says one thing.
pub fn from_scratch_is_meant(test: &Test)
    ensures meant { FromScratchIsMeant test.now }
    ensures one { OutcomesAreOne test.now }
{
    test_is_of_words(test);
}

/// So it is for each test that writes numbers of 32 bits.
pub fn tests_of_words_are_meant()
    ensures { TestsOfWordsAreMeant }
{}

/// What the test says under the model. Errors: out of memory.
pub fn meant_cell(alloc: Global, test: &Test, model: &ModelText) -> Result<Outcome, AllocError>
    ensures { IfOk result (λ o. IsMeant test.now model.now o) }
{
    from_scratch_is_meant(test);
    eval_cell(alloc, test, model)
}
