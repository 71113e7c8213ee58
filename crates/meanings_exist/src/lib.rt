//! Laws of the definitions of `meaning`: what they say of a test is finite and decided. So a test
//! says something under each model; with `meanings_are_one` of `meaning`, it says one thing. Read
//! in specs/: CycleLaws, TestLaws, ModelLaws, Laws, Sorted. Lemmas on finite sets, which have lists
//! of their members, are in proofs/Finite and proofs/Paths.
#![tactic(auto)]

ghost use Rattle.meanings_exist.specs.CycleLaws.{CyclesAreDecided};
ghost use Rattle.meanings_exist.specs.TestLaws.{RoundsAreListed, ExecutionsAreListed, TestsAreDecided};
ghost use Rattle.meanings_exist.specs.ModelLaws.{ChecksAreDecided, FlagsAreDecided};
ghost use Rattle.text_values.specs.TestValue.{content_of};
ghost use Rattle.meanings_exist.specs.Laws.{SaysSomething, AMeaningExists};

use meaning_laws::test_is_of_words;
use text_values::Test;

/// Whether the pairs of a list of events make a cycle is decided.
pub fn cycles_are_decided()
    ensures { CyclesAreDecided }
{}

/// The values after each round of the domain are a list.
pub fn rounds_are_listed()
    ensures { RoundsAreListed }
{}

/// The executions of a test are a list.
pub fn executions_are_listed()
    ensures { ExecutionsAreListed }
{}

/// Each test is refused or accepted.
pub fn tests_are_decided()
    ensures { TestsAreDecided }
{}

/// Whether an execution meets the checks and the flags of a model without faults is decided.
pub fn models_are_decided()
    ensures checks { ChecksAreDecided }
    ensures flags { FlagsAreDecided }
{}

/// A test that writes numbers of 32 bits says something under each model.
pub fn a_meaning_exists()
    ensures { AMeaningExists }
{}

/// So does each test that a function takes.
pub fn a_test_says_something(test: &Test)
    ensures { SaysSomething (content_of test.now) }
{
    test_is_of_words(test);
    a_meaning_exists();
}
