//! Laws that tie `meaning` to the program: a model keeps a candidate where it keeps its execution,
//! and an evaluation says by number what the kept executions say by name: flags, final states,
//! counts and words. Read in specs/: Kept, Listed, after `Names` of `meaning_executions/specs` and
//! `Laws` of `meaning_items/specs`; Flags; ByName, States, Texts, after `Evaluated` of
//! `verdict/specs` and `Outcome` of `meaning/specs`.
#![tactic(auto)]

ghost use Rattle.meaning_states.specs.Kept.{CandidatesAreMetByName};
ghost use Rattle.meaning_states.specs.Listed.{KeptByName};
ghost use Rattle.meaning_states.specs.Flags.{FlagsAreRaised};
ghost use Rattle.meaning_states.specs.States.{EvaluationsAreMeant};
ghost use Rattle.meaning_states.specs.Texts.{StatesArePrinted};

/// A candidate meets the checks and flags of a model by number where its execution does by name.
pub fn candidates_are_met_by_name()
    ensures { CandidatesAreMetByName }
{}

/// The candidates of a test that are kept are the executions that the definitions keep.
pub fn kept_by_name()
    ensures { KeptByName }
{}

/// The names of the flags that are raised are those of flags that a kept execution meets.
pub fn flags_are_raised()
    ensures { FlagsAreRaised }
{}

/// Final states, counts, words and flags of an evaluation are what the kept executions say.
pub fn evaluations_are_meant()
    ensures { EvaluationsAreMeant }
{}

/// The text of a state is that of its values, by the names of the test.
pub fn states_are_printed()
    ensures { StatesArePrinted }
{}
