//! Laws of outcomes.

ghost use Rattle.std.specs.Prelude.{ℕ, Bool, List};
ghost use Rattle.text_values.specs.declared.test.Place.{Place};
ghost use Rattle.text_values.specs.declared.test.Quantifier.{Quantifier};
ghost use Rattle.text_values.specs.TestValue.{Formula};
ghost use Rattle.candidate_spaces.specs.Space.{Shown};
ghost use Rattle.outcome_states.specs.Kept.{Flag};
ghost use Rattle.verdict.specs.Laws.{HasOneConditionOutcome};

/// Executions, a condition and the answers of checks and flags have one outcome.
pub fn outcome_is_one()
    ensures { (locations : List (List ℕ)) (executions : List Shown) (kind : Quantifier)
        (proposition : Formula) (observed : List Place) (checks : List (List Bool))
        (flags : List Flag)
        → HasOneConditionOutcome locations executions kind proposition observed checks flags }
{}
