//! From candidates, checks and flags to an outcome.

ghost use Rattle.std.specs.Prelude.{◌≡◌, ℕ, ◌<◌, ◌&&◌, ◌++◌, Bool, List, [], ◌∷◌, false, if◌then◌else◌, IfOk, OnOk, min, ◌-◌, ◌^◌, length, map, vec_len, slice_index_or};
ghost use Rattle.std.specs.List.{list_any, All};
ghost use Rattle.std.specs.List.Sorted.{IsStrictlySortedBy};
ghost use Rattle.candidate_spaces.specs.Space.{shown_in};
ghost use Rattle.text_values.specs.TestValue.{formula_of};
ghost use Rattle.outcome_states.specs.Counting.{pairs_of, pairs_in};
ghost use Rattle.outcome_states.specs.Kept.{holds_at, is_kept, AreKeptBy, holds_on_some, of_raised, names_of_flags};
ghost use Rattle.outcome_states.specs.Names.{is_name};
ghost use Rattle.verdict.specs.Evaluated.{values_of, IsWorded, AreEndStates, IsEvaluation, IsOutcomeOn};
ghost use Rattle.outcome_states.specs.Order.{state_cmp};
ghost use Rattle.verdict.specs.Judgement.{is_same_truth, total_of, observation_of, is_met, IsJudged, IsOutcomeOf};

use candidates::Space;
use litmus_printing::print_condition;
use outcome_states::final_states::final_states;
use outcome_states::state_text::state_text;
use outcome_states::{
    CountedState, Evaluation, Formula, Observable, Observation, Outcome, OutcomeResult, Raised,
    StateCounts, formula_over, satisfies, shown_observables,
};
use std::alloc::{AllocError, Global};
use text_values::{Condition, Name, Place, Quantifier};

// Drops the candidates on which the check does not hold.
fn keep_where(kept: &mut [bool], holds: &[bool])
    ensures { (k : ℕ) → k < length kept.old
        → slice_index_or kept.new k false
        ≡ (slice_index_or kept.old k false && holds_at k holds.now) }
{
    for (index, keep) in kept.iter_mut().enumerate() {
        *keep = *keep && holds.get(index).copied() == Some(true);
    }
}

// Whether all checks hold, for each candidate.
fn kept_candidates(
    alloc: Global,
    candidates: usize,
    checks: &[&[bool]],
) -> Result<Vec<bool>, AllocError>
    ensures len { IfOk result (λ v. vec_len v ≡ candidates) }
    ensures kept { IfOk result (λ v. (k : ℕ) → k < candidates
        → slice_index_or v.items k false ≡ is_kept (map (λ c. c.now) checks.now) k) }
{
    let mut kept = vec![in alloc; true; candidates]?;
    for holds in checks {
        keep_where(&mut kept, *holds);
    }
    Ok(kept)
}

fn holds_on_some(kept: &[bool], holds: &[bool]) -> bool
    ensures { result ≡ holds_on_some kept.now holds.now }
{
    kept.iter().zip(holds).any(|(kept, holds)| *kept && *holds)
}

fn is_among(names: &[Name], name: &Name) -> bool
    ensures { result ≡ list_any (is_name name.now) names.now }
{
    for known in names {
        if known.is_same(name) {
            return true;
        }
    }
    false
}

// Appends a name that is not there.
fn add_name(alloc: Global, names: &mut Vec<Name>, name: &Name) -> Result<(), AllocError>
    ensures { OnOk result (names.new.items
        ≡ names.old.items
        ++ (if list_any (is_name name.now) names.old.items then [] else name.now ∷ [])) }
{
    if !is_among(names, name) {
        names.push(name.copied(alloc)?)?;
    }
    Ok(())
}

fn raised_names(alloc: Global, kept: &[bool], flags: &[Raised]) -> Result<Vec<Name>, AllocError>
    ensures { IfOk result (λ v. v.items
        ≡ names_of_flags (λ f. holds_on_some kept.now f.1) (of_raised flags.now)) }
{
    let mut names: Vec<Name> = Vec::new(alloc);
    for flag in flags {
        if holds_on_some(kept, flag.holds) {
            add_name(alloc, &mut names, flag.name)?;
        }
    }
    Ok(names)
}

fn counted_states(
    alloc: Global,
    locations: &[Name],
    observables: &[Observable],
    formula: &Formula,
    counts: StateCounts,
) -> Result<Vec<CountedState>, AllocError>
    ensures counts { IfOk result (λ v. pairs_of v.items ≡ pairs_in counts.entries) }
    ensures words { IfOk result (λ v.
        All (IsWorded locations.now observables.now formula.now) v.items) }
    ensures rising { IfOk result (λ v. IsStrictlySortedBy state_cmp (values_of v.items)) }
{
    let mut states = Vec::new(alloc);
    for (values, count) in counts {
        let text = state_text(alloc, locations, observables, &values)?;
        let holds = satisfies(formula, &values);
        states.push(CountedState {
            values,
            text,
            count,
            holds,
        })?;
    }
    Ok(states)
}

// How many kept candidates end in the states on which the proposition comes out so, or the
// greatest number where that is less.
fn total(states: &[CountedState], holds: bool) -> u64
    ensures { result ≡ min (total_of (λ s. is_same_truth s.holds holds) states.now) (2 ^ 64 - 1) }
{
    let mut all = 0u64;
    for state in states {
        if state.holds == holds {
            all = all.saturating_add(state.count);
        }
    }
    all
}

fn observation(positive: u64, negative: u64) -> Observation
    ensures { result ≡ observation_of positive negative }
{
    if positive == 0 {
        Observation::Never
    } else if negative == 0 {
        Observation::Always
    } else {
        Observation::Sometimes
    }
}

fn is_met(quantifier: Quantifier, positive: u64, negative: u64) -> bool
    ensures { result ≡ is_met quantifier positive negative }
{
    match quantifier {
        Quantifier::Exists => positive > 0,
        Quantifier::NotExists => positive == 0,
        Quantifier::Forall => negative == 0,
    }
}

// The states in which the kept candidates end, rising by their values.
fn end_states(
    alloc: Global,
    space: &Space,
    condition: &Condition,
    observed: &[Place],
    kept: &[bool],
) -> Result<Vec<CountedState>, AllocError>
    ensures { IfOk result (λ v. AreEndStates space.now.locations.items (shown_in space.now)
        (formula_of condition.now.proposition) observed.now kept.now v.items) }
{
    let observables = shown_observables(alloc, &space.locations, &condition.proposition, observed)?;
    let formula = formula_over(
        alloc,
        &observables,
        &space.locations,
        &condition.proposition,
    )?;
    let counts = final_states(alloc, space, kept, &observables)?;
    let states = counted_states(alloc, &space.locations, &observables, &formula, counts)?;
    Ok(states)
}

fn evaluation(
    alloc: Global,
    space: &Space,
    condition: &Condition,
    observed: &[Place],
    kept: &[bool],
    flags: &[Raised],
) -> Result<Evaluation, AllocError>
    ensures said { (checks : List (List Bool))
        → AreKeptBy checks (length (shown_in space.now)) kept.now
        → IfOk result (λ e. IsEvaluation space.now.locations.items (shown_in space.now)
        condition.now.quantifier (formula_of condition.now.proposition) observed.now checks
        (of_raised flags.now) e) }
    ensures judged { IfOk result (IsJudged condition.now.quantifier) }
{
    let states = end_states(alloc, space, condition, observed, kept)?;
    let positive = total(&states, true);
    let negative = total(&states, false);
    Ok(Evaluation {
        states,
        positive,
        negative,
        observation: observation(positive, negative),
        ok: is_met(condition.quantifier, positive, negative),
        flags: raised_names(alloc, kept, flags)?,
    })
}

/// The outcome of a condition on the candidates that are kept: `kept` tells of each candidate of
/// the space whether all checks hold there. Each of the `flags` has one answer for each candidate.
/// Errors: out of memory.
pub fn outcome_kept(
    alloc: Global,
    space: &Space,
    condition: &Condition,
    observed: &[Place],
    kept: &[bool],
    flags: &[Raised],
) -> Result<Outcome, AllocError>
    ensures whole { (checks : List (List Bool))
        → AreKeptBy checks (length (shown_in space.now)) kept.now
        → IfOk result (λ o. IsOutcomeOn space.now.locations.items (shown_in space.now)
        condition.now.quantifier (formula_of condition.now.proposition) observed.now checks
        (of_raised flags.now) o) }
    ensures judged { IfOk result (λ o. IsOutcomeOf condition.now.quantifier o) }
{
    let found = evaluation(alloc, space, condition, observed, kept, flags)?;
    Ok(Outcome {
        kind: condition.quantifier,
        condition: print_condition(alloc, condition)?,
        result: OutcomeResult::Evaluated(found),
    })
}

/// The outcome of a condition on the candidates on which all checks hold. `checks` and `flags` are
/// in the order of the model, each with one answer for each candidate of the space. Errors: out of
/// memory.
pub fn outcome(
    alloc: Global,
    space: &Space,
    condition: &Condition,
    observed: &[Place],
    checks: &[&[bool]],
    flags: &[Raised],
) -> Result<Outcome, AllocError>
    ensures whole { IfOk result (λ o. IsOutcomeOn space.now.locations.items (shown_in space.now)
        condition.now.quantifier (formula_of condition.now.proposition) observed.now
        (map (λ c. c.now) checks.now) (of_raised flags.now) o) }
    ensures judged { IfOk result (λ o. IsOutcomeOf condition.now.quantifier o) }
{
    let kept = kept_candidates(alloc, space.len(), checks)?;
    outcome_kept(alloc, space, condition, observed, &kept, flags)
}
