//! A test under a model, and many tests under many.

ghost use denote.Ref.{Bor};
ghost use Rattle.std.specs.Prelude.{List, IfOk};
ghost use Rattle.text_values.specs.declared.model.ModelText.{ModelText};
ghost use Rattle.candidates.specs.Parts.{AreSpaceParts};
ghost use Rattle.verdict.specs.Evaluated.{IsEvaluatedAs};
ghost use Rattle.from_scratch.specs.Answers.{AreSoundItems};
ghost use Rattle.from_scratch.specs.Cell.{IsSaidFromSome, IsEvaluationBy};
ghost use Rattle.from_scratch.specs.FromScratch.{IsFaultless, AreItemsOf, IsFromScratch};
ghost use Rattle.from_scratch.specs.Suites.{AreOutcomes, AreSuiteRows, IsResolvedAs, AreResolvedAs};
ghost use Rattle.cut_spaces.specs.Spaces.{ArePartsFor};

use crate::cut::{may_pay, space_of};
use crate::tried::tried;
use binding_graph::{ModelFault, ResolveFault, Resolved, resolve};
use candidates::{EvalRefusal, Space, SpaceFault, SpaceParts, parts};
use cat_eval::Evaluator;
use from_scratch::{each_model, evaluated, refused, resolved_models};
use std::alloc::{AllocError, Global};
use text_values::{ModelText, Test};
use verdict::{Outcome, Refusal};

/// What the candidates of a test are made of, or why it has none. Errors: want of memory.
fn parts_for(alloc: Global, test: &Test) -> Result<Result<SpaceParts, EvalRefusal>, AllocError>
    ensures { IfOk result (ArePartsFor test.now) }
{
    match parts(alloc, test) {
        Ok(parts) => Ok(Ok(parts)),
        Err(SpaceFault::Refused(refusal)) => Ok(Err(refusal)),
        Err(SpaceFault::OutOfMemory(e)) => Err(e),
    }
}

/// What the test says over the space, by an evaluator of its own. Where it is inlined, the memory
/// of that is cleared three times.
#[inline(never)]
fn over_space(
    alloc: Global,
    test: &Test,
    resolved: &Resolved,
    space: &Space,
) -> Result<Outcome, AllocError>
    ensures said { IfOk result (λ o. IsSaidFromSome space.now test.now o) }
    ensures answers { AreSoundItems resolved.now.items.items
        → IfOk result (λ o. IsEvaluatedAs
        (IsEvaluationBy resolved.now.items.items space.now test.now) o.result) }
{
    evaluated(alloc, &mut Evaluator::new(alloc), test, resolved, space)
}

/// What the test says over its candidates.
fn over_parts(
    alloc: Global,
    test: &Test,
    resolved: &Resolved,
    parts: SpaceParts,
) -> Result<Outcome, AllocError>
    requires { AreSpaceParts test.now parts }
    ensures { (text : ModelText) → IsFaultless text → AreItemsOf text resolved.now.items.items
        → IfOk result (IsFromScratch test.now text) }
{
    let space = space_of(alloc, parts, &resolved.items)?;
    over_space(alloc, test, resolved, &space)
}

/// What the test says over its candidates, or why it has none.
#[inline(never)]
fn over_candidates(alloc: Global, test: &Test, resolved: &Resolved) -> Result<Outcome, AllocError>
    ensures { (text : ModelText) → IsFaultless text → AreItemsOf text resolved.now.items.items
        → IfOk result (IsFromScratch test.now text) }
{
    match parts_for(alloc, test)? {
        Ok(parts) => over_parts(alloc, test, resolved, parts),
        Err(refusal) => refused(alloc, test, Refusal::Space(refusal)),
    }
}

/// What the test says under the model: a fault of the model first, then a refusal of the test, and
/// else the evaluation of all its candidates. Errors: want of memory.
pub fn eval_cell(alloc: Global, test: &Test, model: &ModelText) -> Result<Outcome, AllocError>
    ensures { IfOk result (IsFromScratch test.now model.now) }
{
    match resolve(alloc, model) {
        Ok(resolved) => over_candidates(alloc, test, &resolved),
        Err(ResolveFault::Refused(fault)) => refused(alloc, test, Refusal::Model(fault)),
        Err(ResolveFault::OutOfMemory(e)) => Err(e),
    }
}

/// What the test says under a model.
fn under_model(
    alloc: Global,
    test: &Test,
    model: &Result<Resolved, ModelFault>,
) -> Result<Outcome, AllocError>
    ensures { (text : ModelText) → IsResolvedAs text model.now
        → IfOk result (IsFromScratch test.now text) }
{
    match model {
        Ok(resolved) => over_candidates(alloc, test, resolved),
        Err(fault) => refused(alloc, test, Refusal::Model(*fault)),
    }
}

/// What the test says under each model, over candidates of its own.
fn each_alone(
    alloc: Global,
    test: &Test,
    models: &[Result<Resolved, ModelFault>],
) -> Result<Vec<Outcome>, AllocError>
    ensures { (texts : List (Bor ModelText)) → AreResolvedAs texts models.now
        → IfOk result (λ v. AreOutcomes texts test.now v.items) }
{
    let mut outcomes = Vec::with_capacity(alloc, models.len())?;
    for model in models {
        outcomes.push(under_model(alloc, test, model)?)?;
    }
    Ok(outcomes)
}

/// Whether it may pay to evaluate each model over candidates of its own: rows are tried under half
/// of the models or more. The others would share their candidates. Errors: want of memory.
fn may_pay_under(
    alloc: Global,
    parts: &SpaceParts,
    models: &[Result<Resolved, ModelFault>],
) -> Result<bool, AllocError> {
    if !may_pay(parts) {
        return Ok(false);
    }
    let mut cut = 0usize;
    let mut whole = 0usize;
    for model in models {
        if let Ok(resolved) = model {
            match tried(alloc, &resolved.items)? {
                Some(_) => cut = cut.saturating_add(1),
                None => whole = whole.saturating_add(1),
            }
        }
    }
    Ok(cut > 0 && cut >= whole)
}

/// What the test says under each model, whose items are resolved: as `eval_cell` gives it. Errors:
/// want of memory.
pub fn eval_row(
    alloc: Global,
    test: &Test,
    models: &[Result<Resolved, ModelFault>],
) -> Result<Vec<Outcome>, AllocError>
    ensures { (texts : List (Bor ModelText)) → AreResolvedAs texts models.now
        → IfOk result (λ v. AreOutcomes texts test.now v.items) }
{
    match parts_for(alloc, test)? {
        Err(refusal) => each_model(alloc, test, &Err(refusal), models),
        Ok(parts) => {
            if may_pay_under(alloc, &parts, models)? {
                return each_alone(alloc, test, models);
            }
            let space = parts.whole(alloc)?;
            each_model(alloc, test, &Ok(space), models)
        }
    }
}

/// What each test says under each model.
fn each_test(
    alloc: Global,
    tests: &[Test],
    models: &[Result<Resolved, ModelFault>],
) -> Result<Vec<Vec<Outcome>>, AllocError>
    ensures { (texts : List (Bor ModelText)) → AreResolvedAs texts models.now
        → IfOk result (λ rows. AreSuiteRows texts tests.now rows.items) }
{
    let mut rows = Vec::with_capacity(alloc, tests.len())?;
    for test in tests {
        rows.push(eval_row(alloc, test, models)?)?;
    }
    Ok(rows)
}

/// What each test says under each model: for each test one outcome a model, as `eval_cell` gives
/// it. A model is resolved once. Errors: want of memory.
pub fn eval_suite(
    alloc: Global,
    tests: &[Test],
    models: &[&ModelText],
) -> Result<Vec<Vec<Outcome>>, AllocError>
    ensures { IfOk result (λ rows. AreSuiteRows models.now tests.now rows.items) }
{
    let resolved = resolved_models(alloc, models)?;
    each_test(alloc, tests, &resolved)
}
