//! Many tests under many models: each space is made once, and each model is resolved once.

ghost use denote.Ref.{Bor};
ghost use Rattle.std.specs.Prelude.{List, IfOk};
ghost use Rattle.std.specs.Result.{ForOk};
ghost use Rattle.text_values.specs.declared.model.ModelText.{ModelText};
ghost use Rattle.cat_eval.specs.Tables.{IsOver};
ghost use Rattle.from_scratch.specs.Answers.{AreSoundItems};
ghost use Rattle.from_scratch.specs.Cell.{IsCell, IsEvaluationOver, OfModel};
ghost use Rattle.from_scratch.specs.FromScratch.{IsFromScratch};
ghost use Rattle.from_scratch.specs.Suites.{AreOutcomes, IsSpaceFor, IsResolvedAs, AreResolvedAs};

use crate::cell::{evaluated, refused};
use binding_graph::{ModelFault, ResolveFault, Resolved, resolve};
use candidates::{EvalRefusal, Space};
use cat_eval::Evaluator;
use std::alloc::{AllocError, Global};
use text_values::{ModelText, Test};
use verdict::{Outcome, Refusal};

/// The items of a model, or its first fault. Errors: want of memory.
fn items_of(alloc: Global, model: &ModelText) -> Result<Result<Resolved, ModelFault>, AllocError>
    ensures { IfOk result (IsResolvedAs model.now) }
{
    match resolve(alloc, model) {
        Ok(resolved) => Ok(Ok(resolved)),
        Err(ResolveFault::Refused(fault)) => Ok(Err(fault)),
        Err(ResolveFault::OutOfMemory(e)) => Err(e),
    }
}

/// The items of each model, or its first fault. Errors: want of memory.
pub fn resolved_models(
    alloc: Global,
    models: &[&ModelText],
) -> Result<Vec<Result<Resolved, ModelFault>>, AllocError>
    ensures { IfOk result (λ v. AreResolvedAs models.now v.items) }
{
    let mut all = Vec::with_capacity(alloc, models.len())?;
    for model in models {
        all.push(items_of(alloc, *model)?)?;
    }
    Ok(all)
}

/// What the test says over its candidates.
fn over_space(
    alloc: Global,
    evaluator: &mut Evaluator,
    test: &Test,
    resolved: &Resolved,
    space: &Result<Space, EvalRefusal>,
) -> Result<Outcome, AllocError>
    requires space { IsSpaceFor test.now space.now }
    requires over { ForOk space.now (IsOver evaluator.old) }
    ensures over { ForOk space.now (IsOver evaluator.new) }
    ensures cell { IfOk result (λ o. IsCell test.now o) }
    ensures model { IfOk result (λ o. OfModel (λ _. ⊥) (Unit {0})
        (λ e. AreSoundItems resolved.now.items.items
        → IsEvaluationOver resolved.now.items.items test.now e) o.result) }
{
    match space {
        Ok(space) => evaluated(alloc, evaluator, test, resolved, space),
        Err(refusal) => refused(alloc, test, Refusal::Space(*refusal)),
    }
}

/// What the test says under a model.
fn under_model(
    alloc: Global,
    evaluator: &mut Evaluator,
    test: &Test,
    space: &Result<Space, EvalRefusal>,
    model: &Result<Resolved, ModelFault>,
) -> Result<Outcome, AllocError>
    requires space { IsSpaceFor test.now space.now }
    requires over { ForOk space.now (IsOver evaluator.old) }
    ensures over { ForOk space.now (IsOver evaluator.new) }
    ensures outcome { (text : ModelText) → IsResolvedAs text model.now
        → IfOk result (IsFromScratch test.now text) }
{
    match model {
        Ok(resolved) => over_space(alloc, evaluator, test, resolved, space),
        Err(fault) => refused(alloc, test, Refusal::Model(*fault)),
    }
}

/// What the test says over its space under each model. Errors: want of memory.
#[inline(never)]
pub fn each_model(
    alloc: Global,
    test: &Test,
    space: &Result<Space, EvalRefusal>,
    models: &[Result<Resolved, ModelFault>],
) -> Result<Vec<Outcome>, AllocError>
    requires { IsSpaceFor test.now space.now }
    ensures { (texts : List (Bor ModelText)) → AreResolvedAs texts models.now
        → IfOk result (λ v. AreOutcomes texts test.now v.items) }
{
    let mut evaluator = Evaluator::new(alloc);
    let mut outcomes = Vec::with_capacity(alloc, models.len())?;
    for model in models {
        outcomes.push(under_model(alloc, &mut evaluator, test, space, model)?)?;
    }
    Ok(outcomes)
}
