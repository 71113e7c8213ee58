//! The outcomes of tests under models, each as if it were evaluated from nothing.

ghost use denote.Ref.{Bor};
ghost use Rattle.std.specs.Prelude.{List, IfOk};
ghost use Rattle.std.specs.List.{AllZip};
ghost use Rattle.from_scratch.specs.Suites.{AreResolvedAs};
ghost use Rattle.session_answers.specs.Rows.{HasOutcomes};

use crate::progress::{Progress, ProgressListener};
use crate::rows::TestOutcomes;
use binding_graph::{ModelFault, Resolved};
use cut_spaces::eval_row;
use from_scratch::resolved_models;
use std::alloc::{AllocError, Global};
use text_values::{ModelText, Test};

/// The outcomes of a test under models that are resolved. Errors: out of memory.
pub fn outcomes_of(
    alloc: Global,
    test: &Test,
    models: &[Result<Resolved, ModelFault>],
) -> Result<TestOutcomes, AllocError>
    ensures { (texts : List (Bor ModelText)) → AreResolvedAs texts models.now
        → IfOk result (HasOutcomes texts test.now) }
{
    Ok(TestOutcomes {
        name: test.name.copied(alloc)?,
        outcomes: eval_row(alloc, test, models)?,
    })
}

/// Tells that so many rows are evaluated, each by one job.
pub fn tell_rows<L: ProgressListener>(listener: &mut L, rows: usize, tests: usize, models: usize) {
    if listener.is_due() {
        listener.hear_progress(Progress {
            settled: rows.saturating_mul(models),
            cells: tests.saturating_mul(models),
            jobs: Some(rows as u64),
        });
    }
}

fn each_test<L: ProgressListener>(
    alloc: Global,
    tests: &[Test],
    models: &[Result<Resolved, ModelFault>],
    listener: &mut L,
) -> Result<Vec<TestOutcomes>, AllocError>
    ensures { (texts : List (Bor ModelText)) → AreResolvedAs texts models.now
        → IfOk result (λ v. AllZip (HasOutcomes texts) tests.now v.items) }
{
    let mut rows = Vec::with_capacity(alloc, tests.len())?;
    tell_rows(listener, 0, tests.len(), models.len());
    for test in tests {
        rows.push(outcomes_of(alloc, test, models)?)?;
        tell_rows(listener, rows.len(), tests.len(), models.len());
    }
    Ok(rows)
}

/// The outcomes of each test under the models, each of which is resolved once; the candidates of a
/// test are made once. A listener hears how far it is, a job being a test under all models. Errors:
/// out of memory.
pub fn test_outcomes<L: ProgressListener>(
    alloc: Global,
    tests: &[Test],
    models: &[&ModelText],
    listener: &mut L,
) -> Result<Vec<TestOutcomes>, AllocError>
    ensures { IfOk result (λ v. AllZip (HasOutcomes models.now) tests.now v.items) }
{
    let resolved = resolved_models(alloc, models)?;
    let rows = each_test(alloc, tests, &resolved, listener);
    listener.hear_end();
    rows
}
