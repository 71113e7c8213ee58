//! Laws of settled cells.

ghost use Rattle.std.specs.Prelude.{List};
ghost use Rattle.memo_core.specs.Graph.{Memo, Net};
ghost use Rattle.from_scratch.specs.FromScratch.{IsFromScratch};
ghost use Rattle.bench_values.specs.Givens.{GivenContent};
ghost use Rattle.bench_values.specs.Values.{NodeContent};
ghost use Rattle.bench_edits.specs.Settled.{AreNodesSolved, IsSettledVerdict, IsSettledFault};

use text_values::{ModelText, Test};
use verdict::Outcome;

/// Where settled nodes hold what is made of the present, the outcome of a settled cell, under a
/// model without fault, is what evaluating the test from nothing gives.
pub fn settled_is_from_scratch(test: &Test, model: &ModelText, outcome: &Outcome)
    ensures { (net : Net GivenContent) (memos : List (Memo NodeContent)) → AreNodesSolved net memos
        → IsSettledVerdict test.now model.now net memos outcome.now
        → IsFromScratch test.now model.now outcome.now }
{
    let _test = test;
    let _model = model;
    let _outcome = outcome;
}

/// Under a model with a fault, so is the outcome of its settled verdict.
pub fn settled_fault_is_from_scratch(test: &Test, model: &ModelText, outcome: &Outcome)
    ensures { (net : Net GivenContent) (memos : List (Memo NodeContent)) → AreNodesSolved net memos
        → IsSettledFault test.now model.now net memos outcome.now
        → IsFromScratch test.now model.now outcome.now }
{
    let _test = test;
    let _model = model;
    let _outcome = outcome;
}
