//! Laws of solved nodes.

ghost use Rattle.from_scratch.specs.FromScratch.{IsFromScratch};
ghost use Rattle.bench_edits.specs.Solved.{SolvedCell, IsCellSolved, IsSolvedFault};

use text_values::{ModelText, Test};
use verdict::Outcome;

/// Where the nodes under a verdict are solved, under a model without fault, the outcome is what
/// evaluating the test from nothing gives.
pub fn solved_is_from_scratch(test: &Test, model: &ModelText)
    ensures { (cell : SolvedCell) → IsCellSolved test.now model.now cell
        → IsFromScratch test.now model.now cell.outcome }
{
    let _test = test;
    let _model = model;
}

/// Under a model with a fault, so is what the verdict gives of that fault.
pub fn fault_is_from_scratch(test: &Test, model: &ModelText, outcome: &Outcome)
    ensures { IsSolvedFault test.now model.now outcome.now
        → IsFromScratch test.now model.now outcome.now }
{
    let _test = test;
    let _model = model;
    let _outcome = outcome;
}
