//! A test under the first two models.

ghost use Rattle.std.specs.Prelude.{◌≡◌, map};
ghost use Rattle.outcome_texts.specs.Cells.{cell_of};
ghost use Rattle.outcome_texts.specs.Differences.{pair_of};
ghost use Rattle.outcome_lines.specs.Records.{model_outcome_of, cell_at, model_at, pair_in};

use crate::record::ModelOutcome;
use outcome_texts::{Shown, TestPair};

fn cell_at<'a>(outcomes: &'a [ModelOutcome<'a>], index: usize) -> Shown<'a>
    ensures { cell_of result ≡ cell_at (map model_outcome_of outcomes.now) index }
{
    if index >= outcomes.len() {
        return Shown::NoCell;
    }
    Shown::Settled(outcomes[index].outcome)
}

/// The name of the model of this index; no bytes where there is none.
pub fn model_at<'a>(outcomes: &'a [ModelOutcome<'a>], index: usize) -> &'a [u8]
    ensures { result.now ≡ model_at (map model_outcome_of outcomes.now) index }
{
    if index >= outcomes.len() {
        return &[];
    }
    outcomes[index].model
}

/// The cells of a test under the first two models.
pub fn pair_in<'a>(test: &'a [u8], outcomes: &'a [ModelOutcome<'a>]) -> TestPair<'a>
    ensures { pair_of result ≡ pair_in test.now (map model_outcome_of outcomes.now) }
{
    TestPair {
        name: test,
        first: cell_at(outcomes, 0),
        second: cell_at(outcomes, 1),
    }
}
