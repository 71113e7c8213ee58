//! The drawings of a test under the models.

ghost use Rattle.std.specs.Prelude.{◌≡◌, ◌<◌, IfOk, OnOk, length, map, nat_lt};
ghost use Rattle.report_answers.specs.Drawn as drawn;
ghost use Rattle.report_answers.specs.Drawn.{IsDrawingOf, IsNextDrawing, AreTestDrawings};

use crate::models::KnownModel;
use std::alloc::{AllocError, Global};
use text_values::Test;
use verdict::{Outcome, OutcomeResult};
use why_forbidden::{DrawRequest, Format, Wanted, draw};

/// How many drawings may still be made, and how many cells have none for that.
#[derive(Clone, Copy)]
pub struct DrawingBudget {
    /// May still be made.
    pub left: u64,
    /// Cells without a drawing.
    pub left_out: u64,
}

// One that has what the test asks for: kept, or forbidden where none is kept.
fn request_of(positive: u64) -> DrawRequest
    ensures { result ≡ drawn.request_of positive }
{
    DrawRequest {
        wanted: if positive > 0 {
            Wanted::Shown
        } else {
            Wanted::Forbidden
        },
        skipped: 0,
        most: 1,
        format: Format::Figure,
    }
}

// The drawing of a test under a model; nothing of a refusal, and where no execution has what the
// test asks for.
fn drawing_of(
    alloc: Global,
    test: &Test,
    model: &KnownModel<'_>,
    outcome: &Outcome,
) -> Result<Vec<u8>, AllocError>
    ensures { IfOk result
        (λ v. IsDrawingOf test.now model.now.model outcome.now.result v.items) }
{
    match &outcome.result {
        OutcomeResult::Refused(_) => Ok(Vec::new(alloc)),
        OutcomeResult::Evaluated(found) => {
            draw(alloc, test, &model.model, request_of(found.positive))
        }
    }
}

fn is_among(drawings: &[Vec<u8>], drawing: &[u8]) -> bool
    ensures { result ≡ drawn.is_among (map (λ d. d.items) drawings.now) drawing.now }
{
    for other in drawings {
        if other.as_slice() == drawing {
            return true;
        }
    }
    false
}

// One more drawing is made, unless it stands before.
fn count_drawing(drawings: &[Vec<u8>], drawing: &[u8], budget: &mut DrawingBudget)
    ensures { budget.new
        ≡ drawn.with_drawing (map (λ d. d.items) drawings.now) drawing.now budget.old }
{
    if !drawing.is_empty() && !is_among(drawings, drawing) {
        budget.left = budget.left.saturating_sub(1);
    }
}

fn is_evaluated(outcome: &Outcome) -> bool
    ensures { result ≡ drawn.is_evaluated outcome.now.result }
{
    matches!(&outcome.result, OutcomeResult::Evaluated(_))
}

// No drawing, since no more may be made.
fn pass_over(outcome: &Outcome, budget: &mut DrawingBudget)
    ensures { budget.new ≡ drawn.without_drawing outcome.now.result budget.old }
{
    if is_evaluated(outcome) {
        budget.left_out = budget.left_out.saturating_add(1);
    }
}

// The drawing of the next cell, behind these; nothing where no more may be made.
fn next_drawing(
    alloc: Global,
    test: &Test,
    model: &KnownModel<'_>,
    outcome: &Outcome,
    drawings: &[Vec<u8>],
    budget: &mut DrawingBudget,
) -> Result<Vec<u8>, AllocError>
    ensures { IfOk result (λ v. IsNextDrawing (nat_lt 0 budget.old.left) test.now model.now.model
        outcome.now.result (map (λ d. d.items) drawings.now) budget.old v.items budget.new) }
{
    if budget.left == 0 {
        pass_over(outcome, budget);
        return Ok(Vec::new(alloc));
    }
    let drawing = drawing_of(alloc, test, model, outcome)?;
    count_drawing(drawings, &drawing, budget);
    Ok(drawing)
}

/// The drawing under each model; one that stands before is no more than that one. Errors: want of
/// memory.
pub fn drawings_of(
    alloc: Global,
    test: &Test,
    models: &[KnownModel<'_>],
    outcomes: &[Outcome],
    budget: &mut DrawingBudget,
) -> Result<Vec<Vec<u8>>, AllocError>
    requires { length models.now ≡ length outcomes.now }
    ensures { IfOk result (λ v. AreTestDrawings test.now budget.old models.now outcomes.now
        (map (λ d. d.items) v.items) budget.new) }
{
    let mut drawings: Vec<Vec<u8>> = Vec::with_capacity(alloc, models.len())?;
    for (index, model) in models.iter().enumerate() {
        let outcome = &outcomes[index];
        let drawing = next_drawing(alloc, test, model, outcome, &drawings, budget)?;
        drawings.push(drawing)?;
    }
    Ok(drawings)
}
