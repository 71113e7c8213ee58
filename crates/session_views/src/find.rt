//! Tests and models by their names, and the outcomes of their cells.

ghost use Rattle.std.specs.Prelude.{◌≡◌, IfOk, IfSome, IfNone, All, Some, map, option_map, slice_get};
ghost use Rattle.text_values.specs.TestValue.{content_of};
ghost use Rattle.bench_texts.specs.BenchTexts.{model_index};
ghost use Rattle.bench_texts.specs.Held.{plain_model, texts_of};
ghost use Rattle.board.specs.Contents.{cell_at};
ghost use Rattle.session_answers.specs.Cells.{IsPlainOutcome, test_named, model_named, models_named};
ghost use Rattle.session_views.specs.Asked.{IsModelAt, asked_index, asked_model};
ghost use Rattle.session_views.specs.Shown.{ShowsTexts};
ghost use Rattle.session_views.specs.Waiting.{IsOpenAt, IsUnsettled, model_indexes};

use bench_texts::{NamedModel, Texts};
use board::{Board, CellIndex};
use outcome_texts::Shown;
use session_script::ScriptText;
use std::alloc::{AllocError, Global};
use text_values::Test;
use verdict::Outcome;

/// A model of the texts, and its index.
#[derive(Clone, Copy)]
pub(crate) struct AskedModel<'t> {
    /// The model.
    pub(crate) model: &'t NamedModel,
    /// Its index.
    pub(crate) index: usize,
}

// The outcome of a cell, if it is settled.
#[tactic(auto, using(crate::proofs::Cells::settled_cell, crate::proofs::Opening::open_cell, crate::proofs::Opening::no_cell))]
fn settled_at<'b>(board: &'b Board, at: CellIndex) -> Option<&'b Outcome>
    ensures settled { IfSome result (λ o. cell_at board.now.rows at.test at.model
        ≡ Some (Some o.now)) }
    ensures unsettled { IfNone result (IsUnsettled (cell_at board.now.rows at.test at.model)) }
{
    match board.show_at(at) {
        Shown::Settled(outcome) => Some(outcome),
        Shown::Open => None,
        Shown::NoCell => None,
    }
}

/// The outcome of a test, by its index, under a model, if its cell is settled, and none where it is
/// open.
#[tactic(auto, using(crate::proofs::Cells::right_cell))]
pub(crate) fn asked_outcome<'b>(
    texts: &Texts,
    board: &'b Board,
    index: usize,
    test: &Test,
    asked: &AskedModel<'_>,
) -> Option<&'b Outcome>
    requires shows { ShowsTexts (texts_of texts.now) board.now }
    requires test { slice_get (texts_of texts.now).tests index ≡ Some (content_of test.now) }
    requires model { IsModelAt texts.now asked.now }
    ensures settled { IfSome result (λ o.
        IsPlainOutcome (content_of test.now) (asked_model asked.now) o.now) }
    ensures waits { IfNone result (IsOpenAt board.now index asked.now.index) }
{
    let _texts = texts;
    let _test = test;
    settled_at(
        board,
        CellIndex {
            test: index,
            model: asked.index,
        },
    )
}

/// The test of a name, if there is one.
pub(crate) fn named_test<'t>(texts: &'t Texts, name: &[u8]) -> Option<&'t Test>
    ensures { option_map (λ t. content_of t.now) result ≡ test_named (texts_of texts.now) name.now }
{
    texts.tests().get(texts.test_index(name))
}

// The model at an index, if there is one.
fn model_at<'t>(texts: &'t Texts, index: usize) -> Option<&'t NamedModel>
    ensures { option_map (λ m. plain_model m.now) result
        ≡ slice_get (texts_of texts.now).models index }
{
    texts.models().get(index)
}

/// The model of a name, with its index, if there is one.
pub(crate) fn named_model<'t>(texts: &'t Texts, name: &[u8]) -> Option<AskedModel<'t>>
    ensures named { option_map asked_model result ≡ model_named (texts_of texts.now) name.now }
    ensures there { IfSome result (IsModelAt texts.now) }
    ensures index { IfSome result (λ a. a.index
        ≡ model_index name.now (texts_of texts.now).models) }
{
    let index = texts.model_index(name);
    match model_at(texts, index) {
        Some(model) => Some(AskedModel { model, index }),
        None => None,
    }
}

/// The models of these names with their indexes, if all are there. Errors: out of memory.
pub(crate) fn named_models<'t>(
    alloc: Global,
    texts: &'t Texts,
    names: &[ScriptText],
) -> Result<Option<Vec<AskedModel<'t>>>, AllocError>
    ensures named { IfOk result (λ found. option_map (λ v. map asked_model v.items) found
        ≡ models_named (texts_of texts.now) names.now) }
    ensures there { IfOk result (λ found. IfSome found (λ v. All (IsModelAt texts.now) v.items)) }
    ensures indexes { IfOk result (λ found. IfSome found (λ v. map asked_index v.items
        ≡ model_indexes (texts_of texts.now) names.now)) }
{
    let mut found = Vec::with_capacity(alloc, names.len())?;
    for name in names {
        match named_model(texts, name.as_bytes()) {
            Some(model) => found.push(model)?,
            None => return Ok(None),
        }
    }
    Ok(Some(found))
}
