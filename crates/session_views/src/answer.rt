//! The answers to questions, from a board.

ghost use Rattle.std.specs.Prelude.{◌≡◌, IfOk, IfSome, IfNone, All, Some, map, option_map, slice_get};
ghost use Rattle.text_values.specs.TestValue.{content_of};
ghost use Rattle.bench_texts.specs.Held.{texts_of};
ghost use Rattle.session_answers.specs.Cells.{models_named};
ghost use Rattle.session_answers.specs.Questions.{IsItemsReply, IsLogReply, IsCountsReply, IsTableReply, IsDifferenceReply, IsReply};
ghost use Rattle.session_views.specs.Asked.{IsModelAt, asked_index, asked_model};
ghost use Rattle.session_views.specs.Shown.{ShowsTexts};
ghost use Rattle.session_views.specs.Waiting.{IsAwaiting, IsOpenAmong, IsOpenAt, IsOpenUnder, model_indexes};

use crate::find::{AskedModel, asked_outcome, named_model, named_models, named_test};
use crate::rows::{asked_rows, row_pairs};
use bench_texts::{EditFault, Texts};
use board::Board;
use outcome_texts::{Shown, counts_text, difference_text, log_text, table_text};
use session_edits::{Answer, Question, refused_edit};
use session_script::ScriptText;
use std::alloc::{AllocError, Global};
use text_values::{Name, Test};

fn items(alloc: Global, model: Option<AskedModel<'_>>) -> Result<Answer, AllocError>
    ensures { IfOk result (IsItemsReply (option_map asked_model model.entry)) }
{
    match model {
        Some(asked) => Ok(Answer::plain(asked.model.print_items(alloc)?)),
        None => refused_edit(alloc, EditFault::NoModel),
    }
}

/// The cell that a question asks for: a board, the texts that it shows, and the index of the test.
#[derive(Clone, Copy)]
struct CellView<'t> {
    texts: &'t Texts,
    board: &'t Board,
    index: usize,
}

fn log_under(
    alloc: Global,
    view: CellView<'_>,
    test: &Test,
    asked: &AskedModel<'_>,
) -> Result<Option<Answer>, AllocError>
    requires shows { ShowsTexts (texts_of view.texts.now) view.board.now }
    requires test { slice_get (texts_of view.texts.now).tests view.index
        ≡ Some (content_of test.now) }
    requires model { IsModelAt view.texts.now asked.now }
    ensures answer { IfOk result (λ r.
        IfSome r (IsLogReply (Some (content_of test.now)) (Some (asked_model asked.now)))) }
    ensures waits { IfOk result (λ r.
        IfNone r (IsOpenAt view.entry.board.now view.entry.index asked.now.index)) }
{
    match asked_outcome(view.texts, view.board, view.index, test, asked) {
        Some(outcome) => {
            let text = log_text(alloc, test.name.as_bytes(), Shown::Settled(outcome))?;
            Ok(Some(Answer::plain(text)))
        }
        None => Ok(None),
    }
}

fn log(
    alloc: Global,
    view: CellView<'_>,
    test: Option<&Test>,
    model: Option<AskedModel<'_>>,
) -> Result<Option<Answer>, AllocError>
    requires shows { ShowsTexts (texts_of view.texts.now) view.board.now }
    requires test { IfSome test (λ t. slice_get (texts_of view.texts.now).tests view.index
        ≡ Some (content_of t.now)) }
    requires model { IfSome model (IsModelAt view.texts.now) }
    ensures answer { IfOk result (λ r. IfSome r (IsLogReply
        (option_map (λ t. content_of t.now) test.entry)
        (option_map asked_model model.entry))) }
    ensures waits { IfOk result (λ r. IfNone r (IsOpenUnder view.entry.board.now view.entry.index
        (option_map asked_index model.entry))) }
{
    match test {
        Some(test) => match model {
            Some(model) => log_under(alloc, view, test, &model),
            None => Ok(Some(refused_edit(alloc, EditFault::NoModel)?)),
        },
        None => Ok(Some(refused_edit(alloc, EditFault::NoTest)?)),
    }
}

fn counts_under(
    alloc: Global,
    view: CellView<'_>,
    test: &Test,
    asked: &AskedModel<'_>,
) -> Result<Option<Answer>, AllocError>
    requires shows { ShowsTexts (texts_of view.texts.now) view.board.now }
    requires test { slice_get (texts_of view.texts.now).tests view.index
        ≡ Some (content_of test.now) }
    requires model { IsModelAt view.texts.now asked.now }
    ensures answer { IfOk result (λ r.
        IfSome r (IsCountsReply (Some (content_of test.now)) (Some (asked_model asked.now)))) }
    ensures waits { IfOk result (λ r.
        IfNone r (IsOpenAt view.entry.board.now view.entry.index asked.now.index)) }
{
    match asked_outcome(view.texts, view.board, view.index, test, asked) {
        Some(outcome) => {
            let text = counts_text(alloc, Shown::Settled(outcome))?;
            Ok(Some(Answer::plain(text)))
        }
        None => Ok(None),
    }
}

fn counts(
    alloc: Global,
    view: CellView<'_>,
    test: Option<&Test>,
    model: Option<AskedModel<'_>>,
) -> Result<Option<Answer>, AllocError>
    requires shows { ShowsTexts (texts_of view.texts.now) view.board.now }
    requires test { IfSome test (λ t. slice_get (texts_of view.texts.now).tests view.index
        ≡ Some (content_of t.now)) }
    requires model { IfSome model (IsModelAt view.texts.now) }
    ensures answer { IfOk result (λ r. IfSome r (IsCountsReply
        (option_map (λ t. content_of t.now) test.entry)
        (option_map asked_model model.entry))) }
    ensures waits { IfOk result (λ r. IfNone r (IsOpenUnder view.entry.board.now view.entry.index
        (option_map asked_index model.entry))) }
{
    match test {
        Some(test) => match model {
            Some(model) => counts_under(alloc, view, test, &model),
            None => Ok(Some(refused_edit(alloc, EditFault::NoModel)?)),
        },
        None => Ok(Some(refused_edit(alloc, EditFault::NoTest)?)),
    }
}

fn names_of(alloc: Global, words: &[ScriptText]) -> Result<Vec<Name>, AllocError>
    ensures { IfOk result (λ v. v.items ≡ words.now) }
{
    let mut names = Vec::with_capacity(alloc, words.len())?;
    for word in words {
        names.push(Name::new(alloc, word.as_bytes())?)?;
    }
    Ok(names)
}

fn table_under(
    alloc: Global,
    texts: &Texts,
    board: &Board,
    names: &[ScriptText],
    models: &[AskedModel<'_>],
) -> Result<Option<Answer>, AllocError>
    requires shows { ShowsTexts (texts_of texts.now) board.now }
    requires models { All (IsModelAt texts.now) models.now }
    ensures answer { IfOk result (λ r.
        IfSome r
        (IsTableReply (texts_of texts.now) names.now (Some (map asked_model models.now)))) }
    ensures waits { IfOk result (λ r.
        IfNone r (IsOpenAmong board.now (map asked_index models.now))) }
{
    match asked_rows(alloc, texts, board, models)? {
        Some(rows) => {
            let names = names_of(alloc, names)?;
            Ok(Some(Answer::plain(table_text(alloc, &names, &rows)?)))
        }
        None => Ok(None),
    }
}

fn table(
    alloc: Global,
    texts: &Texts,
    board: &Board,
    names: &[ScriptText],
) -> Result<Option<Answer>, AllocError>
    requires { ShowsTexts (texts_of texts.now) board.now }
    ensures answer { IfOk result (λ r. IfSome r (IsTableReply (texts_of texts.now) names.now
        (models_named (texts_of texts.now) names.now))) }
    ensures waits { IfOk result (λ r.
        IfNone r (IsOpenAmong board.now (model_indexes (texts_of texts.now) names.now))) }
{
    match named_models(alloc, texts, names)? {
        Some(models) => table_under(alloc, texts, board, names, &models),
        None => Ok(Some(refused_edit(alloc, EditFault::NoModel)?)),
    }
}

fn difference_under(
    alloc: Global,
    texts: &Texts,
    board: &Board,
    models: &[AskedModel<'_>],
) -> Result<Option<Answer>, AllocError>
    requires shows { ShowsTexts (texts_of texts.now) board.now }
    requires models { All (IsModelAt texts.now) models.now }
    ensures answer { IfOk result (λ r.
        IfSome r (IsDifferenceReply (texts_of texts.now) (Some (map asked_model models.now)))) }
    ensures waits { IfOk result (λ r.
        IfNone r (IsOpenAmong board.now (map asked_index models.now))) }
{
    match asked_rows(alloc, texts, board, models)? {
        Some(rows) => {
            let pairs = row_pairs(alloc, &rows)?;
            Ok(Some(Answer::plain(difference_text(alloc, &pairs)?)))
        }
        None => Ok(None),
    }
}

fn difference(
    alloc: Global,
    texts: &Texts,
    board: &Board,
    names: &[ScriptText],
) -> Result<Option<Answer>, AllocError>
    requires { ShowsTexts (texts_of texts.now) board.now }
    ensures answer { IfOk result (λ r. IfSome r (IsDifferenceReply (texts_of texts.now)
        (models_named (texts_of texts.now) names.now))) }
    ensures waits { IfOk result (λ r.
        IfNone r (IsOpenAmong board.now (model_indexes (texts_of texts.now) names.now))) }
{
    match named_models(alloc, texts, names)? {
        Some(models) => difference_under(alloc, texts, board, &models),
        None => Ok(Some(refused_edit(alloc, EditFault::NoModel)?)),
    }
}

/// The answer to a question about the texts that a board shows, or none while a cell is open that
/// it asks for. Errors: out of memory.
#[tactic(auto, using(crate::proofs::Opening::open_under))]
pub fn answer_from_board(
    alloc: Global,
    texts: &Texts,
    board: &Board,
    question: &Question,
) -> Result<Option<Answer>, AllocError>
    requires { ShowsTexts (texts_of texts.now) board.now }
    ensures answer { IfOk result (λ r. IfSome r (IsReply (texts_of texts.now) question.now)) }
    ensures waits { IfOk result (λ r.
        IfNone r (IsAwaiting (texts_of texts.now) board.now question.now)) }
{
    match question {
        Question::Items { model } => {
            Ok(Some(items(alloc, named_model(texts, model.as_bytes()))?))
        }
        Question::Show { test, model } => log(
            alloc,
            CellView {
                texts,
                board,
                index: texts.test_index(test.as_bytes()),
            },
            named_test(texts, test.as_bytes()),
            named_model(texts, model.as_bytes()),
        ),
        Question::Counts { test, model } => counts(
            alloc,
            CellView {
                texts,
                board,
                index: texts.test_index(test.as_bytes()),
            },
            named_test(texts, test.as_bytes()),
            named_model(texts, model.as_bytes()),
        ),
        Question::Table { models } => table(alloc, texts, board, models.as_slice()),
        Question::Difference { first, second } => difference(
            alloc,
            texts,
            board,
            &[first.copied(alloc)?, second.copied(alloc)?],
        ),
    }
}
