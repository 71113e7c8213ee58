//! How far the cells are settled that a question asks for.

ghost use Rattle.std.specs.Prelude.{◌≡◌, ◌∷◌, [], length};
ghost use Rattle.bench_texts.specs.Held.{texts_of};
ghost use Rattle.board.specs.Contents.{cell_at, shown_cell};
ghost use Rattle.session_views.specs.Progress.{capped, is_settled, progress_of, settled_in_table, settled_under, table_progress};

use bench_texts::Texts;
use board::{Board, CellIndex};
use outcome_texts::Shown;
use session_answers::Progress;
use session_edits::Question;
use session_script::ScriptText;

// How many tests there are.
#[tactic(auto, using(crate::proofs::Settled::as_many))]
fn test_count(texts: &Texts) -> usize
    ensures { result ≡ length (texts_of texts.now).tests }
{
    texts.tests().len()
}

// Whether the cell at these indexes is settled.
#[tactic(auto, using(crate::proofs::Settled::shown_settled, crate::proofs::Settled::shown_open, crate::proofs::Settled::shown_none))]
fn is_settled(board: &Board, at: CellIndex) -> bool
    ensures { result ≡ is_settled (shown_cell (cell_at board.now.rows at.test at.model)) }
{
    match board.show_at(at) {
        Shown::Settled(_) => true,
        Shown::Open => false,
        Shown::NoCell => false,
    }
}

// How many cells of the model of a name are settled.
fn settled_under(texts: &Texts, board: &Board, name: &[u8]) -> usize
    ensures { result ≡ settled_under (texts_of texts.now) board.now name.now }
{
    let model = texts.model_index(name);
    let mut settled = 0usize;
    for test in 0..test_count(texts) {
        if is_settled(board, CellIndex { test, model }) {
            settled += 1;
        }
    }
    settled
}

// How many cells are settled under the models of these names.
fn settled_in_table(texts: &Texts, board: &Board, names: &[ScriptText]) -> usize
    ensures { result ≡ capped (settled_in_table (texts_of texts.now) board.now names.now) }
{
    let mut settled = 0usize;
    for name in names {
        settled = settled.saturating_add(settled_under(texts, board, name.as_bytes()));
    }
    settled
}

// How far the table under the models of these names is.
fn table_progress(texts: &Texts, board: &Board, names: &[ScriptText]) -> Progress
    ensures { result ≡ table_progress (texts_of texts.now) board.now names.now }
{
    Progress {
        settled: settled_in_table(texts, board, names),
        cells: test_count(texts).saturating_mul(names.len()),
        jobs: None,
    }
}

// How far the difference of the models of two names is.
fn difference_progress(
    texts: &Texts,
    board: &Board,
    first: &ScriptText,
    second: &ScriptText,
) -> Progress
    ensures { result ≡ table_progress (texts_of texts.now) board.now (first.now ∷ second.now ∷ []) }
{
    let settled = settled_under(texts, board, first.as_bytes());
    Progress {
        settled: settled.saturating_add(settled_under(texts, board, second.as_bytes())),
        cells: test_count(texts).saturating_mul(2),
        jobs: None,
    }
}

/// How far a table is, or the difference of two models, that a question asks for: how many of its
/// cells are settled, and how many it has. None for a question about one cell or about items.
pub fn board_progress(texts: &Texts, board: &Board, question: &Question) -> Option<Progress>
    ensures { result ≡ progress_of (texts_of texts.now) board.now question.now }
{
    match question {
        Question::Table { models } => Some(table_progress(texts, board, models.as_slice())),
        Question::Difference { first, second } => {
            Some(difference_progress(texts, board, first, second))
        }
        Question::Items { .. } => None,
        Question::Show { .. } => None,
        Question::Counts { .. } => None,
    }
}
