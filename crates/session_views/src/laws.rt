//! Laws of who makes edits, keeps texts of its own and reads boards.

ghost use Rattle.std.specs.Prelude.{◌≡◌, ◌<◌, ◌≤◌, ◌+◌, ◌-◌, ◌^◌, ℕ, List, [], Some, false, slice_get};
ghost use mathlib.Core.List.{IsPrefix};
ghost use Rattle.text_values.specs.TestValue.{Content};
ghost use Rattle.outcome_states.specs.declared.answer.Outcome.{Outcome};
ghost use Rattle.bench_texts.specs.declared.edit.Edit.{Edit as CodeEdit};
ghost use Rattle.bench_texts.specs.BenchTexts.{BenchTexts, PlainModel, no_texts};
ghost use Rattle.bench_texts.specs.Edits.{Applies, edit_of};
ghost use Rattle.bench_texts.specs.Held.{texts_of};
ghost use Rattle.board.specs.declared.operation.BoardOp.{BoardOp};
ghost use Rattle.board.specs.Contents.{BoardContent, cell_at};
ghost use Rattle.board.specs.Operations.{board_after};
ghost use Rattle.board.specs.Legal.{IsLegal};
ghost use Rattle.session_answers.specs.Cells.{IsPlainOutcome};
ghost use Rattle.board.specs.Edits.{edit_count};
ghost use Rattle.memo_engine.specs.declared.graph.TheConstants.{LAST};
ghost use Rattle.session_views.specs.Knowing.{KnowsOwn, KnowsTexts, HasOwnEdit};
ghost use Rattle.session_views.specs.Shown.{ShowsTexts};

use bench_texts::Texts;

/// Who has seen nothing and made no edit knows its texts: there are none.
pub fn nothing_is_known()
    ensures { KnowsOwn [] 0 no_texts }
{}

/// Who sees more knows what it knew.
pub fn later_is_known()
    ensures { (seen later : List BoardOp) (made : ℕ) (t : BenchTexts) → IsPrefix seen later
        → KnowsOwn seen made t → KnowsOwn later made t }
{}

/// Who knows its texts makes an edit of them, and is told of it: it knows the texts with the edit.
pub fn own_edits_are_known(own: &Texts)
    ensures { (e : CodeEdit) (number : ℕ) (seen later : List BoardOp) (made : ℕ) (new : BenchTexts)
        → KnowsOwn seen made (texts_of own.now) → HasOwnEdit e number seen later
        → Applies (texts_of own.now) false (edit_of e) new → KnowsOwn later (made + 1) new }
{
    let _own = own;
}

/// The number of an edit that is told to who made it is above the count of those made before.
pub fn own_edits_are_few()
    ensures { (e : CodeEdit) (number : ℕ) (seen later : List BoardOp) (made : ℕ) (t : BenchTexts)
        → KnowsOwn seen made t → HasOwnEdit e number seen later → made < number }
{}

/// Who knows its texts and counts its edits makes one of them, under a number that edits may have,
/// and is told of it: it knows the texts with the edit, and counts it.
pub fn own_edits_are_counted(own: &Texts)
    ensures { (e : CodeEdit) (number : ℕ) (seen later : List BoardOp) (made : ℕ) (new : BenchTexts)
        → KnowsTexts seen made (texts_of own.now) → number ≤ LAST → HasOwnEdit e number seen later
        → Applies (texts_of own.now) false (edit_of e) new → KnowsTexts later (made + 1) new }
{
    let _own = own;
}

/// A board of which all operations were seen by who knows its texts shows these texts, if it counts
/// as many edits as were made.
pub fn own_texts_are_shown()
    ensures { (ops : List BoardOp) (made : ℕ) (t : BenchTexts) → KnowsOwn ops made t → IsLegal ops
        → made < 2 ^ 64 - 1 → edit_count ops ≡ made → ShowsTexts t (board_after ops) }
{}

/// A settled cell of a board has the outcome of its test under its model in the texts that the
/// board shows.
pub fn settled_cells_are_right()
    ensures { (t : BenchTexts) (b : BoardContent) → ShowsTexts t b → (i j : ℕ) (o : Outcome)
        → cell_at b.rows i j ≡ Some (Some o) → (c : Content) (m : PlainModel)
        → slice_get t.tests i ≡ Some c → slice_get t.models j ≡ Some m → IsPlainOutcome c m o }
{}
