//! Laws of boards and of texts that edits make: a cell that is right shows what its test says under
//! its model, and each test of a running bench writes numbers of 32 bits, as its texts were read.
//! Read in specs/: Boards, after `Results` of `board/specs` and `Outcomes` of
//! `meaning_outcomes/specs`; then Edits, after `Histories` of `board/specs`.
#![tactic(auto)]

ghost use Rattle.meaning_edits.specs.Boards.{BoardsAreMeant};
ghost use Rattle.meaning_edits.specs.Edits.{EditsKeepWords, HistoriesAreOfWords, TestsAreMeantAfter, HistoriesAreMeant};

use meaning_outcomes::tests_of_words_are_meant;

/// Where each cell of a board is right, each outcome is what its test says under its model.
pub fn boards_are_meant()
    ensures { BoardsAreMeant }
{}

/// An edit that is accepted leaves tests that write numbers of 32 bits, where it finds such tests.
pub fn edits_keep_words()
    ensures { EditsKeepWords }
{}

/// So the tests of each history write such numbers: what evaluating one of them from nothing gives
/// is what the test says, and each cell of a board that is right shows it.
pub fn histories_are_meant()
    ensures words { HistoriesAreOfWords }
    ensures tests { TestsAreMeantAfter }
    ensures boards { HistoriesAreMeant }
{
    tests_of_words_are_meant();
    boards_are_meant();
}
