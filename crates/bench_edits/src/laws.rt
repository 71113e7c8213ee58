//! Laws of the parts of the bench after an edit.

ghost use Rattle.bench_values.specs.Givens.{GivenContent};
ghost use Rattle.bench_edits.specs.Gone.{EditsKeepAll};
ghost use Rattle.bench_edits.specs.Touched.{EditsTouchOnly};
ghost use Rattle.bench_edits.specs.Laws.{TestEditsKeepParts, TestEditsGoOn, EditsKeepParts, EditsGoOn, EditsKeepStamps, PartsAreWhole, EditsAreStamped};

/// After an edit of a test the parts are those of the texts after it.
pub fn test_edits_keep_parts()
    ensures { TestEditsKeepParts }
{}

/// After an edit of a test each part is as it was, has the number of the edit, or is gone.
pub fn test_edits_go_on()
    ensures { TestEditsGoOn }
{}

/// After any edit the parts are those of the texts after it, where no two items have one number and
/// each model is read.
pub fn edits_keep_parts()
    ensures { EditsKeepParts }
{}

/// After any edit each part is as it was, has the number of the edit, or is gone.
pub fn edits_go_on()
    ensures { EditsGoOn }
{}

/// After any edit a part that holds what it held has its stamp of before.
pub fn equal_parts_keep_stamps()
    ensures { EditsKeepStamps }
{}

/// Parts of tests, and of models as they are written, are those of a whole state.
pub fn parts_are_whole()
    ensures { PartsAreWhole }
{}

/// After any edit the state is stamped with the number of the edit.
pub fn edits_are_stamped()
    ensures { EditsAreStamped }
{}

/// An edit changes the use, the inputs and the stamps of those nodes alone that it touches.
pub fn edits_touch_only()
    ensures { EditsTouchOnly GivenContent }
{}

/// Where no memo has to go with an edit, each that may stay may stay after it.
pub fn edits_keep_all()
    ensures { EditsKeepAll }
{}
