//! Laws of texts with stamps.

ghost use Rattle.std.specs.Prelude.{ℕ};
ghost use Rattle.bench_texts.specs.declared.edit.Edit.{Edit as EditRecord};
ghost use Rattle.bench_instance.specs.declared.stamped_texts.PreparedEdit.{PreparedEdit};
ghost use Rattle.bench_instance.specs.declared.stamped_texts.StampedTexts.{StampedTexts};
ghost use Rattle.bench_instance.specs.Edited.{IsPrepared, IsCommitted, IsEdited};

/// To prepare an edit and to put it in place is to make it.
pub fn prepared_edits_are_made()
    ensures { (t u w : StampedTexts) (e : EditRecord) (p : PreparedEdit) (number : ℕ)
        → IsPrepared t e p u → IsCommitted u p number w → IsEdited t e number w }
{}
