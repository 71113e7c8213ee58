//! Prepares any edit.

ghost use Rattle.std.specs.Prelude.{◌≡◌, false, IfOk, MatchResult};
ghost use Rattle.bench_texts.specs.Held.{texts_of, AreModelsRead};
ghost use Rattle.bench_texts.specs.Changes.{IsChangeReady};
ghost use Rattle.bench_texts.specs.Replacements.{texts_with, IsReplaceable, IsPutBy};
ghost use Rattle.bench_texts.specs.Edits.{edit_of, is_whole, Applies, RefusesEdit};
ghost use Rattle.bench_texts.specs.Answers.{Answers};

use crate::change::Change;
use crate::edit::Edit;
use crate::fault::EditFault;
use crate::prepared::Prepared;
use crate::texts::Texts;
use std::alloc::Global;

impl Texts {
    /// Checks an edit, and takes all the memory that `commit` needs for it. The texts are as
    /// before. Errors: the first reason to refuse the edit, or want of memory: while a text is
    /// read, once all is there that the edit names, or else where nothing refuses the edit.
    pub fn prepare(&mut self, alloc: Global, edit: Edit) -> Result<Prepared, EditFault>
        // It is accepted, and these are the texts that `commit` makes, or it is refused.
        ensures answer { MatchResult result
            (λ p. Applies (texts_of self.old) false (edit_of edit)
            (texts_with p.replacement (texts_of self.old)))
            (RefusesEdit (texts_of self.old) false (edit_of edit)) }
        // `commit` can be called.
        ensures ready { IfOk result (λ p. IsReplaceable self.new p.replacement) }
        // No text is changed.
        ensures kept { texts_of self.new ≡ texts_of self.old }
        // Each model holds what its items are resolved to.
        ensures read { AreModelsRead self.old → AreModelsRead self.new }
    {
        self.prepare_unless_spent(alloc, &edit, false)
    }

    /// As `prepare`, where `spent` says whether the numbers of edits are spent: then an edit that
    /// nothing else refuses is.
    #[tactic(auto, using(crate::proofs::Refusing::is_all_there, crate::proofs::Refusing::is_wanting))]
    pub fn prepare_unless_spent(
        &mut self,
        alloc: Global,
        edit: &Edit,
        spent: bool,
    ) -> Result<Prepared, EditFault>
        // It is accepted, and these are the texts that `commit` makes, or it is refused.
        ensures answer { MatchResult result
            (λ p. Applies (texts_of self.old) spent (edit_of edit.now)
            (texts_with p.replacement (texts_of self.old)))
            (RefusesEdit (texts_of self.old) spent (edit_of edit.now)) }
        // `commit` can be called.
        ensures ready { IfOk result (λ p. IsReplaceable self.new p.replacement) }
        // The edit puts or drops the test or the model that it names.
        ensures target { IfOk result (λ p.
            IsPutBy (texts_of self.old) (edit_of edit.now) p.replacement) }
        // It is known whether the edit puts or drops a whole test or model.
        ensures whole { IfOk result (λ p. p.whole ≡ is_whole (edit_of edit.now)) }
        // No text is changed: each test and each model is the one that it was.
        ensures kept { texts_of self.new ≡ texts_of self.old }
        ensures tests { self.new.tests.items ≡ self.old.tests.items }
        ensures models { self.new.models.items ≡ self.old.models.items }
        // Each model holds what its items are resolved to.
        ensures read { AreModelsRead self.old → AreModelsRead self.new }
    {
        match self.prepare_change(alloc, edit, spent) {
            Ok(change) => match self.replacement_of(alloc, change) {
                Ok(replacement) => match Prepared::new(alloc, replacement, edit.is_whole()) {
                    Ok(prepared) => Ok(prepared),
                    Err(error) => Err(EditFault::OutOfMemory(error)),
                },
                Err(error) => Err(EditFault::OutOfMemory(error)),
            },
            Err(fault) => Err(fault),
        }
    }

    // What an edit changes.
    fn prepare_change(
        &mut self,
        alloc: Global,
        edit: &Edit,
        spent: bool,
    ) -> Result<Change, EditFault>
        ensures answer { Answers (texts_of self.old) spent (edit_of edit.now) result }
        ensures ready { IfOk result (IsChangeReady self.new) }
        ensures kept { texts_of self.new ≡ texts_of self.old }
        ensures tests { self.new.tests.items ≡ self.old.tests.items }
        ensures models { self.new.models.items ≡ self.old.models.items }
        ensures read { AreModelsRead self.old → AreModelsRead self.new }
    {
        match edit {
            Edit::PutTest { text } => self.prepare_put_test(alloc, text, spent),
            Edit::DropTest { test } => self.prepare_drop_test(test, spent),
            Edit::SetInit { test, text } => self.prepare_init(alloc, test, text, spent),
            Edit::SetThread { test, thread, text } => {
                self.prepare_thread(alloc, test, *thread, text, spent)
            }
            Edit::SetCond { test, text } => self.prepare_condition(alloc, test, text, spent),
            Edit::SetLocations { test, text } => self.prepare_locations(alloc, test, text, spent),
            Edit::PutModel { model, text } => self.prepare_put_model(alloc, model, text, spent),
            Edit::DropModel { model } => self.prepare_drop_model(model, spent),
            Edit::SetItem { model, item, text } => {
                self.prepare_set_item(alloc, model, *item, text, spent)
            }
            Edit::InsertItem {
                model,
                before,
                text,
            } => self.prepare_insert_item(alloc, model, *before, text, spent),
            Edit::RemoveItem { model, item } => self.prepare_remove_item(model, *item, spent),
        }
    }
}
