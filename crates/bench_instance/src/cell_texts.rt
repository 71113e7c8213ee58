//! Tests and models as texts of cells.

ghost use Rattle.std.specs.Prelude.{◌≡◌, IfOk};
ghost use Rattle.bench_texts.specs.Edits.{edit_of};

use crate::stamped_texts::StampedTexts;
use bench_texts::Edit;
use bench_values::NodeValue;
use cells::texts::CellTexts;
use memo_core::keys::Node;
use std::alloc::{AllocError, Global};
use verdict::Outcome;

fn copied(alloc: Global, bytes: &[u8]) -> Result<Vec<u8>, AllocError>
    ensures { IfOk result (λ v. v.items ≡ bytes.now) }
{
    Vec::from_slice(alloc, bytes)
}

// The same edit of a test once more.
fn copied_edit(alloc: Global, edit: &Edit) -> Result<Edit, AllocError>
    ensures { IfOk result (λ copy. edit_of copy ≡ edit_of edit.now) }
{
    match edit {
        Edit::PutTest { text } => Ok(Edit::PutTest {
            text: copied(alloc, text)?,
        }),
        Edit::DropTest { test } => Ok(Edit::DropTest {
            test: copied(alloc, test)?,
        }),
        Edit::SetInit { test, text } => Ok(Edit::SetInit {
            test: copied(alloc, test)?,
            text: copied(alloc, text)?,
        }),
        Edit::SetThread { test, thread, text } => Ok(Edit::SetThread {
            test: copied(alloc, test)?,
            thread: *thread,
            text: copied(alloc, text)?,
        }),
        Edit::SetCond { test, text } => Ok(Edit::SetCond {
            test: copied(alloc, test)?,
            text: copied(alloc, text)?,
        }),
        Edit::SetLocations { test, text } => Ok(Edit::SetLocations {
            test: copied(alloc, test)?,
            text: copied(alloc, text)?,
        }),
        Edit::PutModel { model, text } => Ok(Edit::PutModel {
            model: copied(alloc, model)?,
            text: copied(alloc, text)?,
        }),
        Edit::DropModel { model } => Ok(Edit::DropModel {
            model: copied(alloc, model)?,
        }),
        Edit::SetItem { model, item, text } => Ok(Edit::SetItem {
            model: copied(alloc, model)?,
            item: *item,
            text: copied(alloc, text)?,
        }),
        Edit::InsertItem {
            model,
            before,
            text,
        } => Ok(Edit::InsertItem {
            model: copied(alloc, model)?,
            before: *before,
            text: copied(alloc, text)?,
        }),
        Edit::RemoveItem { model, item } => Ok(Edit::RemoveItem {
            model: copied(alloc, model)?,
            item: *item,
        }),
    }
}

impl CellTexts for StampedTexts {
    type Outcome = Outcome;

    ghost use Rattle.std.specs.Prelude.{◌≡◌, true, Some};
    ghost use Rattle.bench_texts.specs.Edits.{edit_of};
    ghost use Rattle.bench_texts.specs.Held.{texts_of};
    ghost use Rattle.bench_texts.specs.BenchTexts.{no_texts};
    ghost use Rattle.bench_values.specs.Values.{outcome_in};
    ghost use Rattle.bench_instance.specs.StampedTexts.{verdict_of};
    ghost use Rattle.bench_instance.specs.StampedCells.{cell_from_scratch, ReachesCellNamed};
    ghost use Rattle.bench_instance.specs.Lemmas.CellProofs.{edited_alike, refused_alike, verdicts_used, all_needed, cells_solved};
    ghost use Rattle.bench_instance.specs.Lemmas.LeftCells.{cells_left};

    ghost verdict_of = { verdict_of };

    ghost outcome_in = { outcome_in };

    ghost from_scratch = { cell_from_scratch };

    ghost reaches = { ReachesCellNamed };

    ghost is_empty = { λ t. texts_of t.texts ≡ no_texts };

    ghost same_edit = { λ e f. edit_of e ≡ edit_of f };

    fn empty(alloc: Global) -> StampedTexts {
        StampedTexts::new(alloc)
    }

    fn verdict_of(&self, test: &[u8], model: &[u8]) -> Option<Node> {
        self.verdict_at(self.texts.test_index(test), self.texts.model_index(model))
    }

    fn outcome_in(value: &NodeValue) -> Option<&Outcome> {
        value.outcome()
    }

    fn copy_edit(alloc: Global, edit: &Edit) -> Result<Edit, AllocError> {
        copied_edit(alloc, edit)
    }

    ghost edited_same = { edited_alike };

    ghost refused_same = { refused_alike };

    ghost verdict_used = { verdicts_used };

    ghost used_needed = { all_needed };

    ghost solved = { cells_solved };

    ghost unreached = { cells_left };
}
