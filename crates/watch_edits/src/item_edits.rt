//! The edit of the bench that makes a change of a model's items.

ghost use Rattle.std.specs.Prelude.{◌≡◌, IfOk, slice_index};
ghost use Rattle.text_values.specs.ModelValues.{clauses_of};
ghost use Rattle.bench_texts.specs.Edits.{edit_of};
ghost use Rattle.bench_texts.specs.Held.{plain_model};
ghost use Rattle.watch_edits.specs.Edits.{item_text, item_edit};

use crate::items::ItemChange;
use bench_texts::{Edit, NamedModel};
use cat_printing::print_item;
use std::alloc::{AllocError, Global};
use text_values::Item;

// The number at an index, or 0 behind the last.
fn number_at(numbers: &[u64], index: usize) -> u64
    ensures { result ≡ slice_index numbers.now index }
{
    if index < numbers.len() {
        numbers[index]
    } else {
        0
    }
}

// The text of the item at an index, or no text behind the last.
#[tactic(auto, using(crate::proofs::Ends::text_here, crate::proofs::Ends::text_past))]
fn item_text(alloc: Global, items: &[Item], index: usize) -> Result<Vec<u8>, AllocError>
    ensures { IfOk result (λ v. v.items ≡ item_text (clauses_of items.now) index) }
{
    if index < items.len() {
        print_item(alloc, &items[index])
    } else {
        Ok(Vec::new(alloc))
    }
}

/// The edit that makes a change of the items of the model, where these are the items of its new
/// version. Errors: out of memory.
pub fn item_edit(
    alloc: Global,
    model: &NamedModel,
    new: &[Item],
    change: ItemChange,
) -> Result<Edit, AllocError>
    ensures { IfOk result (λ e. edit_of e
        ≡ item_edit (plain_model model.now).name model.now.numbers.items (clauses_of new.now)
        change) }
{
    let name = Vec::from_slice(alloc, model.name())?;
    match change {
        ItemChange::Set(index) => Ok(Edit::SetItem {
            model: name,
            item: number_at(model.numbers(), index),
            text: item_text(alloc, new, index)?,
        }),
        ItemChange::Insert(index) => Ok(Edit::InsertItem {
            model: name,
            before: number_at(model.numbers(), index),
            text: item_text(alloc, new, index)?,
        }),
        ItemChange::Remove(index) => Ok(Edit::RemoveItem {
            model: name,
            item: number_at(model.numbers(), index),
        }),
    }
}
