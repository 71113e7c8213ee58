//! What the item of a number says.

ghost use Rattle.std.specs.Prelude.{◌≡◌, ◌++◌, ℕ, IfOk, OnOk, map, option_map, slice_get};
ghost use Rattle.bench_parts.specs.Items.{text_part};
ghost use Rattle.bench_edits.specs.Readings.{named_text};
ghost use Rattle.bench_edits.specs.ItemTexts.{text_by_number};

use crate::item_texts::ItemTexts;
use bench_nodes::{ItemRow, item_guesses, item_index};
use bench_texts::NamedModel;
use std::alloc::{AllocError, Global};
use text_values::Item;

// Adds a row for each of these numbers.
fn put_rows(rows: &mut Vec<ItemRow>, numbers: &[u64]) -> Result<(), AllocError>
    ensures { IfOk result (λ _. map (λ r. r.number) rows.new.items
        ≡ map (λ r. r.number) rows.old.items ++ numbers.now) }
{
    for number in numbers {
        rows.push(ItemRow {
            number: *number,
            stamp: 0,
        })?;
    }
    Ok(())
}

// Adds these items.
fn put_texts<'a>(texts: &mut Vec<&'a Item>, items: &'a [Item]) -> Result<(), AllocError>
    ensures { IfOk result (λ _. map (λ x. x.now) texts.new.items
        ≡ map (λ x. x.now) texts.old.items ++ items.now) }
{
    for item in items {
        texts.push(item)?;
    }
    Ok(())
}

/// What the items of these models say. Errors: want of memory.
pub(crate) fn texts_of<'a>(
    alloc: Global,
    models: &'a [NamedModel],
) -> Result<ItemTexts<'a>, AllocError>
    ensures { IfOk result (λ t. (number : ℕ)
        → text_by_number t number ≡ named_text models.now number) }
{
    let mut rows = Vec::new(alloc);
    let mut texts = Vec::new(alloc);
    for model in models {
        put_rows(&mut rows, model.numbers())?;
        put_texts(&mut texts, &model.text().items)?;
    }
    let guesses = item_guesses(alloc, &rows)?;
    Ok(ItemTexts {
        rows,
        guesses,
        texts,
    })
}

/// What the item of that number says.
pub(crate) fn item_text<'a>(all: &ItemTexts<'a>, number: u64) -> Option<&'a Item>
    ensures { text_part (option_map (λ x. x.now) result) ≡ text_by_number all.now number }
{
    let at = item_index(&all.guesses, &all.rows, number);
    if at < all.rows.len() && at < all.texts.len() {
        Some(all.texts[at])
    } else {
        None
    }
}
