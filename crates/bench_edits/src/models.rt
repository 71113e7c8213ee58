//! The rows, faults and items of models after an edit.

ghost use Rattle.std.specs.Prelude.{◌≡◌, ◌++◌, ℕ, List, Option, IfOk, OnOk, map, remove};
ghost use Rattle.bench_texts.specs.BenchTexts.{put_at};
ghost use Rattle.bench_texts.specs.Replacements.{models_with};
ghost use Rattle.bench_parts.specs.Contents.{PartContent};
ghost use Rattle.bench_parts.specs.Items.{ItemFact, facts_of, AreListsOf};
ghost use Rattle.bench_edits.specs.Edited.{held_models, models_before, model_before, model_id, IsModelMade, AreModelsMade};
ghost use Rattle.bench_edits.specs.Readings.{fault_in, facts_in, all_facts, named_text};
ghost use Rattle.bench_edits.specs.ItemTexts.{text_by_number};

use crate::item_texts::ItemTexts;
use crate::texts::{item_text, texts_of};
use bench_nodes::ModelRow;
use bench_parts::{HeldModel, ItemLists, ModelItems, Parts, model_row};
use bench_texts::{NamedModel, Reading, Replacement};
use binding_graph::ModelFault;
use std::alloc::{AllocError, Global};

// The models that are there, with their faults.
#[tactic(auto, using(crate::proofs::Making::all_held))]
fn held_models(
    alloc: Global,
    rows: &[ModelRow],
    faults: &[Option<ModelFault>],
) -> Result<Vec<Option<HeldModel>>, AllocError>
    ensures { IfOk result (λ v. v.items ≡ held_models rows.now faults.now) }
{
    let mut held = Vec::new(alloc);
    for (row, fault) in rows.iter().zip(faults.iter()) {
        held.push(Some(HeldModel {
            row: *row,
            fault: *fault,
        }))?;
    }
    Ok(held)
}

/// What each model after an edit was before it. Errors: want of memory.
#[tactic(auto, using(crate::proofs::Making::edited_lists))]
pub(crate) fn models_before(
    alloc: Global,
    parts: &Parts,
    replacement: &Replacement,
) -> Result<Vec<Option<HeldModel>>, AllocError>
    ensures { IfOk result (λ v. v.items
        ≡ models_before replacement.now (held_models parts.now.table.models.items
        parts.now.faults.items)) }
{
    let mut held = held_models(alloc, &parts.table.models, &parts.faults)?;
    match replacement {
        Replacement::PutTest { .. } => Ok(held),
        Replacement::DropTest { .. } => Ok(held),
        Replacement::PutModel { at, .. } => {
            if *at >= held.len() {
                held.push(None)?;
            }
            Ok(held)
        }
        Replacement::DropModel { at } => {
            if *at < held.len() {
                held.remove(*at);
            }
            Ok(held)
        }
    }
}

// These models, in their order.
fn all_models<'a>(
    alloc: Global,
    models: &'a [NamedModel],
) -> Result<Vec<&'a NamedModel>, AllocError>
    ensures { IfOk result (λ v. map (λ m. m.now) v.items ≡ models.now) }
{
    let mut all = Vec::with_capacity(alloc, models.len())?;
    for model in models {
        all.push(model)?;
    }
    Ok(all)
}

// These models with one at an index. Errors: want of memory.
#[tactic(auto, using(crate::proofs::Making::edited_lists))]
fn with_model<'a>(
    alloc: Global,
    models: &'a [NamedModel],
    at: usize,
    model: &'a NamedModel,
) -> Result<Vec<&'a NamedModel>, AllocError>
    ensures { IfOk result (λ v. map (λ m. m.now) v.items ≡ put_at at model.now models.now) }
{
    let mut all = all_models(alloc, models)?;
    if at < all.len() {
        all[at] = model;
        Ok(all)
    } else {
        all.push(model)?;
        Ok(all)
    }
}

// These models without the one at an index. Errors: want of memory.
#[tactic(auto, using(crate::proofs::Making::edited_lists))]
fn without_model<'a>(
    alloc: Global,
    models: &'a [NamedModel],
    at: usize,
) -> Result<Vec<&'a NamedModel>, AllocError>
    ensures { IfOk result (λ v. map (λ m. m.now) v.items ≡ remove models.now at) }
{
    let mut all = all_models(alloc, models)?;
    if at < all.len() {
        all.remove(at);
        Ok(all)
    } else {
        Ok(all)
    }
}

/// The models after an edit. Errors: want of memory.
pub(crate) fn models_after<'a>(
    alloc: Global,
    models: &'a [NamedModel],
    replacement: &'a Replacement,
) -> Result<Vec<&'a NamedModel>, AllocError>
    ensures { IfOk result (λ v. map (λ m. m.now) v.items ≡ models_with replacement.now models.now) }
{
    match replacement {
        Replacement::PutTest { .. } => all_models(alloc, models),
        Replacement::DropTest { .. } => all_models(alloc, models),
        Replacement::PutModel { at, model, .. } => with_model(alloc, models, *at, model),
        Replacement::DropModel { at } => without_model(alloc, models, *at),
    }
}

fn fault_in(reading: &Reading) -> Option<ModelFault>
    ensures { result ≡ fault_in reading.now }
{
    match reading {
        Reading::Sound { .. } => None,
        Reading::Faulty(fault) => Some(*fault),
    }
}

/// The fault of each model. Errors: want of memory.
pub(crate) fn model_faults(
    alloc: Global,
    models: &[&NamedModel],
) -> Result<Vec<Option<ModelFault>>, AllocError>
    ensures { IfOk result (λ v. v.items
        ≡ map (λ n. fault_in n.reading) (map (λ m. m.now) models.now)) }
{
    let mut faults = Vec::with_capacity(alloc, models.len())?;
    for model in models {
        faults.push(fault_in(model.reading()))?;
    }
    Ok(faults)
}

// What the model at an index was.
#[tactic(auto, using(crate::proofs::Making::before_there, crate::proofs::Making::before_past))]
fn model_before(before: &[Option<HeldModel>], index: usize) -> Option<HeldModel>
    ensures { result ≡ model_before before.now index }
{
    if index < before.len() {
        before[index]
    } else {
        None
    }
}

// The number of a model that was this.
fn model_id(fresh: u64, before: Option<HeldModel>) -> u64
    ensures { result ≡ model_id fresh before }
{
    match before {
        Some(held) => held.row.id,
        None => fresh,
    }
}

// The row of a model that was this.
fn made_row(fresh: u64, before: Option<HeldModel>, model: &NamedModel) -> ModelRow
    ensures { IsModelMade fresh before model.now result }
{
    model_row(
        fresh,
        before,
        model_id(fresh, before),
        fault_in(model.reading()),
    )
}

/// The row of each model, over what the models were. Errors: want of memory.
pub(crate) fn model_rows(
    alloc: Global,
    fresh: u64,
    before: &[Option<HeldModel>],
    models: &[&NamedModel],
) -> Result<Vec<ModelRow>, AllocError>
    ensures { IfOk result (λ v.
        AreModelsMade fresh before.now (map (λ m. m.now) models.now) v.items) }
{
    let mut rows = Vec::with_capacity(alloc, models.len())?;
    for (index, model) in models.iter().enumerate() {
        rows.push(made_row(fresh, model_before(before, index), model))?;
    }
    Ok(rows)
}

// The items of a model as it is read.
fn items_in(model: &NamedModel) -> ModelItems<'_>
    ensures { facts_of result ≡ facts_in model.now }
{
    let numbers = model.numbers();
    let items = model.text().items.as_slice();
    match model.reading() {
        Reading::Sound { resolved, .. } => ModelItems {
            numbers,
            items,
            resolved: Some(resolved),
        },
        Reading::Faulty(_) => ModelItems {
            numbers,
            items,
            resolved: None,
        },
    }
}

// Adds the items of a model, over the parts and texts before the edit. Errors: want of memory.
fn add_items(
    alloc: Global,
    lists: &mut ItemLists,
    fresh: u64,
    parts: &Parts,
    before: &ItemTexts<'_>,
    model: &NamedModel,
) -> Result<(), AllocError>
    ensures { (texts : ℕ → Option PartContent) (facts : List ItemFact)
        → ((number : ℕ) → text_by_number before.now number ≡ texts number)
        → AreListsOf fresh parts.now texts facts lists.old
        → OnOk result (AreListsOf fresh parts.now texts
        (facts ++ facts_in model.now) lists.new) }
{
    let items = items_in(model);
    for index in 0..items.numbers.len() {
        let was = item_text(before, items.numbers[index]);
        lists.add_item(alloc, fresh, parts, was, &items, index)?;
    }
    Ok(())
}

/// The items of all models, over the parts and models before the edit. Errors: want of memory.
pub(crate) fn model_items(
    alloc: Global,
    fresh: u64,
    parts: &Parts,
    before: &[NamedModel],
    models: &[&NamedModel],
) -> Result<ItemLists, AllocError>
    ensures { IfOk result (AreListsOf fresh parts.now (named_text before.now)
        (all_facts (map (λ m. m.now) models.now))) }
{
    let said = texts_of(alloc, before)?;
    let mut lists = ItemLists::new(alloc);
    for model in models {
        add_items(alloc, &mut lists, fresh, parts, &said, model)?;
    }
    Ok(lists)
}
