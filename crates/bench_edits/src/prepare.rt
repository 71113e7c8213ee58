//! Makes what an edit needs.

ghost use Rattle.std.specs.Prelude.{◌≡◌, IfOk, map};
ghost use Rattle.bench_edits.specs.Edited.{AreModelsAfter, ArePartsMade, HasRoomForParts, AreModelPartsMade, AreTestsSame, AreModelsSame, HasTestRoom};

use crate::edited::{EditedParts, ModelParts};
use crate::models::{model_faults, model_items, model_rows, models_after, models_before};
use crate::slots::all_slots;
use crate::tests::made_test;
use bench_nodes::{SlotPlaces, item_guesses};
use bench_parts::{HeldModel, Parts, next_number};
use bench_slots::Histories;
use bench_texts::{NamedModel, Replacement};
use std::alloc::{AllocError, Global};
use text_values::Test;

/// The most tests, and the most nodes of a test, that a table has.
const MOST: usize = 65_536;

// Makes room for one test more. Errors: want of memory, or too many tests.
fn make_room(parts: &mut Parts) -> Result<(), AllocError>
    ensures room { IfOk result (λ _. HasTestRoom parts.new) }
    ensures tests { AreTestsSame parts.old parts.new }
    ensures models { AreModelsSame parts.old parts.new }
    ensures last { parts.new.last ≡ parts.old.last }
{
    if parts.table.tests.len() >= MOST {
        return Err(AllocError);
    }
    parts.table.tests.reserve(1)?;
    parts.locations.reserve(1)
}

// The parts of these models, over what they were and said. Errors: want of memory, or too many
// nodes.
fn model_parts(
    alloc: Global,
    parts: &Parts,
    was: &[NamedModel],
    before: &[Option<HeldModel>],
    models: &[&NamedModel],
) -> Result<ModelParts, AllocError>
    ensures { IfOk result (AreModelPartsMade parts.now was.now before.now
        (map (λ m. m.now) models.now)) }
{
    let fresh = next_number(parts.last);
    let rows = model_rows(alloc, fresh, before, models)?;
    let faults = model_faults(alloc, models)?;
    let items = model_items(alloc, fresh, parts, was, models)?;
    let item_guesses = item_guesses(alloc, &items.rows)?;
    let histories = Histories {
        rows: &items.rows,
        guesses: &item_guesses,
        roles: &items.roles,
    };
    let slots = all_slots(alloc, &histories, &rows, models)?;
    if slots.len() > MOST {
        return Err(AllocError);
    }
    let places = SlotPlaces::of(alloc, &slots)?;
    Ok(ModelParts {
        rows,
        faults,
        items,
        item_guesses,
        slots,
        places,
    })
}

// The parts of the models after an edit. Errors: want of memory, or too many nodes.
fn edited_models(
    alloc: Global,
    parts: &Parts,
    models: &[NamedModel],
    replacement: &Replacement,
) -> Result<ModelParts, AllocError>
    ensures { IfOk result (AreModelsAfter parts.now models.now replacement.now) }
{
    let before = models_before(alloc, parts, replacement)?;
    let after = models_after(alloc, models, replacement)?;
    model_parts(alloc, parts, models, &before, &after)
}

/// Makes what an edit needs that puts this on the tests and models of these parts. The parts stay
/// the same. Errors: want of memory.
pub fn prepare_parts(
    alloc: Global,
    parts: &mut Parts,
    tests: &[Test],
    models: &[NamedModel],
    replacement: &Replacement,
) -> Result<EditedParts, AllocError>
    ensures made { IfOk result (ArePartsMade parts.old tests.now models.now replacement.now) }
    ensures ready { IfOk result (HasRoomForParts parts.new) }
    ensures tests { AreTestsSame parts.old parts.new }
    ensures models { AreModelsSame parts.old parts.new }
    ensures last { parts.new.last ≡ parts.old.last }
{
    match replacement {
        Replacement::PutTest { at, test } => {
            let made = made_test(alloc, parts, tests, *at, test)?;
            make_room(parts)?;
            Ok(EditedParts::PutTest {
                at: *at,
                row: made.row,
                locations: made.locations,
            })
        }
        Replacement::DropTest { at } => Ok(EditedParts::DropTest { at: *at }),
        Replacement::PutModel { .. } => Ok(EditedParts::Models(edited_models(
            alloc,
            parts,
            models,
            replacement,
        )?)),
        Replacement::DropModel { .. } => Ok(EditedParts::Models(edited_models(
            alloc,
            parts,
            models,
            replacement,
        )?)),
    }
}
