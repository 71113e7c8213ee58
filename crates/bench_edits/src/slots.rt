//! The nodes that each test has under the models after an edit.

ghost use Rattle.std.specs.Prelude.{◌≡◌, ◌∷◌, ◌++◌, [], IfOk, List, if◌then◌else◌, map};
ghost use Rattle.bench_slots.specs.Slots.{plain, histories_in};
ghost use Rattle.bench_slots.specs.Tables.{ModelReading, space_slot, slots_in, space_slots, all_slots};
ghost use Rattle.bench_edits.specs.Readings.{reading_of, readings_of};

use bench_nodes::{ModelRow, Slot};
use bench_slots::{Histories, fault_slots, model_slots};
use bench_texts::{NamedModel, Reading};
use memo_core::keys::Kind;
use std::alloc::{AllocError, Global};

// The nodes of a model.
fn slots_in(
    alloc: Global,
    histories: &Histories<'_>,
    row: ModelRow,
    model: &NamedModel,
) -> Result<Vec<Slot>, AllocError>
    ensures { let all = histories_in histories.now in
        IfOk result (λ v. map plain v.items ≡ slots_in all (reading_of row model.now)) }
{
    match model.reading() {
        Reading::Sound { resolved, used } => model_slots(
            alloc,
            histories,
            row.id,
            model.numbers(),
            &resolved.items,
            used,
        ),
        Reading::Faulty(_) => fault_slots(alloc, row.id),
    }
}

// Adds these nodes.
fn put_slots(slots: &mut Vec<Slot>, more: Vec<Slot>) -> Result<(), AllocError>
    ensures { IfOk result (λ _. map plain slots.new.items
        ≡ map plain slots.old.items ++ map plain more.items) }
{
    for slot in more {
        slots.push(slot)?;
    }
    Ok(())
}

fn is_sound(_row: ModelRow, model: &NamedModel) -> bool
    ensures { (ms : List ModelReading)
        → space_slots (reading_of _row model.now ∷ ms)
        ≡ (if result then space_slot ∷ [] else space_slots ms) }
{
    match model.reading() {
        Reading::Sound { .. } => true,
        Reading::Faulty(_) => false,
    }
}

// The space of each test, where some model has no fault.
#[tactic(auto, using(crate::proofs::Making::no_readings))]
fn space_slots(
    alloc: Global,
    rows: &[ModelRow],
    models: &[&NamedModel],
) -> Result<Vec<Slot>, AllocError>
    ensures { IfOk result (λ v. map plain v.items
        ≡ space_slots (readings_of rows.now (map (λ m. m.now) models.now))) }
{
    let mut slots = Vec::new(alloc);
    for (row, model) in rows.iter().zip(models.iter()) {
        if is_sound(*row, model) {
            let inputs = Vec::new(alloc);
            let kind = Kind::Space;
            slots.push(Slot {
                kind,
                of: 0,
                inputs,
            })?;
            return Ok(slots);
        }
    }
    Ok(slots)
}

/// The nodes of these models with these rows, where items have these histories. Errors: want of
/// memory.
pub(crate) fn all_slots(
    alloc: Global,
    histories: &Histories<'_>,
    rows: &[ModelRow],
    models: &[&NamedModel],
) -> Result<Vec<Slot>, AllocError>
    ensures { let all = histories_in histories.now in
        IfOk result (λ v. map plain v.items
        ≡ all_slots all (readings_of rows.now (map (λ m. m.now) models.now))) }
{
    let mut slots = space_slots(alloc, rows, models)?;
    for (row, model) in rows.iter().zip(models.iter()) {
        put_slots(&mut slots, slots_in(alloc, histories, *row, model)?)?;
    }
    Ok(slots)
}
