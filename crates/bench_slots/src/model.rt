//! The nodes of a model.

ghost use Rattle.std.specs.Prelude.{◌≡◌, ◌∷◌, ◌++◌, [], IfOk, map};
ghost use Rattle.bench_slots.specs.Slots.{plain, histories_in, flag_key, answer_key, keys_by, verdict_keys, sound_slots, faulty_slots};

use crate::histories::Histories;
use crate::items::{number_at, put_items, space_key};
use bench_nodes::{CONDITION, OBSERVED, Slot, SlotKey};
use binding_graph::{ResolvedItem, Role};
use memo_core::keys::Kind;
use std::alloc::{AllocError, Global};

// Adds the text of the item of that number, where it is a flag.
fn put_flag(keys: &mut Vec<SlotKey>, role: &Role, own: u64) -> Result<(), AllocError>
    ensures { IfOk result (λ _. keys.new.items ≡ keys.old.items ++ flag_key role.now own) }
{
    match role {
        Role::Group { .. } => Ok(()),
        Role::Check(check) => match &check.flag {
            Some(_) => {
                keys.push(SlotKey::Item(own))?;
                Ok(())
            }
            None => Ok(()),
        },
        Role::Silent => Ok(()),
    }
}

// Adds the answers of the item of that number, where it is a check or a flag.
fn put_answer(keys: &mut Vec<SlotKey>, role: &Role, own: u64) -> Result<(), AllocError>
    ensures { IfOk result (λ _. keys.new.items ≡ keys.old.items ++ answer_key role.now own) }
{
    match role {
        Role::Group { .. } => Ok(()),
        Role::Check(_) => {
            keys.push(SlotKey::Value(Kind::Check, own, 0))?;
            Ok(())
        }
        Role::Silent => Ok(()),
    }
}

// Adds the text of the item at an index, where it is a flag.
fn put_flag_at(
    keys: &mut Vec<SlotKey>,
    numbers: &[u64],
    items: &[ResolvedItem],
    index: usize,
) -> Result<(), AllocError>
    ensures { IfOk result (λ _. keys.new.items
        ≡ keys.old.items ++ keys_by flag_key numbers.now items.now (index ∷ [])) }
{
    match items.get(index) {
        Some(item) => put_flag(keys, &item.role, number_at(numbers, index)),
        None => Ok(()),
    }
}

fn put_flags(
    keys: &mut Vec<SlotKey>,
    numbers: &[u64],
    items: &[ResolvedItem],
    used: &[usize],
) -> Result<(), AllocError>
    ensures { IfOk result (λ _. keys.new.items
        ≡ keys.old.items ++ keys_by flag_key numbers.now items.now used.now) }
{
    for index in used {
        put_flag_at(keys, numbers, items, *index)?;
    }
    Ok(())
}

// Adds the answers of the item at an index, where it is a check or a flag.
fn put_answer_at(
    keys: &mut Vec<SlotKey>,
    numbers: &[u64],
    items: &[ResolvedItem],
    index: usize,
) -> Result<(), AllocError>
    ensures { IfOk result (λ _. keys.new.items
        ≡ keys.old.items ++ keys_by answer_key numbers.now items.now (index ∷ [])) }
{
    match items.get(index) {
        Some(item) => put_answer(keys, &item.role, number_at(numbers, index)),
        None => Ok(()),
    }
}

fn put_answers(
    keys: &mut Vec<SlotKey>,
    numbers: &[u64],
    items: &[ResolvedItem],
    used: &[usize],
) -> Result<(), AllocError>
    ensures { IfOk result (λ _. keys.new.items
        ≡ keys.old.items ++ keys_by answer_key numbers.now items.now used.now) }
{
    for index in used {
        put_answer_at(keys, numbers, items, *index)?;
    }
    Ok(())
}

fn verdict_keys(
    alloc: Global,
    numbers: &[u64],
    items: &[ResolvedItem],
    used: &[usize],
) -> Result<Vec<SlotKey>, AllocError>
    ensures { IfOk result (λ v. v.items ≡ verdict_keys numbers.now items.now used.now) }
{
    let mut keys = Vec::new(alloc);
    keys.push(SlotKey::Test(CONDITION))?;
    keys.push(SlotKey::Test(OBSERVED))?;
    put_flags(&mut keys, numbers, items, used)?;
    keys.push(space_key())?;
    put_answers(&mut keys, numbers, items, used)?;
    Ok(keys)
}

/// The nodes of a model of that number without fault, where items have these histories: its items
/// with their numbers, and the indexes of those that checks and flags reach. Errors: out of memory.
pub fn model_slots(
    alloc: Global,
    histories: &Histories<'_>,
    id: u64,
    numbers: &[u64],
    items: &[ResolvedItem],
    used: &[usize],
) -> Result<Vec<Slot>, AllocError>
    ensures { let all = histories_in histories.now in
        IfOk result (λ v. map plain v.items ≡ sound_slots all id numbers.now items.now used.now) }
{
    let inputs = verdict_keys(alloc, numbers, items, used)?;
    let mut slots = Vec::new(alloc);
    put_items(alloc, &mut slots, histories, numbers, items, used)?;
    let kind = Kind::Verdict;
    slots.push(Slot {
        kind,
        of: id,
        inputs,
    })?;
    Ok(slots)
}

/// The nodes of a model of that number with a fault: its verdict. Errors: out of memory.
pub fn fault_slots(alloc: Global, id: u64) -> Result<Vec<Slot>, AllocError>
    ensures { IfOk result (λ v. map plain v.items ≡ faulty_slots id) }
{
    let mut inputs = Vec::new(alloc);
    inputs.push(SlotKey::Test(CONDITION))?;
    inputs.push(SlotKey::Fault(id))?;
    let kind = Kind::Verdict;
    let mut slots = Vec::new(alloc);
    slots.push(Slot {
        kind,
        of: id,
        inputs,
    })?;
    Ok(slots)
}
