//! The nodes of items.

ghost use Rattle.std.specs.Prelude.{◌≡◌, ◌∷◌, ◌++◌, [], IfOk, map, get_or};
ghost use Rattle.bench_items.specs.Items.{role_content};
ghost use Rattle.bench_items.specs.Naming.{seen_names_in};
ghost use Rattle.bench_nodes.specs.declared.table.SlotKey.TheVariants as slots;
ghost use Rattle.bench_slots.specs.Slots.{plain, number_at, histories_in, no_name, input_name, function_key, name_key, space_key, item_keys, slots_of, used_slots};

use crate::find::item_history;
use crate::histories::Histories;
use bench_items::number_in_history;
use bench_nodes::{Slot, SlotKey};
use binding_graph::{Input, ResolvedItem, Role};
use memo_core::keys::Kind;
use std::alloc::{AllocError, Global};

// The number of the item at an index.
pub(crate) fn number_at(numbers: &[u64], index: usize) -> u64
    ensures { result ≡ number_at numbers.now index }
{
    if index < numbers.len() {
        numbers[index]
    } else {
        0
    }
}

pub(crate) fn space_key() -> SlotKey
    ensures { result ≡ space_key }
{
    SlotKey::Value(Kind::Space, 0, 0)
}

fn function_key(numbers: &[u64], function: usize) -> SlotKey
    ensures { result ≡ function_key numbers.now function }
{
    SlotKey::Item(number_at(numbers, function))
}

// Adds the texts of these functions.
fn put_functions(
    keys: &mut Vec<SlotKey>,
    numbers: &[u64],
    functions: &[usize],
) -> Result<(), AllocError>
    ensures { IfOk result (λ _. keys.new.items
        ≡ keys.old.items ++ map (function_key numbers.now) functions.now) }
{
    for function in functions {
        keys.push(function_key(numbers, *function))?;
    }
    Ok(())
}

// The name at a position of an item, an empty one where there is none.
fn bound_name(role: &Role, position: usize) -> &[u8]
    ensures { result.now ≡ get_or (seen_names_in (role_content role.now)) position no_name }
{
    match role {
        Role::Group { bodies, .. } => {
            if position < bodies.len() {
                let body = &bodies[position];
                body.name.as_bytes()
            } else {
                &[]
            }
        }
        Role::Check(_) => &[],
        Role::Silent => &[],
    }
}

// The name that an input is, an empty one where it is none.
fn input_name<'i>(items: &'i [ResolvedItem], input: &Input) -> &'i [u8]
    ensures { result.now ≡ input_name items.now input.now }
{
    match items.get(input.item) {
        Some(item) => bound_name(&item.role, input.position),
        None => &[],
    }
}

fn name_key(
    histories: &Histories<'_>,
    numbers: &[u64],
    items: &[ResolvedItem],
    input: &Input,
) -> SlotKey
    ensures { let all = histories_in histories.now in
        result ≡ name_key all numbers.now items.now input.now }
{
    let own = number_at(numbers, input.item);
    let history = item_history(histories, own);
    let number = number_in_history(history, input_name(items, input));
    SlotKey::Value(Kind::Group, own, number as u64)
}

// Adds the columns of these names.
fn put_names(
    keys: &mut Vec<SlotKey>,
    histories: &Histories<'_>,
    numbers: &[u64],
    items: &[ResolvedItem],
    inputs: &[Input],
) -> Result<(), AllocError>
    ensures { let all = histories_in histories.now in
        IfOk result (λ _. keys.new.items
        ≡ keys.old.items ++ map (name_key all numbers.now items.now) inputs.now) }
{
    for input in inputs {
        keys.push(name_key(histories, numbers, items, input))?;
    }
    Ok(())
}

// The inputs of an item of that number.
fn item_keys(
    alloc: Global,
    histories: &Histories<'_>,
    numbers: &[u64],
    items: &[ResolvedItem],
    own: u64,
    item: &ResolvedItem,
) -> Result<Vec<SlotKey>, AllocError>
    ensures { let all = histories_in histories.now in
        IfOk result (λ v. v.items ≡ item_keys all numbers.now items.now own item.now) }
{
    let others = item.functions.len().saturating_add(item.inputs.len());
    let mut keys = Vec::with_capacity(alloc, others.saturating_add(2))?;
    keys.push(SlotKey::Item(own))?;
    put_functions(&mut keys, numbers, &item.functions)?;
    keys.push(space_key())?;
    put_names(&mut keys, histories, numbers, items, &item.inputs)?;
    Ok(keys)
}

// Adds the node of an item, where it has one.
fn put_slot(
    slots: &mut Vec<Slot>,
    role: &Role,
    of: u64,
    inputs: Vec<SlotKey>,
) -> Result<(), AllocError>
    ensures { IfOk result (λ _. map plain slots.new.items
        ≡ map plain slots.old.items ++ slots_of role.now of inputs.items) }
{
    match role {
        Role::Group { .. } => {
            let kind = Kind::Group;
            slots.push(Slot { kind, of, inputs })?;
            Ok(())
        }
        Role::Check(_) => {
            let kind = Kind::Check;
            slots.push(Slot { kind, of, inputs })?;
            Ok(())
        }
        Role::Silent => Ok(()),
    }
}

// Adds the node of the item at an index.
fn put_item(
    alloc: Global,
    slots: &mut Vec<Slot>,
    histories: &Histories<'_>,
    numbers: &[u64],
    items: &[ResolvedItem],
    index: usize,
) -> Result<(), AllocError>
    ensures { let all = histories_in histories.now in
        IfOk result (λ _. map plain slots.new.items
        ≡ map plain slots.old.items ++ used_slots all numbers.now items.now (index ∷ [])) }
{
    match items.get(index) {
        Some(item) => {
            let own = number_at(numbers, index);
            let keys = item_keys(alloc, histories, numbers, items, own, item)?;
            put_slot(slots, &item.role, own, keys)
        }
        None => Ok(()),
    }
}

/// Adds the nodes of the items at some indexes.
pub(crate) fn put_items(
    alloc: Global,
    slots: &mut Vec<Slot>,
    histories: &Histories<'_>,
    numbers: &[u64],
    items: &[ResolvedItem],
    used: &[usize],
) -> Result<(), AllocError>
    ensures { let all = histories_in histories.now in
        IfOk result (λ _. map plain slots.new.items
        ≡ map plain slots.old.items ++ used_slots all numbers.now items.now used.now) }
{
    for index in used {
        put_item(alloc, slots, histories, numbers, items, *index)?;
    }
    Ok(())
}
