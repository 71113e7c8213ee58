//! What an item uses.

ghost use Rattle.std.specs.Prelude.{◌≡◌, ◌<◌, ℕ, [], ◌∷◌, None, true, false, get_or, reverse, map, vec_len, unwrap_or, IfOk, OnOk};
ghost use Rattle.binding_graph.specs.Inputs.{IsIndexed, index_of, with_used, with_found, with_name};
ghost use Rattle.binding_graph.specs.Usages.{IsListed, with_all_used, with_item, with_items};

use binding_kinds::{Binder, Found, Function, Input, Used};
use std::alloc::{AllocError, Global};

/// The names of other items that an item uses, and the functions that it applies, through others
/// too, each once, in the order of first use.
#[derive(Drop)]
pub struct Uses {
    /// The names, each by its slot and its item.
    pub values: Vec<Used>,
    /// The functions, by their items.
    pub functions: Vec<usize>,
    /// For each slot its index among those used: the slots behind are not used.
    indexes: Vec<Option<usize>>,
    /// For each item whether it is a function that is applied: those behind are not.
    applied: Vec<bool>,
}

/// Makes a table so long that it has that index.
#[tactic(auto, using(crate::proofs::Indexed::widened))]
fn widen<T: Copy>(table: &mut Vec<T>, index: usize, none: T) -> Result<(), AllocError>
    ensures same { OnOk result ((i : ℕ)
        → get_or table.new.items i none ≡ get_or table.old.items i none) }
    ensures long { OnOk result (index < vec_len table.new) }
{
    if index < table.len() {
        return Ok(());
    }
    let Some(long) = index.checked_add(1) else {
        return Err(AllocError);
    };
    table.resize(long, none)
}

impl Uses {
    /// Nothing is used.
    pub fn new(alloc: Global) -> Uses
        ensures values { result.values.items ≡ [] }
        ensures functions { result.functions.items ≡ [] }
        ensures indexed { IsIndexed result.indexes.items result.values.items }
        ensures listed { IsListed result.applied.items result.functions.items }
    {
        Uses {
            values: Vec::new(alloc),
            functions: Vec::new(alloc),
            indexes: Vec::new(alloc),
            applied: Vec::new(alloc),
        }
    }

    /// Nothing is used any longer; the memory is kept.
    pub fn clear(&mut self)
        ensures values { self.new.values.items ≡ [] }
        ensures functions { self.new.functions.items ≡ [] }
        ensures indexed { IsIndexed self.new.indexes.items self.new.values.items }
        ensures listed { IsListed self.new.applied.items self.new.functions.items }
    {
        self.values.clear();
        self.functions.clear();
        self.indexes.clear();
        self.applied.clear();
    }

    /// The index of the slot among those used, where it is used.
    fn place_at(&self, slot: usize) -> Option<usize>
        ensures { result ≡ get_or self.now.indexes.items slot None }
    {
        match self.indexes.get(slot) {
            Some(index) => *index,
            None => None,
        }
    }

    /// The index of the slot among those used, or 0.
    pub fn index_of(&self, slot: usize) -> usize
        ensures { IsIndexed self.now.indexes.items self.now.values.items
            → result ≡ unwrap_or (index_of (reverse self.now.values.items) slot) 0 }
    {
        match self.place_at(slot) {
            Some(index) => index,
            None => 0,
        }
    }

    /// A name is used, which counts where another item binds it: the names of the item itself
    /// have the slot `from` and those behind it.
    fn add_value(&mut self, from: usize, found: Found) -> Result<(), AllocError>
        ensures values { IsIndexed self.old.indexes.items self.old.values.items
            → OnOk result (reverse self.new.values.items
            ≡ with_found (reverse self.old.values.items) from found) }
        ensures indexed { IsIndexed self.old.indexes.items self.old.values.items
            → OnOk result (IsIndexed self.new.indexes.items self.new.values.items) }
        ensures functions { self.new.functions ≡ self.old.functions }
        ensures applied { self.new.applied ≡ self.old.applied }
    {
        if found.slot >= from {
            return Ok(());
        }
        match found.binder {
            Binder::Bound(input) => self.note(Used {
                slot: found.slot,
                input,
            }),
            Binder::Predefined(_) => Ok(()),
            Binder::Applicable(_) => Ok(()),
        }
    }

    /// Notes a name at its first use.
    fn note(&mut self, value: Used) -> Result<(), AllocError>
        ensures values { IsIndexed self.old.indexes.items self.old.values.items
            → OnOk result (reverse self.new.values.items
            ≡ with_used (reverse self.old.values.items) value) }
        ensures indexed { IsIndexed self.old.indexes.items self.old.values.items
            → OnOk result (IsIndexed self.new.indexes.items self.new.values.items) }
        ensures functions { self.new.functions ≡ self.old.functions }
        ensures applied { self.new.applied ≡ self.old.applied }
    {
        if self.place_at(value.slot).is_some() {
            return Ok(());
        }
        let next = self.values.len();
        widen(&mut self.indexes, value.slot, None)?;
        self.values.push(value)?;
        self.indexes[value.slot] = Some(next);
        Ok(())
    }

    /// Notes each of the names at its first use.
    fn note_all(&mut self, values: &[Used]) -> Result<(), AllocError>
        ensures values { IsIndexed self.old.indexes.items self.old.values.items
            → OnOk result (reverse self.new.values.items
            ≡ with_all_used (reverse self.old.values.items) values.now) }
        ensures indexed { IsIndexed self.old.indexes.items self.old.values.items
            → OnOk result (IsIndexed self.new.indexes.items self.new.values.items) }
        ensures functions { self.new.functions ≡ self.old.functions }
        ensures applied { self.new.applied ≡ self.old.applied }
    {
        for value in values {
            self.note(*value)?;
        }
        Ok(())
    }

    /// Whether the function of that item is applied.
    fn is_applied(&self, item: usize) -> bool
        ensures { result ≡ get_or self.now.applied.items item false }
    {
        match self.applied.get(item) {
            Some(is_applied) => *is_applied,
            None => false,
        }
    }

    /// Notes the function of that item at its first application.
    fn note_function(&mut self, item: usize) -> Result<(), AllocError>
        ensures functions { IsListed self.old.applied.items self.old.functions.items
            → OnOk result (reverse self.new.functions.items
            ≡ with_item (reverse self.old.functions.items) item) }
        ensures listed { IsListed self.old.applied.items self.old.functions.items
            → OnOk result (IsListed self.new.applied.items self.new.functions.items) }
        ensures values { self.new.values ≡ self.old.values }
        ensures indexes { self.new.indexes ≡ self.old.indexes }
    {
        if self.is_applied(item) {
            return Ok(());
        }
        widen(&mut self.applied, item, false)?;
        self.functions.push(item)?;
        self.applied[item] = true;
        Ok(())
    }

    /// Notes the functions of those items, each at its first application.
    fn note_functions(&mut self, items: &[usize]) -> Result<(), AllocError>
        ensures functions { IsListed self.old.applied.items self.old.functions.items
            → OnOk result (reverse self.new.functions.items
            ≡ with_items (reverse self.old.functions.items) items.now) }
        ensures listed { IsListed self.old.applied.items self.old.functions.items
            → OnOk result (IsListed self.new.applied.items self.new.functions.items) }
        ensures values { self.new.values ≡ self.old.values }
        ensures indexes { self.new.indexes ≡ self.old.indexes }
    {
        for item in items {
            self.note_function(*item)?;
        }
        Ok(())
    }

    /// A name without arguments that is no parameter and was looked for is used, where it is bound.
    /// Errors: want of memory.
    pub fn add_name(&mut self, from: usize, found: Option<Found>) -> Result<(), AllocError>
        ensures values { IsIndexed self.old.indexes.items self.old.values.items
            → OnOk result (reverse self.new.values.items
            ≡ with_name (reverse self.old.values.items) from found) }
        ensures indexed { IsIndexed self.old.indexes.items self.old.values.items
            → OnOk result (IsIndexed self.new.indexes.items self.new.values.items) }
        ensures functions { self.new.functions ≡ self.old.functions }
        ensures applied { self.new.applied ≡ self.old.applied }
    {
        match found {
            None => Ok(()),
            Some(found) => self.add_value(from, found),
        }
    }

    /// The function is applied, and so is what its body applies and used what its body uses.
    /// Errors: want of memory.
    pub fn add_function(&mut self, function: &Function) -> Result<(), AllocError>
        ensures values { IsIndexed self.old.indexes.items self.old.values.items
            → OnOk result (reverse self.new.values.items
            ≡ with_all_used (reverse self.old.values.items) function.now.values.items) }
        ensures functions { IsListed self.old.applied.items self.old.functions.items
            → OnOk result (reverse self.new.functions.items
            ≡ with_items (reverse self.old.functions.items)
            (function.now.item ∷ function.now.functions.items)) }
        ensures indexed { IsIndexed self.old.indexes.items self.old.values.items
            → OnOk result (IsIndexed self.new.indexes.items self.new.values.items) }
        ensures listed { IsListed self.old.applied.items self.old.functions.items
            → OnOk result (IsListed self.new.applied.items self.new.functions.items) }
    {
        self.note_function(function.item)?;
        self.note_functions(&function.functions)?;
        self.note_all(&function.values)
    }

    /// The names that are used, and the functions that are applied.
    pub fn into_lists(self) -> (Vec<Used>, Vec<usize>)
        ensures values { result.0 ≡ self.values }
        ensures functions { result.1 ≡ self.functions }
    {
        let Uses {
            values,
            functions,
            ..
        } = self;
        (values, functions)
    }
}

/// The names that are used, as those of items.
fn inputs_of_values(alloc: Global, values: &[Used]) -> Result<Vec<Input>, AllocError>
    ensures { IfOk result (λ v. v.items ≡ map (λ u. u.input) values.now) }
{
    let mut inputs = Vec::with_capacity(alloc, values.len())?;
    for value in values {
        inputs.push(value.input)?;
    }
    Ok(inputs)
}

/// The names that are used, as those of items, and the items of the functions that are applied.
/// Errors: want of memory.
pub fn copied_lists(
    alloc: Global,
    values: &[Used],
    functions: &[usize],
) -> Result<(Vec<Input>, Vec<usize>), AllocError>
    ensures inputs { IfOk result (λ r. r.0.items ≡ map (λ u. u.input) values.now) }
    ensures functions { IfOk result (λ r. r.1.items ≡ functions.now) }
{
    let inputs = inputs_of_values(alloc, values)?;
    let functions = Vec::from_slice(alloc, functions)?;
    Ok((inputs, functions))
}
