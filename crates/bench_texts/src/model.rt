//! A model on the bench.
#![tactic(auto, using(crate::proofs::Numbered::numbered_lemmas))]

ghost use Rattle.std.specs.Prelude.{◌≡◌, ◌==◌, ◌<◌, ◌≤◌, ◌+◌, ◌^◌, IfOk, insert, remove, slice_set, vec_len};
ghost use Rattle.std.specs.List.{position_or_len, range_with_len};
ghost use Rattle.text_values.specs.ModelValues.{clause_of, clauses_of};

use crate::count::count_items;
use crate::reading::{Reading, read_items};
use std::alloc::{AllocError, Global};
use std::mem::replace;
use text_copies::copied_items;
use text_values::{Item, ModelText, Name};

/// The most items that a model has.
pub const MAX_ITEMS: usize = 256;

/// A model on the bench: its name, and its items with their numbers and what they are resolved to.
pub struct NamedModel {
    name: Name,
    text: ModelText,
    numbers: Vec<u64>,
    reading: Reading,
    ghost paired: { vec_len numbers ≡ vec_len text.items },
}

impl Drop for NamedModel {
    fn drop(self) {
        let NamedModel {
            name: _,
            text: _,
            numbers: _,
            reading: _,
        } = self;
    }
}

impl NamedModel {
    ghost use Rattle.std.specs.Prelude.{◌-◌, min, length, take, drop};
    ghost use Rattle.bench_texts.specs.Held.{plain_model, IsModelRead};
    ghost use Rattle.bench_texts.specs.Readings.{IsModelReading};
    ghost use Rattle.bench_texts.specs.BenchTexts.{item_index, numbered_items, items_with_numbers, put_at, with_items};
    ghost use Rattle.bench_texts.specs.Limits.{items_outputs};

    /// The model of a name and a text, whose items are numbered from `first` on.
    pub(crate) fn new(
        alloc: Global,
        name: &[u8],
        text: ModelText,
        first: u64,
    ) -> Result<NamedModel, AllocError>
        requires { first + vec_len text.items < 2 ^ 64 }
        ensures value { IfOk result (λ m. plain_model m ≡ record {
          name = name.now;
          items = numbered_items first (clauses_of text.items.items);
        }) }
        ensures read { IfOk result IsModelRead }
    {
        let name = Name::new(alloc, name)?;
        let numbers = numbers_from(alloc, first, text.items.len())?;
        NamedModel::of_items(alloc, name, text, numbers)
    }

    // The model of a name, of items and of their numbers.
    fn of_items(
        alloc: Global,
        name: Name,
        text: ModelText,
        numbers: Vec<u64>,
    ) -> Result<NamedModel, AllocError>
        requires { vec_len numbers ≡ vec_len text.items }
        ensures value { IfOk result (λ m. plain_model m
            ≡ record { name = name; items = items_with_numbers numbers.items text.items.items }) }
        ensures read { IfOk result IsModelRead }
    {
        let reading = read_items(alloc, &text)?;
        Ok(NamedModel {
            name,
            text,
            numbers,
            reading,
        })
    }

    /// The bytes of its name.
    pub fn name(&self) -> &[u8]
        ensures { result.now ≡ (plain_model self.now).name }
    {
        self.name.as_bytes()
    }

    /// Its items.
    pub fn text(&self) -> &ModelText
        ensures { result.now ≡ self.now.text }
    {
        &self.text
    }

    /// The numbers of its items, in their order.
    pub fn numbers(&self) -> &[u64]
        ensures { result.now ≡ self.now.numbers.items }
    {
        &self.numbers
    }

    /// What its items are resolved to, or its first fault.
    pub fn reading(&self) -> &Reading
        ensures { result.now ≡ self.now.reading }
    {
        &self.reading
    }

    /// How many items it has.
    pub fn len(&self) -> usize
        ensures { result ≡ length (plain_model self.now).items }
    {
        self.text.items.len()
    }

    /// The index of the item of that number, or the number of items where there is none.
    pub fn item_index(&self, number: u64) -> usize
        ensures { result ≡ item_index number (plain_model self.now).items }
    {
        index_of(&self.numbers, number)
    }

    /// The outputs of its items, or the greatest `usize` where these are more.
    pub fn outputs(&self) -> usize
        ensures { result ≡ min (items_outputs (plain_model self.now).items) (2 ^ 64 - 1) }
    {
        count_items(&self.text.items)
    }

    /// The outputs of its items but the one of an index, or the greatest `usize` where these are
    /// more.
    pub fn outputs_without(&self, index: usize) -> usize
        requires { index < length (plain_model self.now).items }
        ensures { result
            ≡ min
            (items_outputs (take index (plain_model self.now).items)
            + items_outputs (drop (index + 1) (plain_model self.now).items))
            (2 ^ 64 - 1) }
    {
        let items = self.text.items.as_slice();
        let (front, _) = items.split_at(index);
        let (_, back) = items.split_at(index + 1);
        count_items(front).saturating_add(count_items(back))
    }

    /// This model with an item, and its number, in the place of another. Errors: want of memory.
    pub(crate) fn with_set(
        &self,
        alloc: Global,
        index: usize,
        number: u64,
        item: Item,
    ) -> Result<NamedModel, AllocError>
        requires { index < length (plain_model self.now).items }
        ensures value { IfOk result (λ m. plain_model m
            ≡ with_items (put_at index (record { number = number; clause = clause_of item }))
            (plain_model self.now)) }
        ensures read { IfOk result IsModelRead }
    {
        let text = text_with(alloc, &self.text, index, item)?;
        let mut numbers = Vec::from_slice(alloc, &self.numbers)?;
        numbers[index] = number;
        NamedModel::of_items(alloc, self.name.copied(alloc)?, text, numbers)
    }

    /// This model with one item more before the one of that index. Errors: want of memory.
    pub(crate) fn with_inserted(
        &self,
        alloc: Global,
        index: usize,
        number: u64,
        item: Item,
    ) -> Result<NamedModel, AllocError>
        requires { index ≤ length (plain_model self.now).items }
        ensures value { IfOk result (λ m. plain_model m
            ≡ with_items
            (λ is. insert is index (record { number = number; clause = clause_of item }))
            (plain_model self.now)) }
        ensures read { IfOk result IsModelRead }
    {
        let text = text_with_one_more(alloc, &self.text, index, item)?;
        let mut numbers = Vec::from_slice(alloc, &self.numbers)?;
        numbers.insert(index, number)?;
        NamedModel::of_items(alloc, self.name.copied(alloc)?, text, numbers)
    }

    /// This model without one item. Errors: want of memory.
    pub(crate) fn with_removed(&self, alloc: Global, index: usize) -> Result<NamedModel, AllocError>
        requires { index < length (plain_model self.now).items }
        ensures value { IfOk result (λ m. plain_model m
            ≡ with_items (λ is. remove is index) (plain_model self.now)) }
        ensures read { IfOk result IsModelRead }
    {
        let text = text_without(alloc, &self.text, index)?;
        let mut numbers = Vec::from_slice(alloc, &self.numbers)?;
        numbers.remove(index);
        NamedModel::of_items(alloc, self.name.copied(alloc)?, text, numbers)
    }
}

// A copy of the items, with another in the place of one. Errors: want of memory.
fn text_with(
    alloc: Global,
    text: &ModelText,
    index: usize,
    item: Item,
) -> Result<ModelText, AllocError>
    requires { index < vec_len text.now.items }
    ensures clauses { IfOk result (λ t. clauses_of t.items.items
        ≡ slice_set (clauses_of text.now.items.items) index (clause_of item)) }
    ensures count { IfOk result (λ t. vec_len t.items ≡ vec_len text.now.items) }
{
    match copied_items(alloc, &text.items, 0) {
        Ok(mut items) => {
            drop(replace(&mut items[index], item));
            Ok(ModelText { items })
        }
        Err(error) => {
            drop(item);
            Err(error)
        }
    }
}

// A copy of the items, with one more before the one of that index. Errors: want of memory.
fn text_with_one_more(
    alloc: Global,
    text: &ModelText,
    index: usize,
    item: Item,
) -> Result<ModelText, AllocError>
    requires { index ≤ vec_len text.now.items }
    ensures clauses { IfOk result (λ t. clauses_of t.items.items
        ≡ insert (clauses_of text.now.items.items) index (clause_of item)) }
    ensures count { IfOk result (λ t. vec_len t.items ≡ vec_len text.now.items + 1) }
{
    match copied_items(alloc, &text.items, 1) {
        Ok(items) => {
            let mut copy = ModelText { items };
            copy.items.insert(index, item)?;
            Ok(copy)
        }
        Err(error) => {
            drop(item);
            Err(error)
        }
    }
}

// A copy of the items without one. Errors: want of memory.
fn text_without(alloc: Global, text: &ModelText, index: usize) -> Result<ModelText, AllocError>
    requires { index < vec_len text.now.items }
    ensures clauses { IfOk result (λ t. clauses_of t.items.items
        ≡ remove (clauses_of text.now.items.items) index) }
    ensures count { IfOk result (λ t. vec_len t.items + 1 ≡ vec_len text.now.items) }
{
    let mut items = copied_items(alloc, &text.items, 0)?;
    drop(items.remove(index));
    Ok(ModelText { items })
}

// The index of that number, or how many there are.
fn index_of(numbers: &[u64], number: u64) -> usize
    ensures { result ≡ position_or_len (λ n. n == number) numbers.now }
{
    for index in 0..numbers.len() {
        if numbers[index] == number {
            return index;
        }
    }
    numbers.len()
}

// So many numbers, from one on.
fn numbers_from(alloc: Global, first: u64, count: usize) -> Result<Vec<u64>, AllocError>
    requires { first + count < 2 ^ 64 }
    ensures value { IfOk result (λ v. v.items ≡ range_with_len first count) }
    ensures count { IfOk result (λ v. vec_len v ≡ count) }
{
    let mut numbers = Vec::new(alloc);
    for index in 0..count {
        numbers.push(first + index as u64)?;
    }
    Ok(numbers)
}
