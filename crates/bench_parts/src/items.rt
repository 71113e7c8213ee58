//! The rows of items after an edit, made before it is put in place.

ghost use Rattle.std.specs.Prelude.{◌≡◌, ◌∷◌, ◌++◌, [], List, Option, IfOk, OnOk, Some, option_map};
ghost use Rattle.std.specs.Arc.{arc_value};
ghost use Rattle.bench_items.specs.Items.{RoleContent};
ghost use Rattle.bench_parts.specs.Contents.{role_part};
ghost use Rattle.bench_parts.specs.Stamps.{IsStampOf};
ghost use Rattle.bench_parts.specs.Held.{held_part};
ghost use Rattle.bench_parts.specs.Items.{text_part, read_role, part_after};

use crate::held::{HeldItem, held_item};
use crate::parts::Parts;
use bench_items::SharedItem;
use bench_nodes::ItemRow;
use bench_slots::node_kind;
use binding_graph::Resolved;
use memo_core::keys::Kind;
use std::alloc::{AllocError, Global};
use std::sync::Arc;
use text_values::Item;

/// The items of a model after an edit.
#[derive(Clone, Copy)]
pub struct ModelItems<'m> {
    /// Their numbers, in their order.
    pub numbers: &'m [u64],
    /// What they say.
    pub items: &'m [Item],
    /// What they are resolved to, where the model has no fault.
    pub resolved: Option<&'m Arc<Resolved>>,
}

/// The items of all models after an edit, in their order.
#[derive(Drop)]
pub struct ItemLists {
    /// Their numbers and stamps.
    pub rows: Vec<ItemRow>,
    /// What each of them does, or under a fault of its model what it did when the model was last
    /// without one, if it was there then; with the names that it has had.
    pub roles: Vec<Option<SharedItem>>,
    /// The kind of node that each of them is by its text, if it is one.
    pub kinds: Vec<Option<Kind>>,
}

// The stamp of an item that says this now: one that says what it said keeps its stamp.
fn stamp_of(fresh: u64, stamp: u64, was: Option<&Item>, now: Option<&Item>) -> u64
    ensures { IsStampOf fresh (text_part (option_map (λ x. x.now) was.entry)) stamp
        (text_part (option_map (λ x. x.now) now.entry)) result }
{
    let Some(now) = now else {
        return 0;
    };
    match was {
        Some(before) => { if before.is_same(now) { stamp } else { fresh } }
        None => fresh,
    }
}

// The item at an index, with its names behind those that it had, and what it did before where none
// is there. Errors: want of memory, or too many shares.
fn shared_item(
    alloc: Global,
    resolved: &Arc<Resolved>,
    index: usize,
    held: &HeldItem,
) -> Result<Option<SharedItem>, AllocError>
    ensures { IfOk result (λ r. role_part r
        ≡ part_after (read_role (Some (arc_value resolved.now).items.items) index)
        (held_part held.now)) }
{
    if index < resolved.items.len() {
        Ok(Some(SharedItem::new(alloc, Arc::try_clone(resolved)?, index, held.role)?))
    } else {
        held.again()
    }
}

impl ModelItems<'_> {
    ghost use Rattle.std.specs.Prelude.{get_or, slice_get};
    ghost use Rattle.bench_parts.specs.Items.{kind_at, resolved_items};

    // The number of the item at an index, 0 where there is none.
    fn number_at(&self, index: usize) -> u64
        ensures { result ≡ get_or self.now.numbers.now index 0 }
    {
        if index < self.numbers.len() {
            self.numbers[index]
        } else {
            0
        }
    }

    // What the item at an index says.
    fn text(&self, index: usize) -> Option<&Item>
        ensures { text_part (option_map (λ x. x.now) result)
            ≡ text_part (slice_get self.now.items.now index) }
    {
        self.items.get(index)
    }

    // The kind of node that the item at an index is.
    fn kind(&self, index: usize) -> Option<Kind>
        ensures { result ≡ kind_at self.now.items.now index }
    {
        match self.items.get(index) {
            Some(item) => node_kind(item),
            None => None,
        }
    }

    // What the item at an index does: under a fault of its model what it did before. Errors: want
    // of memory, or too many shares.
    fn role_after(
        &self,
        alloc: Global,
        index: usize,
        held: &HeldItem,
    ) -> Result<Option<SharedItem>, AllocError>
        ensures { IfOk result (λ r. role_part r
            ≡ part_after (read_role (resolved_items self.now) index) (held_part held.now)) }
    {
        match self.resolved {
            Some(resolved) => shared_item(alloc, resolved, index, held),
            None => held.again(),
        }
    }
}

impl ItemLists {
    ghost use Rattle.std.specs.Prelude.{ℕ, get_or};
    ghost use Rattle.bench_parts.specs.Contents.{PartContent};
    ghost use Rattle.bench_parts.specs.Items.{ItemFact, fact_at, resolved_items, AreListsOf};

    /// No items.
    pub fn new(alloc: Global) -> ItemLists
        ensures rows { result.rows.items ≡ [] }
        ensures roles { result.roles.items ≡ [] }
        ensures kinds { result.kinds.items ≡ [] }
    {
        ItemLists {
            rows: Vec::new(alloc),
            roles: Vec::new(alloc),
            kinds: Vec::new(alloc),
        }
    }

    /// Adds the item at an index of a model, over the parts before the edit and what the item of
    /// its number said before it, where `fresh` stands for the stamp of what changed. Errors: want
    /// of memory.
    pub fn add_item(
        &mut self,
        alloc: Global,
        fresh: u64,
        before: &Parts,
        was: Option<&Item>,
        model: &ModelItems,
        index: usize,
    ) -> Result<(), AllocError>
        ensures { (texts : ℕ → Option PartContent) (facts : List ItemFact)
            → texts (get_or model.now.numbers.now index 0)
            ≡ text_part (option_map (λ x. x.now) was.entry)
            → AreListsOf fresh before.now texts facts self.old
            → OnOk result (AreListsOf fresh before.now texts
            (facts
            ++ fact_at model.now.numbers.now model.now.items.now
            (resolved_items model.now) index ∷ []) self.new) }
    {
        let number = model.number_at(index);
        let held = held_item(before, number);
        let role = model.role_after(alloc, index, &held)?;
        let now = model.text(index);
        let stamp = stamp_of(fresh, held.stamp, was, now);
        self.rows.push(ItemRow { number, stamp })?;
        self.roles.push(role)?;
        self.kinds.push(model.kind(index))?;
        Ok(())
    }
}
