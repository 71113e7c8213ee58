//! Items before an edit.

ghost use Rattle.std.specs.Prelude.{◌≡◌, option_map, option_and_then, slice_get};
ghost use Rattle.bench_nodes.specs.Nodes.{item_stamp};
ghost use Rattle.bench_parts.specs.Contents.{item_content};
ghost use Rattle.bench_parts.specs.Held.{held_part};

use crate::parts::Parts;
use bench_items::SharedItem;
use std::alloc::AllocError;

/// What an item did before an edit, where that is known, with its stamp.
#[derive(Clone, Copy)]
pub struct HeldItem<'p> {
    /// What it did.
    pub role: Option<&'p SharedItem>,
    /// The number of the last edit that changed its text, or 0.
    pub stamp: u64,
}

// What the item at an index did.
fn role_at(roles: &[Option<SharedItem>], index: usize) -> Option<&SharedItem>
    ensures { option_map (λ r. r.now) result
        ≡ option_and_then (λ r. r) (slice_get roles.now index) }
{
    match roles.get(index) {
        Some(role) => role.as_ref(),
        None => None,
    }
}

impl HeldItem<'_> {
    ghost use Rattle.std.specs.Prelude.{IfOk};
    ghost use Rattle.bench_parts.specs.Contents.{role_part};

    /// What the item did, once more. Errors: too many shares.
    pub fn again(&self) -> Result<Option<SharedItem>, AllocError>
        ensures { IfOk result (λ r. role_part r ≡ held_part self.now) }
    {
        match self.role {
            Some(before) => Ok(Some(before.again()?)),
            None => Ok(None),
        }
    }
}

/// The item of that number.
pub fn held_item(parts: &Parts, number: u64) -> HeldItem<'_>
    ensures role { held_part result
        ≡ item_content parts.now.table.items.items parts.now.roles.items number }
    ensures stamp { result.stamp ≡ item_stamp parts.now.table.items.items number }
{
    let index = parts.item_index(number);
    if index < parts.table.items.len() {
        HeldItem {
            role: role_at(&parts.roles, index),
            stamp: parts.table.items[index].stamp,
        }
    } else {
        HeldItem {
            role: None,
            stamp: 0,
        }
    }
}
