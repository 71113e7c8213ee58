//! The items that differ between two versions of a model.

ghost use Rattle.std.specs.Prelude.{◌≡◌, ◌≤◌, ◌<◌, ◌+◌, ◌-◌, ◌++◌, ℕ, [], min, All, IfOk, OnOk, IsTrue, IsFalse, length, take, drop};
ghost use Rattle.text_values.specs.ModelValues.{clauses_of};
ghost use Rattle.watch_edits.specs.Changes.{element_at, with_changes, IsCommonEnd, IsBeforeEnd, IsNeededChange};

use std::alloc::{AllocError, Global};
use text_values::Item;

/// A change of the items of a model. Its index is that in the list which the changes before it
/// made, and an item that it puts is the one that the new version has at the same index.
#[derive(Clone, Copy, Debug, PartialEq, Eq)]
pub enum ItemChange {
    /// The item at the index becomes that of the new version.
    Set(usize),
    /// The item of the new version is put before the one at the index, or at the end.
    Insert(usize),
    /// The item at the index goes.
    Remove(usize),
}

// Whether the items at these indexes are the same.
#[tactic(auto, using(crate::proofs::Ends::same_items, crate::proofs::Ends::same_clauses))]
fn is_same_at(old: &[Item], at: usize, new: &[Item], other: usize) -> bool
    requires old { at < length old.now }
    requires new { other < length new.now }
    ensures yes { IsTrue result
        → element_at at (clauses_of old.now) ≡ element_at other (clauses_of new.now) }
    ensures no { IsFalse result
        → element_at at (clauses_of old.now) ≡ element_at other (clauses_of new.now) → ⊥ }
{
    let this = &old[at];
    let that = &new[other];
    this.is_same(that)
}

// Whether the versions end in one more item that is the same.
#[tactic(auto, using(crate::proofs::Ends::end_goes_on, crate::proofs::Ends::end_stops))]
fn is_longer_end(old: &[Item], new: &[Item], count: usize) -> bool
    requires old { count < length old.now }
    requires new { count < length new.now }
    requires end { IsCommonEnd (clauses_of old.now) (clauses_of new.now) count }
    ensures yes { IsTrue result
        → IsCommonEnd (clauses_of old.now) (clauses_of new.now) (count + 1) }
    ensures no { IsFalse result → (s : ℕ) → IsCommonEnd (clauses_of old.now) (clauses_of new.now) s
        → s ≤ count }
{
    is_same_at(old, old.len() - 1 - count, new, new.len() - 1 - count)
}

// How many items at the end of both versions are the same.
fn common_end(old: &[Item], new: &[Item]) -> usize
    ensures common { IsCommonEnd (clauses_of old.now) (clauses_of new.now) result }
    ensures longest { (s : ℕ) → IsCommonEnd (clauses_of old.now) (clauses_of new.now) s
        → s ≤ result }
{
    let most = old.len().min(new.len());
    let mut count = 0;
    while count < most {
        let longer = is_longer_end(old, new, count);
        if !longer {
            return count;
        }
        count += 1;
    }
    count
}

// Sets the item at an index, where it differs.
#[tactic(auto, using(crate::proofs::Made::item_set, crate::proofs::Made::item_kept))]
fn set_item(
    old: &[Item],
    new: &[Item],
    index: usize,
    changes: &mut Vec<ItemChange>,
) -> Result<(), AllocError>
    requires old { index < length old.now }
    requires new { index < length new.now }
    requires applied { with_changes (clauses_of new.now) changes.old.items (clauses_of old.now)
        ≡ take index (clauses_of new.now) ++ drop index (clauses_of old.now) }
    requires needed { All (IsNeededChange (clauses_of old.now) (clauses_of new.now))
        changes.old.items }
    ensures applied { OnOk result (with_changes (clauses_of new.now) changes.new.items
        (clauses_of old.now)
        ≡ take (index + 1) (clauses_of new.now) ++ drop (index + 1) (clauses_of old.now)) }
    ensures before { OnOk result ((m n s : ℕ) → index + s < m → index + s < n
        → All (IsBeforeEnd m n s) changes.old.items → All (IsBeforeEnd m n s) changes.new.items) }
    ensures needed { OnOk result (All (IsNeededChange (clauses_of old.now) (clauses_of new.now))
        changes.new.items) }
{
    if !is_same_at(old, index, new, index) {
        changes.push(ItemChange::Set(index))?;
    }
    Ok(())
}

// Sets the items that differ before those at the end.
fn set_items(
    old: &[Item],
    new: &[Item],
    end: usize,
    changes: &mut Vec<ItemChange>,
) -> Result<(), AllocError>
    requires old { end ≤ length old.now }
    requires new { end ≤ length new.now }
    requires none { changes.old.items ≡ [] }
    ensures applied { OnOk result (with_changes (clauses_of new.now) changes.new.items
        (clauses_of old.now)
        ≡ take (min (length old.now) (length new.now) - end) (clauses_of new.now)
        ++ drop (min (length old.now) (length new.now) - end) (clauses_of old.now)) }
    ensures before { OnOk result ((s : ℕ) → s ≤ end
        → All (IsBeforeEnd (length old.now) (length new.now) s) changes.new.items) }
    ensures needed { OnOk result (All (IsNeededChange (clauses_of old.now) (clauses_of new.now))
        changes.new.items) }
{
    let stop = old.len().min(new.len()) - end;
    for index in 0..stop {
        set_item(old, new, index, changes)?;
    }
    Ok(())
}

// Inserts the item of the new version at an index.
#[tactic(auto, using(crate::proofs::Made::item_inserted))]
fn insert_item(
    old: &[Item],
    new: &[Item],
    index: usize,
    at: usize,
    changes: &mut Vec<ItemChange>,
) -> Result<(), AllocError>
    requires new { index < length new.now }
    requires longer { length old.now < length new.now }
    requires applied { with_changes (clauses_of new.now) changes.old.items (clauses_of old.now)
        ≡ take index (clauses_of new.now) ++ drop at (clauses_of old.now) }
    requires needed { All (IsNeededChange (clauses_of old.now) (clauses_of new.now))
        changes.old.items }
    ensures applied { OnOk result (with_changes (clauses_of new.now) changes.new.items
        (clauses_of old.now)
        ≡ take (index + 1) (clauses_of new.now) ++ drop at (clauses_of old.now)) }
    ensures before { OnOk result ((m n s : ℕ) → index + s < n
        → All (IsBeforeEnd m n s) changes.old.items → All (IsBeforeEnd m n s) changes.new.items) }
    ensures needed { OnOk result (All (IsNeededChange (clauses_of old.now) (clauses_of new.now))
        changes.new.items) }
{
    changes.push(ItemChange::Insert(index))?;
    Ok(())
}

// Inserts the items that a longer version has before those at the end.
fn insert_items(
    old: &[Item],
    new: &[Item],
    end: usize,
    changes: &mut Vec<ItemChange>,
) -> Result<(), AllocError>
    requires old { end ≤ length old.now }
    requires new { end ≤ length new.now }
    requires applied { with_changes (clauses_of new.now) changes.old.items (clauses_of old.now)
        ≡ take (min (length old.now) (length new.now) - end) (clauses_of new.now)
        ++ drop (min (length old.now) (length new.now) - end) (clauses_of old.now) }
    requires before { (s : ℕ) → s ≤ end
        → All (IsBeforeEnd (length old.now) (length new.now) s) changes.old.items }
    requires needed { All (IsNeededChange (clauses_of old.now) (clauses_of new.now))
        changes.old.items }
    ensures applied { OnOk result (with_changes (clauses_of new.now) changes.new.items
        (clauses_of old.now)
        ≡ take (length new.now - end) (clauses_of new.now)
        ++ drop (min (length old.now) (length new.now) - end) (clauses_of old.now)) }
    ensures before { OnOk result ((s : ℕ) → s ≤ end
        → All (IsBeforeEnd (length old.now) (length new.now) s) changes.new.items) }
    ensures needed { OnOk result (All (IsNeededChange (clauses_of old.now) (clauses_of new.now))
        changes.new.items) }
{
    if new.len() <= old.len() {
        return Ok(());
    }
    for index in old.len() - end..new.len() - end {
        insert_item(old, new, index, old.len() - end, changes)?;
    }
    Ok(())
}

// Removes the item at an index, which is that of the old version at another.
#[tactic(auto, using(crate::proofs::Made::item_removed))]
fn remove_item(
    old: &[Item],
    new: &[Item],
    index: usize,
    at: usize,
    changes: &mut Vec<ItemChange>,
) -> Result<(), AllocError>
    requires old { at < length old.now }
    requires new { index ≤ length new.now }
    requires shorter { length new.now < length old.now }
    requires applied { with_changes (clauses_of new.now) changes.old.items (clauses_of old.now)
        ≡ take index (clauses_of new.now) ++ drop at (clauses_of old.now) }
    requires needed { All (IsNeededChange (clauses_of old.now) (clauses_of new.now))
        changes.old.items }
    ensures applied { OnOk result (with_changes (clauses_of new.now) changes.new.items
        (clauses_of old.now)
        ≡ take index (clauses_of new.now) ++ drop (at + 1) (clauses_of old.now)) }
    ensures before { OnOk result ((m n s : ℕ) → index + s < m
        → All (IsBeforeEnd m n s) changes.old.items → All (IsBeforeEnd m n s) changes.new.items) }
    ensures needed { OnOk result (All (IsNeededChange (clauses_of old.now) (clauses_of new.now))
        changes.new.items) }
{
    changes.push(ItemChange::Remove(index))?;
    Ok(())
}

// Removes the items that a longer old version has before those at the end.
fn remove_items(
    old: &[Item],
    new: &[Item],
    end: usize,
    changes: &mut Vec<ItemChange>,
) -> Result<(), AllocError>
    requires old { end ≤ length old.now }
    requires new { end ≤ length new.now }
    requires applied { with_changes (clauses_of new.now) changes.old.items (clauses_of old.now)
        ≡ take (length new.now - end) (clauses_of new.now)
        ++ drop (min (length old.now) (length new.now) - end) (clauses_of old.now) }
    requires before { (s : ℕ) → s ≤ end
        → All (IsBeforeEnd (length old.now) (length new.now) s) changes.old.items }
    requires needed { All (IsNeededChange (clauses_of old.now) (clauses_of new.now))
        changes.old.items }
    ensures applied { OnOk result (with_changes (clauses_of new.now) changes.new.items
        (clauses_of old.now)
        ≡ take (length new.now - end) (clauses_of new.now)
        ++ drop (length old.now - end) (clauses_of old.now)) }
    ensures before { OnOk result ((s : ℕ) → s ≤ end
        → All (IsBeforeEnd (length old.now) (length new.now) s) changes.new.items) }
    ensures needed { OnOk result (All (IsNeededChange (clauses_of old.now) (clauses_of new.now))
        changes.new.items) }
{
    if old.len() <= new.len() {
        return Ok(());
    }
    let index = new.len() - end;
    for at in index..old.len() - end {
        remove_item(old, new, index, at, changes)?;
    }
    Ok(())
}

/// The changes that lead from the old items to the new ones. Items at the end that both versions
/// have stay. Before them an item is set where it differs from the new one at its index, and then
/// items are inserted or removed. Errors: out of memory.
pub fn item_changes(
    alloc: Global,
    old: &[Item],
    new: &[Item],
) -> Result<Vec<ItemChange>, AllocError>
    // The changes make the new items of the old ones.
    ensures applied { IfOk result (λ cs. with_changes (clauses_of new.now) cs.items
        (clauses_of old.now) ≡ clauses_of new.now) }
    // They leave alone the items in which both versions end: all of them where the versions are
    // equal.
    ensures before { IfOk result (λ cs. (s : ℕ)
        → IsCommonEnd (clauses_of old.now) (clauses_of new.now) s
        → All (IsBeforeEnd (length old.now) (length new.now) s) cs.items) }
    // An item is set only where it differs, and only the longer version has items inserted or
    // removed.
    ensures needed { IfOk result (λ cs.
        All (IsNeededChange (clauses_of old.now) (clauses_of new.now)) cs.items) }
{
    let end = common_end(old, new);
    let mut changes = Vec::new(alloc);
    set_items(old, new, end, &mut changes)?;
    insert_items(old, new, end, &mut changes)?;
    remove_items(old, new, end, &mut changes)?;
    Ok(changes)
}
