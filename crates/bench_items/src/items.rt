//! Items that jobs share with the texts.

ghost use Rattle.std.specs.Prelude.{◌≡◌, ◌<◌, vec_len};
ghost use Rattle.std.specs.Arc.{arc_value};
ghost use Rattle.bench_items.specs.Naming.{role_at, with_role_names};

use crate::names::{first_history, grown_history, item_outputs};
use binding_graph::{Resolved, ResolvedItem, Role};
use std::alloc::{AllocError, Global};
use std::sync::Arc;
use text_values::Name;

/// An item of a model without fault, with its history, both of which it shares with others.
/// Contracts see what the item does and the names that it has had.
pub struct SharedItem {
    resolved: Arc<Resolved>,
    index: usize,
    /// The names that the item has had, in the order in which they came, with those that it has
    /// now.
    history: Arc<Vec<Name>>,
    ghost within: { index < vec_len (arc_value resolved).items },
    ghost named: { with_role_names (arc_value history).items
        (role_at (arc_value resolved).items.items index) ≡ (arc_value history).items },
}

impl Drop for SharedItem {
    fn drop(self) {
        let SharedItem {
            resolved: _,
            index: _,
            history: _,
        } = self;
    }
}

impl SharedItem {
    ghost use Rattle.std.specs.Prelude.{IfOk, Some, option_map};
    ghost use Rattle.std.specs.List.{slice_get};
    ghost use Rattle.bench_items.specs.Items.{role_content, shared_model, shared_index, shared_role, shared_history, held_history};
    ghost use Rattle.bench_items.specs.Naming.{item_outputs};

    // The history of an item that does this, where it was known as the other before, if at all.
    fn history_after(
        alloc: Global,
        role: &Role,
        before: Option<&SharedItem>,
    ) -> Result<Arc<Vec<Name>>, AllocError>
        ensures { let held = held_history (option_map (λ b. b.now) before.entry) in
            IfOk result (λ h. (arc_value h).items ≡ with_role_names held (role_content role.now)) }
    {
        match before {
            Some(held) => grown_history(alloc, &held.history, role),
            None => first_history(alloc, role),
        }
    }

    /// The item at an index, where it was known as the other before, if at all. Errors: out of
    /// memory, or too many shares of a history.
    pub fn new(
        alloc: Global,
        resolved: Arc<Resolved>,
        index: usize,
        before: Option<&SharedItem>,
    ) -> Result<SharedItem, AllocError>
        requires { index < vec_len (arc_value resolved).items }
        ensures model { IfOk result (λ s. shared_model s ≡ arc_value resolved) }
        ensures index { IfOk result (λ s. shared_index s ≡ index) }
        ensures role { IfOk result (λ s. shared_role s
            ≡ role_at (arc_value resolved).items.items index) }
        ensures history { let held = held_history (option_map (λ b. b.now) before.entry) in
            IfOk result (λ s. shared_history s
            ≡ with_role_names held (role_at (arc_value resolved).items.items index)) }
    {
        let history = SharedItem::history_after(alloc, &resolved.items[index].role, before)?;
        Ok(SharedItem {
            resolved,
            index,
            history,
        })
    }

    /// The same once more. Errors: too many of them.
    pub fn again(&self) -> Result<SharedItem, AllocError>
        ensures model { IfOk result (λ s. shared_model s ≡ shared_model self.now) }
        ensures index { IfOk result (λ s. shared_index s ≡ shared_index self.now) }
        ensures role { IfOk result (λ s. shared_role s ≡ shared_role self.now) }
        ensures history { IfOk result (λ s. shared_history s ≡ shared_history self.now) }
    {
        Ok(SharedItem {
            resolved: Arc::try_clone(&self.resolved)?,
            index: self.index,
            history: Arc::try_clone(&self.history)?,
        })
    }

    /// The item.
    pub fn item(&self) -> &ResolvedItem
        ensures item { slice_get (shared_model self.now).items.items (shared_index self.now)
            ≡ Some result.now }
        ensures role { role_content result.now.role ≡ shared_role self.now }
    {
        &self.resolved.items[self.index]
    }

    /// The names that the item has had.
    pub fn history(&self) -> &[Name]
        ensures { result.now ≡ shared_history self.now }
    {
        &self.history
    }

    /// The numbers by which its outputs go, in order. Errors: out of memory.
    pub fn output_names(&self, alloc: Global) -> Result<Vec<u64>, AllocError>
        ensures { IfOk result (λ v. v.items
            ≡ item_outputs (shared_role self.now) (shared_history self.now)) }
    {
        item_outputs(alloc, &self.item().role, self.history())
    }
}
