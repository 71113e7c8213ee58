//! How long the columns of names are kept.

ghost use Rattle.std.specs.Prelude.{◌≡◌, ◌<◌, ◌+◌, ◌↔◌, ℕ, None, Some, IsTrue, IfOk, OnOk, IfSome, IfNone, Contains, AllPairs, replicate};
ghost use Rattle.cat_eval.specs.Candidates.{name_count};
ghost use Rattle.from_scratch.specs.Keeping.{last_user, slot_of, IsGone, KeepsAll, Notes, HasInput, AreLast, LetsGo, AreEnough};

use binding_graph::{Input, ResolvedItem, Role};
use cat_eval::Column;
use std::alloc::{AllocError, Global};

/// How long the columns of names are kept.
#[derive(Clone, Copy)]
pub(crate) enum Keeping {
    /// To the end.
    All,
    /// Until no later item needs them.
    WhileNeeded,
}

/// The last user of each name: the last used item that has the name among its inputs, and the first
/// item where none has. A name that is not noted here has users to the end.
#[derive(Drop)]
pub(crate) struct LastUsers {
    /// For each item the slot of its first name.
    first_slots: Vec<usize>,
    /// For each slot the last user of the name there.
    users: Vec<usize>,
}

/// How many names an item binds.
fn name_count(item: &ResolvedItem) -> usize
    ensures { result ≡ name_count item.now.role }
{
    match &item.role {
        Role::Group { bodies, .. } => bodies.len(),
        Role::Check(_) => 0,
        Role::Silent => 0,
    }
}

impl LastUsers {
    /// No name is noted.
    fn none(alloc: Global) -> LastUsers
        ensures { KeepsAll result }
    {
        LastUsers {
            first_slots: Vec::new(alloc),
            users: Vec::new(alloc),
        }
    }

    /// The names of the items are noted, and none has a user.
    fn unused(alloc: Global, items: &[ResolvedItem]) -> Result<LastUsers, AllocError>
        ensures { IfOk result (λ l. (count : ℕ) × (l.users.items ≡ replicate count 0)) }
    {
        let mut first_slots = Vec::with_capacity(alloc, items.len())?;
        let mut count: usize = 0;
        for item in items {
            first_slots.push(count)?;
            count = count.saturating_add(name_count(item));
        }
        Ok(LastUsers {
            first_slots,
            users: vec![in alloc; 0; count]?,
        })
    }

    /// The slot of a name.
    fn slot(&self, name: &Input) -> Option<usize>
        ensures found { IfSome result (λ s. slot_of self.now name.now ≡ Some s) }
        ensures none { IfNone result (last_user self.now name.now ≡ None) }
    {
        match self.first_slots.get(name.item) {
            Some(first) => first.checked_add(name.position),
            None => None,
        }
    }

    /// Notes a user of a name, which is behind those before.
    fn note(&mut self, user: usize, name: &Input)
        ensures { Notes user (λ other. other ≡ name.now) self.old self.new }
    {
        if let Some(slot) = self.slot(name) {
            if slot < self.users.len() {
                self.users[slot] = user;
            }
        }
    }

    /// Notes a user of these names, which is behind those before.
    fn note_all(&mut self, user: usize, names: &[Input])
        ensures { Notes user (Contains names.now) self.old self.new }
    {
        for name in names {
            self.note(user, name);
        }
    }

    /// Notes the item at that index as a user of the names that it uses.
    fn note_item(&mut self, items: &[ResolvedItem], at: usize)
        ensures { Notes at (HasInput items.now at) self.old self.new }
    {
        match items.get(at) {
            Some(item) => self.note_all(at, &item.inputs),
            None => {},
        }
    }

    /// The last users among the items at these indexes. Errors: want of memory.
    fn among(
        alloc: Global,
        items: &[ResolvedItem],
        indexes: &[usize],
    ) -> Result<LastUsers, AllocError>
        requires { AllPairs (λ a b. a < b) indexes.now }
        ensures { IfOk result (AreLast items.now indexes.now) }
    {
        let mut last = LastUsers::unused(alloc, items)?;
        for at in indexes {
            last.note_item(items, *at);
        }
        Ok(last)
    }

    /// Whether no item behind that index uses the name.
    fn is_gone(&self, at: usize, name: &Input) -> bool
        ensures { IsTrue result ↔ IsGone self.now (at + 1) name.now }
    {
        match self.slot(name) {
            Some(slot) if slot < self.users.len() => self.users[slot] <= at,
            _ => false,
        }
    }

    /// Lists which names of the item at that index are wanted: those that an item behind it uses,
    /// and those whose users are not noted. Errors: want of memory.
    pub(crate) fn list_wanted(
        &self,
        at: usize,
        item: &ResolvedItem,
        wanted: &mut Vec<bool>,
    ) -> Result<(), AllocError>
        ensures { OnOk result (AreEnough self.now at wanted.new.items) }
    {
        wanted.clear();
        for position in 0..name_count(item) {
            wanted.push(!self.is_gone(at, &Input { item: at, position }))?;
        }
        Ok(())
    }
}

/// Until where the columns of names are kept: behind the last of their users, or to the end.
/// Errors: want of memory.
pub(crate) fn last_users(
    alloc: Global,
    keeping: Keeping,
    items: &[ResolvedItem],
    indexes: &[usize],
) -> Result<LastUsers, AllocError>
    requires { AllPairs (λ a b. a < b) indexes.now }
    ensures last { IfOk result (AreLast items.now indexes.now) }
    ensures all { keeping ≡ Keeping.All → IfOk result KeepsAll }
{
    match keeping {
        Keeping::All => Ok(LastUsers::none(alloc)),
        Keeping::WhileNeeded => LastUsers::among(alloc, items, indexes),
    }
}

// An empty column takes the place of a name's column.
fn let_go(alloc: Global, columns: &mut Vec<Vec<Column>>, name: &Input)
    ensures { LetsGo (λ other. other ≡ name.now) columns.old columns.new }
{
    if name.item < columns.len() {
        let names = &mut columns[name.item];
        if name.position < names.len() {
            names[name.position] = Column::of_sets(alloc);
        }
    }
}

fn let_go_if_gone(
    alloc: Global,
    last: &LastUsers,
    at: usize,
    name: &Input,
    columns: &mut Vec<Vec<Column>>,
)
    ensures { LetsGo (IsGone last.now (at + 1)) columns.old columns.new }
{
    if last.is_gone(at, name) {
        let_go(alloc, columns, name);
    }
}

/// Gives back the memory of the columns of names that the item at that index is the last to use.
pub(crate) fn let_go_behind(
    alloc: Global,
    last: &LastUsers,
    at: usize,
    inputs: &[Input],
    columns: &mut Vec<Vec<Column>>,
)
    ensures { LetsGo (IsGone last.now (at + 1)) columns.old columns.new }
{
    for name in inputs {
        let_go_if_gone(alloc, last, at, name, columns);
    }
}
