//! Laws of the items of a model without fault.

ghost use Rattle.std.specs.Prelude.{◌≡◌, ℕ, List, [], Some, slice_get};
ghost use Rattle.binding_kinds.specs.Value.{BareItem};
ghost use Rattle.binding_graph.specs.declared.resolved.ResolvedItem.{ResolvedItem};
ghost use Rattle.binding_graph.specs.declared.resolved.Role.TheVariants as roles;
ghost use Rattle.binding_graph.specs.Reach.{IsReached, AreReached};
ghost use Rattle.binding_graph.specs.Resolved.{AreResolved};
ghost use Rattle.bench_slots.specs.Slots.{flag_key, answer_key, keys_by};
ghost use Rattle.bench_slots.specs.Tables.{AreOrderedItems};
ghost use Rattle.bench_slots.specs.Closed.{AreClosed, IsReachedByNames, all_keys};
ghost use Rattle.binding_kinds.specs.Outermost.{outermost_names};
ghost use Rattle.bench_slots.specs.Roles.{RolesStay};

/// Items that are resolved use names of earlier groups alone, and those that the functions use
/// which they apply.
pub fn resolved_items_are_closed()
    ensures { (clauses : List BareItem) (items : List ResolvedItem)
        → AreResolved [] [] outermost_names 0 clauses items → AreClosed items }
{}

/// Of the items that checks and flags reach, in their order, each uses names of those before it
/// alone.
pub fn used_items_are_ordered()
    ensures { (items : List ResolvedItem) (used : List ℕ) → AreClosed items → AreReached items used
        → AreOrderedItems items [] used }
{}

/// Checks and flags reach each item that has a value by names alone.
pub fn reached_items_are_named()
    ensures { (items : List ResolvedItem) (index : ℕ) (r : ResolvedItem) → AreClosed items
        → IsReached items index → slice_get items index ≡ Some r → (r.role ≡ roles.Silent → ⊥)
        → IsReachedByNames items index }
{}

/// Among the items that checks and flags reach are all flags, in their order.
pub fn reached_flags_are_all()
    ensures { (numbers : List ℕ) (items : List ResolvedItem) (used : List ℕ) → AreReached items used
        → keys_by flag_key numbers items used ≡ all_keys flag_key numbers 0 items }
{}

/// Among them are all checks and flags, in their order.
pub fn reached_checks_are_all()
    ensures { (numbers : List ℕ) (items : List ResolvedItem) (used : List ℕ) → AreReached items used
        → keys_by answer_key numbers items used ≡ all_keys answer_key numbers 0 items }
{}

/// After edits of its model an item whose keys are what they were does what it did, and its outputs
/// go by the numbers by which they went, where each text among its keys is what it was.
pub fn roles_stay()
    ensures { RolesStay }
{}
