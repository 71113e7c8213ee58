//! Whether the items and models to which nodes belong are still there after an edit.

ghost use Rattle.std.specs.Prelude.{◌≡◌, true};
ghost use Rattle.bench_nodes.specs.Guesses.{are_items_guessed};
ghost use Rattle.bench_parts.specs.States.{keeps_kind, keep_kinds, keep_models};

use crate::find::{has_kind, has_model};
use bench_nodes::{ItemRow, ModelRow};
use memo_core::keys::Kind;

// Whether the item of that number is among these, as a node of the kind that it is, if it is one.
fn keeps_kind(
    guesses: &[usize],
    items: &[ItemRow],
    kinds: &[Option<Kind>],
    own: Option<Kind>,
    number: u64,
) -> bool
    requires { are_items_guessed guesses.now items.now ≡ true }
    ensures { result ≡ keeps_kind items.now kinds.now own number }
{
    match own {
        Some(kind) => has_kind(guesses, items, kinds, kind, number),
        None => true,
    }
}

/// Whether each item that is a node by its text is a node of that kind among the new ones. The
/// guesses are those for the new ones.
pub fn keep_kinds(
    items: &[ItemRow],
    kinds: &[Option<Kind>],
    new_guesses: &[usize],
    new_items: &[ItemRow],
    new_kinds: &[Option<Kind>],
) -> bool
    requires { are_items_guessed new_guesses.now new_items.now ≡ true }
    ensures { result ≡ keep_kinds items.now kinds.now new_items.now new_kinds.now }
{
    let count = items.len().min(kinds.len());
    for i in 0..count {
        if !keeps_kind(new_guesses, new_items, new_kinds, kinds[i], items[i].number) {
            return false;
        }
    }
    true
}

/// Whether each model is among the new ones.
pub fn keep_models(models: &[ModelRow], new_models: &[ModelRow]) -> bool
    ensures { result ≡ keep_models models.now new_models.now }
{
    for model in models {
        if !has_model(new_models, model.id) {
            return false;
        }
    }
    true
}
