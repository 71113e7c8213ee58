//! The slots that an edit of models makes.

ghost use Rattle.std.specs.Prelude.{◌≡◌, true};
ghost use Rattle.bench_nodes.specs.Guesses.{are_items_guessed};

use crate::places::SlotPlaces;
use crate::table::{ItemRow, ModelRow, Slot};

/// The slots after an edit of models, where they stand, and the items and models with their stamps.
#[derive(Clone, Copy)]
pub struct NewSlots<'a> {
    /// The slots.
    pub slots: &'a [Slot],
    /// Where they stand.
    pub places: &'a SlotPlaces,
    /// The items of all models.
    pub items: &'a [ItemRow],
    /// The guesses of where these stand.
    pub item_guesses: &'a [usize],
    /// The models.
    pub models: &'a [ModelRow],
    ghost guessed: { are_items_guessed item_guesses.now items.now ≡ true },
}
