//! The histories of items, by the numbers of the items.

ghost use Rattle.std.specs.Prelude.{◌≡◌, true};
ghost use Rattle.bench_nodes.specs.Guesses.{are_items_guessed};

use bench_items::SharedItem;
use bench_nodes::ItemRow;

/// The items by their numbers, and beside each what it does, with its history.
#[derive(Clone, Copy)]
pub struct Histories<'h> {
    /// A row for each item, with its number.
    pub rows: &'h [ItemRow],
    /// The guesses of where the rows stand.
    pub guesses: &'h [usize],
    /// What each item does, where that is known.
    pub roles: &'h [Option<SharedItem>],
    ghost guessed: { are_items_guessed guesses.now rows.now ≡ true },
}
