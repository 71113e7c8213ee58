//! What the items of models say, by their numbers.

ghost use Rattle.std.specs.Prelude.{◌≡◌, true};
ghost use Rattle.bench_nodes.specs.Guesses.{are_items_guessed};

use bench_nodes::ItemRow;
use text_values::Item;

/// What the items of models say, in their order.
#[derive(Drop)]
pub(crate) struct ItemTexts<'a> {
    /// A row for each item, with its number.
    pub(crate) rows: Vec<ItemRow>,
    /// The guesses of where the rows stand.
    pub(crate) guesses: Vec<usize>,
    /// What each item says.
    pub(crate) texts: Vec<&'a Item>,
    ghost guessed: { are_items_guessed guesses.items rows.items ≡ true },
}
