//! The history of an item.

ghost use Rattle.std.specs.Prelude.{◌≡◌};
ghost use Rattle.bench_items.specs.Items.{held_history};
ghost use Rattle.bench_slots.specs.Slots.{histories_in};

use crate::histories::Histories;
use bench_items::SharedItem;
use bench_nodes::item_index;
use text_values::Name;

// The names that an item has had, none where it was never known what it does.
fn held_history(role: &Option<SharedItem>) -> &[Name]
    ensures { result.now ≡ held_history role.now }
{
    match role {
        Some(item) => item.history(),
        None => &[],
    }
}

/// The names that the item of that number has had, none where there is no such item.
pub(crate) fn item_history<'h>(histories: &Histories<'h>, number: u64) -> &'h [Name]
    ensures { result.now ≡ histories_in histories.now number }
{
    let at = item_index(histories.guesses, histories.rows, number);
    if at < histories.rows.len() && at < histories.roles.len() {
        held_history(&histories.roles[at])
    } else {
        &[]
    }
}
