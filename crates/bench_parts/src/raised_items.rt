//! Puts the number of an edit in the place of the stamp that stands for it. It takes no memory.

ghost use Rattle.std.specs.Prelude.{◌≡◌, map};
ghost use Rattle.bench_parts.specs.Items.{raised_item};

use crate::stamps::raised;
use bench_nodes::ItemRow;

/// Puts the number of the edit after `last` into the rows of items.
pub fn raise_items(rows: &mut [ItemRow], last: u64, number: u64)
    ensures { rows.new ≡ map (raised_item last number) rows.old }
{
    for row in rows.iter_mut() {
        row.stamp = raised(last, number, row.stamp);
    }
}
