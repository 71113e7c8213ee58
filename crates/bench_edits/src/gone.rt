//! Whether the memo of some node may have to go with an edit.

ghost use Rattle.std.specs.Prelude.{◌≡◌};
ghost use Rattle.bench_edits.specs.Gone.{keep_owners, may_drop};

use crate::edited::{EditedParts, ModelParts};
use bench_parts::{Parts, keep_kinds, keep_models};

fn keep_owners(parts: &Parts, models: &ModelParts) -> bool
    ensures { result ≡ keep_owners parts.now models.now }
{
    let items = &models.items;
    keep_kinds(
        &parts.table.items,
        &parts.kinds,
        &models.item_guesses,
        &items.rows,
        &items.kinds,
    ) && keep_models(&parts.table.models, &models.rows)
}

/// Whether the memo of some node may have to go with an edit for which this was made: it drops a
/// test or a model, or an item goes or becomes one of another kind.
pub fn may_drop(parts: &Parts, edited: &EditedParts) -> bool
    ensures { result ≡ may_drop parts.now edited.now }
{
    match edited {
        EditedParts::PutTest { .. } => false,
        EditedParts::DropTest { .. } => true,
        EditedParts::Models(models) => !keep_owners(parts, models),
    }
}
