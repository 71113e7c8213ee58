//! What is computed of items.

ghost use Rattle.std.specs.Prelude.{◌≡◌, ◌-◌, ◌^◌, min, map};
ghost use Rattle.std.specs.List.{sum_by};
ghost use Rattle.text_values.specs.ModelValues.{clause_of};
ghost use Rattle.bench_texts.specs.Held.{plain_model};
ghost use Rattle.bench_texts.specs.Limits.{clause_outputs, models_outputs};

use crate::model::NamedModel;
use text_values::Item;

/// The bound names of an item, or the check or flag that it is.
pub fn outputs_of(item: &Item) -> usize
    ensures { result ≡ clause_outputs (clause_of item.now) }
{
    match item {
        Item::Let { group, .. } => group.len(),
        Item::Function { .. } => 0,
        Item::Check { .. } => 1,
        Item::Flag { .. } => 1,
        Item::Show { .. } => 0,
        Item::Include(_) => 0,
    }
}

/// The outputs of these items, or the greatest `usize` where these are more.
pub fn count_items(items: &[Item]) -> usize
    ensures { result ≡ min (sum_by (λ i. clause_outputs (clause_of i)) items.now) (2 ^ 64 - 1) }
{
    let mut total: usize = 0;
    for item in items {
        total = total.saturating_add(outputs_of(item));
    }
    total
}

/// The outputs of these models for each test, or the greatest `usize` where these are more.
pub fn count_models(models: &[NamedModel]) -> usize
    ensures { result ≡ min (models_outputs (map plain_model models.now)) (2 ^ 64 - 1) }
{
    let mut total: usize = 0;
    for model in models {
        total = total.saturating_add(model.outputs().saturating_add(1));
    }
    total
}
