//! Which items of a model are nodes.

ghost use Rattle.std.specs.Prelude.{◌≡◌};
ghost use Rattle.text_values.specs.ModelValues.{clause_of};
ghost use Rattle.bench_slots.specs.Kinds.{node_kind};

use memo_core::keys::Kind;
use text_values::Item;

/// The kind of node that an item is by its text, if it is one: a group of bindings, or a check or a
/// flag.
pub fn node_kind(item: &Item) -> Option<Kind>
    ensures { result ≡ node_kind (clause_of item.now) }
{
    match item {
        Item::Let { .. } => Some(Kind::Group),
        Item::Check { .. } | Item::Flag { .. } => Some(Kind::Check),
        Item::Function { .. } | Item::Show { .. } | Item::Include(_) => None,
    }
}
