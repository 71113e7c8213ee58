//! Laws of the slots of models.

ghost use Rattle.std.specs.Prelude.{◌≡◌, ℕ, List, map};
ghost use Rattle.std.specs.List.{AllByRecursion as Each};
ghost use Rattle.bench_items.specs.Naming.{SeenName};
ghost use Rattle.bench_nodes.specs.declared.table.NodeTable.{NodeTable};
ghost use Rattle.bench_nodes.specs.Order.{IsTableOrdered};
ghost use Rattle.bench_slots.specs.Slots.{plain};
ghost use Rattle.bench_slots.specs.Tables.{ModelReading, IsOrderedModel, all_slots};

/// In a table of the slots of models whose items use names of earlier items alone, each slot stands
/// behind those that it uses.
pub fn tables_are_ordered()
    ensures { (table : NodeTable) (histories : ℕ → List SeenName) (models : List ModelReading)
        → map plain table.slots.items ≡ all_slots histories models → Each IsOrderedModel models
        → IsTableOrdered table }
{}
