//! Laws of the names that items have had.

ghost use Rattle.std.specs.Prelude.{List};
ghost use Rattle.bench_items.specs.Items.{RoleContent};
ghost use Rattle.bench_items.specs.Naming.{SeenName};
ghost use Rattle.bench_items.specs.Laws.{KeepsNumbers, TellsNamesApart, HoldsNames};

/// A history grows at its end alone, so that each name keeps its number.
pub fn numbers_stay()
    ensures { (history : List SeenName) (role : RoleContent) → KeepsNumbers history role }
{}

/// Two names in a history have two numbers.
pub fn numbers_tell_names()
    ensures { (history : List SeenName) → TellsNamesApart history }
{}

/// The names of what an item does are in its history then, which grows by no others.
pub fn histories_hold_names()
    ensures { (history : List SeenName) (role : RoleContent) → HoldsNames history role }
{}
