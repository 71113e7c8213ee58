//! Laws that tie the faults of `meaning` to those that the program answers. Read specs/Laws first,
//! after `Faults` of `meaning/specs` and `Faults` of `binding_kinds/specs`.
#![tactic(auto)]

ghost use Rattle.std.specs.Prelude.{◌≡◌, List};
ghost use Rattle.text_values.specs.declared.model.Item.{Item};
ghost use Rattle.predefined_names.specs.declared.predefined.TheConstants.{PREDEFINED};
ghost use Rattle.meaning.specs.Predefined.{predefined_names};
ghost use Rattle.meaning_faults.specs.Laws.{FirstFaultIsHead, NoFaultIsNone};

/// The table of predefined names is that of the definitions.
pub fn the_table_is_meant()
    ensures { PREDEFINED ≡ predefined_names }
{}

/// The fault that refuses a model is the first in the list of its faults, and a model is not
/// refused just where that list is empty.
pub fn first_fault_is_head()
    ensures first { (items : List Item) → FirstFaultIsHead items }
    ensures none { (items : List Item) → NoFaultIsNone items }
{}
