//! Laws of the predefined names.

ghost use Rattle.predefined_names.specs.declared.predefined.TheConstants.{PREDEFINED};
ghost use Rattle.predefined_names.specs.PredefinedNames.{HasEachNameOnce};

/// Each predefined name stands in the table, once.
pub fn predefined_names_stand_once()
    ensures { HasEachNameOnce PREDEFINED }
{}
