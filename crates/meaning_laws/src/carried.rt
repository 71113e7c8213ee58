//! A law of the definitions of `meaning`: how things are numbered does not matter to a model. Read
//! in specs/: CarriedLaws, after `Cat` of `meaning/specs`.

ghost use Rattle.meaning_laws.specs.CarriedLaws.{NumbersDoNotMatter};

/// Where things are numbered anew, a model means the same of them.
pub fn numbers_do_not_matter()
    ensures { NumbersDoNotMatter }
{}
