//! Laws of the reasons that are told. Read specs/Laws first.

ghost use Rattle.std.specs.Prelude.{List};
ghost use Rattle.candidate_spaces.specs.declared.candidate.Space.{Space};
ghost use Rattle.why_forbidden.specs.declared.checks.CheckValues.{CheckValues};
ghost use Rattle.why_forbidden.specs.Laws.{HasOneFirstRefusal, HasSameStarts, HasWalkBack};

/// A candidate that is refused has one first check that refuses it, and one witness of that: `why`
/// and `draw` go by the same.
pub fn first_refusal_is_one()
    ensures { (space : Space) (checks : List CheckValues) → HasOneFirstRefusal space checks }
{}

/// There is a walk through the factors of an `irreflexive` check back to the event for which it
/// refuses.
pub fn walk_back_is_found()
    ensures { (space : Space) (check : CheckValues) → HasWalkBack space check }
{}

/// The steps that are told of a refusal begin at the same events and are of the same expressions:
/// `why` and `draw` show the same walk.
pub fn steps_are_same()
    ensures { (space : Space) (check : CheckValues) → HasSameStarts space check }
{}
