//! Laws of what nodes give.

ghost use Rattle.std.specs.Prelude.{List};
ghost use Rattle.text_values.specs.declared.test.Test.{Test};
ghost use Rattle.bench_values.specs.Laws.{HasOneSpace, IsOfEachTest, GivesOneOutcome, HasOutputNames};
ghost use Rattle.bench_values.specs.Givens.{VerdictPartsContent, GivenContent};
ghost use Rattle.bench_values.specs.Parts.{SpacePartsContent};
ghost use Rattle.bench_values.specs.Values.{NodeContent};

/// Some parts of a test have one space.
pub fn space_is_one()
    ensures { (parts : SpacePartsContent) → HasOneSpace parts }
{}

/// The space of some parts, or why they have none, is that of each test that has them.
pub fn space_is_of_each_test()
    ensures { (parts : SpacePartsContent) (t : Test) → IsOfEachTest parts t }
{}

/// A verdict gives one outcome, from the values of its inputs.
pub fn verdict_is_one()
    ensures { (parts : VerdictPartsContent) (values : List NodeContent)
        → GivesOneOutcome parts values }
{}

/// A node gives a value for each number by which its outputs go.
pub fn names_are_as_many()
    ensures { (given : GivenContent) → HasOutputNames given }
{}
