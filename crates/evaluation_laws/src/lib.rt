//! Laws of evaluation.
//!
//! - Evaluating from nothing gives one outcome, from one list of columns and of answers of each
//!   item: specs/Laws, after `FromScratch` of `from_scratch/specs`.
//! - Two models whose slices for a test are equal are read alike: specs/Readings, after `Slices` of
//!   `bench_slices/specs`; specs/Alignment is how the proof goes.
//! - What a cell gives from nothing depends on what its slice has: specs/SliceLaws.
#![tactic(auto)]

ghost use Rattle.evaluation_laws.specs.Laws.{HasOneColumns, HasOneAnswers, HasOneResolution, HasCodedItems, HasOneOutcomeFromScratch};
ghost use Rattle.std.specs.Prelude.{◌≡◌};
ghost use Rattle.text_values.specs.TestValue.{Content};
ghost use Rattle.bench_texts.specs.declared.model.NamedModel.{NamedModel};
ghost use Rattle.bench_texts.specs.Held.{IsModelRead};
ghost use Rattle.bench_slices.specs.Slices.{slice};
ghost use Rattle.evaluation_laws.specs.Readings.{items_read};
ghost use Rattle.evaluation_laws.specs.SliceLaws.{GiveTheSame, ItemsDecide, SlicesDecide};

use binding_graph::Role;
use candidates::Space;
use text_values::{ModelText, Test};

/// An item has one list of columns over a space, given those of its inputs.
pub fn columns_are_one(role: &Role, space: &Space)
    ensures { HasOneColumns role.now space.now }
{
    let _role = role;
    let _space = space;
}

/// A check has one list of answers over a space, given the columns of its inputs.
pub fn answers_are_one(role: &Role, space: &Space)
    ensures { HasOneAnswers role.now space.now }
{
    let _role = role;
    let _space = space;
}

/// All resolutions of a model have the same content.
pub fn items_are_one(model: &ModelText)
    ensures { HasOneResolution model.now }
{
    let _model = model;
}

/// The steps of the items of a model without fault are those of expressions.
pub fn items_are_coded(model: &ModelText)
    ensures { HasCodedItems model.now }
{
    let _model = model;
}

/// A test has one outcome under a model: what evaluating from nothing gives is determined by the
/// two texts.
pub fn outcome_is_one(test: &Test, model: &ModelText)
    ensures { HasOneOutcomeFromScratch test.now model.now }
{
    let _test = test;
    let _model = model;
}

/// Models without fault that give a test one slice have, in the order of the text, equal items that
/// checks and flags reach: what they do, which names they use, and which functions they apply.
pub fn equal_slices_read_alike()
    ensures { (test other : Content) (model under : NamedModel) → IsModelRead model
        → IsModelRead under
        → slice test model ≡ slice other under → items_read model ≡ items_read under }
{}

/// Tests that say the same, wherever they lie in memory, have the same outcomes under a model.
pub fn equal_tests_give_the_same(test: &Test, other: &Test, model: &ModelText)
    ensures { GiveTheSame test.now other.now model.now }
{
    let _test = test;
    let _other = other;
    let _model = model;
}

/// Two models without fault that give a test one slice give it the same evaluations.
pub fn items_decide()
    ensures { ItemsDecide }
{}

/// The slice of a cell decides what evaluating the cell from nothing gives.
pub fn slices_decide()
    ensures { SlicesDecide }
{}
