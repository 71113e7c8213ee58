//! Laws of what evaluating from nothing gives.

ghost use denote.Ref.{Bor};
ghost use Rattle.std.specs.Prelude.{ℕ, List};
ghost use Rattle.binding_graph.specs.Trees.{RelTree};
ghost use Rattle.candidate_spaces.specs.Space.{Candidate};
ghost use Rattle.from_scratch.specs.Laws.{HasOneModelFault, HasOneModelRefusal, HasOneLeast};

use cat_eval::Column;
use text_values::{ModelText, Test};

/// A model has one first fault, or none.
pub fn faults_are_one(model: &ModelText)
    ensures { HasOneModelFault model.now }
{
    let _model = model;
}

/// A model with a fault has one outcome with a test: that fault.
pub fn refusals_of_models_are_one(test: &Test, model: &ModelText)
    ensures { HasOneModelRefusal test.now model.now }
{
    let _test = test;
    let _model = model;
}

/// In a candidate, two lists of least values that satisfy the equations of a group are the same.
pub fn least_values_are_one()
    ensures { (one : Candidate) (inputs : List (Bor Column)) (index : ℕ) (trees : List RelTree)
        → HasOneLeast one inputs index trees }
{}
