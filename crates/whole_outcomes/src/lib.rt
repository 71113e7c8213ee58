//! An outcome over the candidates of a space without some that a check refuses is one over all.
//! Columns over the fewer are those of whole columns, which are there though nothing computes them:
//! what names and checks have in a candidate can be told.
//!
//! Read specs/RelationLaws and NameLaws first, then Values and ValueLaws, Whole and ColumnLaws,
//! Fewer and FewerLaws, Cut and Laws. Orders of stores that are made of kept rows have specs/Kept,
//! then specs/KeptRows.
#![tactic(auto)]

mod kept_rows;

ghost use Rattle.whole_outcomes.specs.RelationLaws.{TestsAreSets, TestsAreRelations};
ghost use Rattle.whole_outcomes.specs.NameLaws.{NamesAreTold};
ghost use Rattle.whole_outcomes.specs.ValueLaws.{ValuesExist, AnswersExist};
ghost use Rattle.whole_outcomes.specs.ColumnLaws.{WholeColumnsExist, ColumnsAreBelow, WholeAnswersExist};
ghost use Rattle.whole_outcomes.specs.FewerLaws.{OutcomeOverFewer};
ghost use Rattle.whole_outcomes.specs.Laws.{EvaluationOverCut};

use binding_graph::{Body, CheckCode};
pub use kept_rows::orders_have_kept_rows;
use run_combinations::Combination;

/// A test of events tells a set of the first n.
pub fn tests_are_sets()
    ensures { TestsAreSets }
{}

/// A test of pairs of events tells a relation on the first n, which are at most 128.
pub fn tests_are_relations()
    ensures { TestsAreRelations }
{}

/// Of each event it can be told whether a predefined name has it, and of each pair.
pub fn names_are_told(combination: &Combination)
    ensures { NamesAreTold combination.now }
{
    let _combination = combination;
}

/// In each candidate the names of a group have values, where its inputs have some.
pub fn values_exist(recursive: bool, bodies: &[Body])
    ensures { ValuesExist recursive bodies.now }
{
    let _bodies = bodies;
}

/// In each candidate a check has an answer, where its inputs have values.
pub fn answers_exist(check: &CheckCode)
    ensures { AnswersExist check.now }
{
    let _check = check;
}

/// The columns of a group over fewer candidates are those of columns over all.
pub fn whole_columns_exist(recursive: bool, bodies: &[Body])
    ensures { WholeColumnsExist recursive bodies.now }
{
    let _bodies = bodies;
}

/// The names of a group have events of each candidate alone.
pub fn columns_are_below(recursive: bool, bodies: &[Body])
    ensures { ColumnsAreBelow recursive bodies.now }
{
    let _bodies = bodies;
}

/// The answers of a check over fewer candidates are those of answers over all.
pub fn whole_answers_exist(check: &CheckCode)
    ensures { WholeAnswersExist check.now }
{
    let _check = check;
}

/// An outcome over the executions without some that a check refuses is one over all.
pub fn outcome_over_fewer()
    ensures { OutcomeOverFewer }
{}

/// An evaluation over the candidates without some that a check refuses is one over all.
pub fn evaluation_over_cut()
    ensures { EvaluationOverCut }
{}
