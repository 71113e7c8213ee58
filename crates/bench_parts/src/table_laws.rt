//! Laws of rows after an edit.

ghost use Rattle.std.specs.Prelude.{ℕ, ◌≤◌, List, Option};
ghost use Rattle.text_values.specs.declared.test.Test.{Test as TestRecord};
ghost use Rattle.binding_kinds.specs.declared.fault.ModelFault.{ModelFault as FaultRecord};
ghost use Rattle.bench_nodes.specs.declared.table.ModelRow.{ModelRow};
ghost use Rattle.bench_nodes.specs.declared.table.TestRow.{TestRow};
ghost use Rattle.bench_parts.specs.Built.{IsModelRow, IsTestRow};
ghost use Rattle.bench_parts.specs.declared.model_rows.HeldModel.{HeldModel as HeldRecord};
ghost use Rattle.bench_parts.specs.TableLaws.{IsTestAfter, TestPartsGoOn, IsModelAfter, FaultsGoOn};
ghost use Rattle.bench_parts.specs.Models.{raised_model};
ghost use Rattle.bench_parts.specs.Tests.{TestEntry};

/// Each part of a test is as it was, under the stamp that it had, or has the number of the edit, or
/// is gone.
pub fn test_parts_go_on()
    ensures { TestPartsGoOn }
{}

/// A test has a stamp for each part, up to the number of the edit.
pub fn test_rows_are_stamped()
    ensures { (last number id : ℕ) (before : Option TestEntry) (test : TestRecord)
        (locations : List (List ℕ)) (new : TestRow)
        → IsTestAfter last number before id test locations new → IsTestRow number new test }
{}

/// The fault of a model is as it was, under the stamp that it had, or has the number of the edit,
/// or is gone.
pub fn faults_go_on()
    ensures { FaultsGoOn }
{}

/// A model with a fault has a stamp for it, up to the number of the edit.
pub fn model_rows_are_stamped()
    ensures { (last number id : ℕ) (before : Option HeldRecord) (fault : Option FaultRecord)
        (row : ModelRow) → IsModelAfter last number before id fault row
        → IsModelRow number (raised_model last number row) fault }
{}

/// The row of a test that no edit changed stays one of the later edits.
pub fn test_rows_stay()
    ensures { (last number : ℕ) (row : TestRow) (test : TestRecord) → last ≤ number
        → IsTestRow last row test → IsTestRow number row test }
{}
