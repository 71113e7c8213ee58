//! Laws of states that are built of their tests and models, and of the cells that an edit leaves.

ghost use Rattle.std.specs.Prelude.{ℕ, List, [], Some};
ghost use Rattle.text_values.specs.declared.test.Test.{Test};
ghost use Rattle.memo_core.specs.declared.keys.Node.{Node};
ghost use Rattle.memo_core.specs.Step.{Has};
ghost use Rattle.binding_kinds.specs.declared.fault.ModelFault.{ModelFault};
ghost use Rattle.binding_graph.specs.declared.resolved.ResolvedItem.{ResolvedItem};
ghost use Rattle.bench_nodes.specs.declared.table.TestRow.{TestRow};
ghost use Rattle.bench_nodes.specs.Nodes.{used};
ghost use Rattle.bench_values.specs.Givens.{ForFault, faulted};
ghost use Rattle.bench_values.specs.Values.{outcome_in};
ghost use Rattle.from_scratch.specs.FromScratch.{IsFaultOf, IsFaultless, AreItemsOf, IsFromScratch};
ghost use Rattle.bench_slots.specs.Tables.{ModelReading, Sound, Faulty};
ghost use Rattle.bench_parts.specs.Contents.{PartsState, histories};
ghost use Rattle.bench_parts.specs.States.{net_in, makes};
ghost use Rattle.cells.specs.Cells.{SolvedIsFromScratch};
ghost use Rattle.bench_edits.specs.Settled.{IsNode, AreNodesOf};
ghost use Rattle.bench_edits.specs.Kept.{IsKeptState, IsTestAt, IsUnderVerdict, id_in, verdict_node, nodes_of};
ghost use Rattle.bench_edits.specs.BenchCells.{LeftCellsAreUntouched, UnreachedCellsAreUntouched};
ghost use Rattle.bench_edits.specs.Left.{EditsKeepKinds, OrderlyPartsAreKept, CellsAreLeft};
ghost use Rattle.bench_edits.specs.Slices.{EqualSlicesHaveSameCells};

use text_values::ModelText;

/// Each used node is one that the verdict of its test under some model stands on.
pub fn used_nodes_are_needed()
    ensures { (s : PartsState) (models : List ModelReading) (n : Node) → IsKeptState s models
        → Has (used s.parts.table) n → IsUnderVerdict s models n }
{}

/// Each test has a verdict under each model, which is used.
pub fn verdicts_are_used()
    ensures { (s : PartsState) (models : List ModelReading) → IsKeptState s models
        → (index : ℕ) (row : TestRow) (test : Test) → IsTestAt s index row test → (m : ModelReading)
        → Has models m → Has (used s.parts.table) (verdict_node row.id (id_in m)) }
{}

/// Under a model without fault, the nodes of a test are those of the test and of the model's items.
pub fn cells_have_their_nodes()
    ensures { (s : PartsState) (models : List ModelReading) → IsKeptState s models
        → (index : ℕ) (row : TestRow) (test : Test) → IsTestAt s index row test
        → (id : ℕ) (numbers : List ℕ) (items : List ResolvedItem) (used : List ℕ)
        → Has models (Sound id numbers items used)
        → AreNodesOf (net_in s) test items (nodes_of (histories s) row.id id numbers items) }
{}

/// Under a model with a fault, the verdict of a test is given its condition and the fault.
pub fn faulty_cells_have_their_verdict()
    ensures { (s : PartsState) (models : List ModelReading) → IsKeptState s models
        → (index : ℕ) (row : TestRow) (test : Test) → IsTestAt s index row test
        → (id : ℕ) (fault : ModelFault) → Has models (Faulty id fault)
        → IsNode (net_in s) (verdict_node row.id id) (ForFault (faulted test.condition fault)) [] }
{}

/// Where settled nodes hold what is made of the present, the settled verdict of a test under a
/// model without fault holds what evaluating the test from nothing gives.
pub fn verdicts_are_from_scratch(model: &ModelText)
    ensures { (s : PartsState) (models : List ModelReading) → IsKeptState s models
        → (index : ℕ) (row : TestRow) (test : Test) → IsTestAt s index row test
        → (id : ℕ) (numbers : List ℕ) (items : List ResolvedItem) (used : List ℕ)
        → Has models (Sound id numbers items used) → IsFaultless model.now
        → AreItemsOf model.now items
        → SolvedIsFromScratch makes (net_in s) outcome_in (Some (verdict_node row.id id))
        (λ o. IsFromScratch test model.now o) }
{
    let _model = model;
}

/// Under a model with a fault, so does its settled verdict.
pub fn faults_are_from_scratch(model: &ModelText)
    ensures { (s : PartsState) (models : List ModelReading) → IsKeptState s models
        → (index : ℕ) (row : TestRow) (test : Test) → IsTestAt s index row test
        → (id : ℕ) (fault : ModelFault) → Has models (Faulty id fault) → IsFaultOf model.now fault
        → SolvedIsFromScratch makes (net_in s) outcome_in (Some (verdict_node row.id id))
        (λ o. IsFromScratch test model.now o) }
{
    let _model = model;
}

/// A cell that an edit leaves has the same verdict, and nothing that the verdict stands on is
/// touched.
pub fn left_cells_are_untouched()
    ensures { LeftCellsAreUntouched }
{}

/// So does a cell of which it cannot be that the edit does not leave it.
pub fn unreached_cells_are_untouched()
    ensures { UnreachedCellsAreUntouched }
{}

/// After an edit each item that is a node by its text has its kind in the parts.
pub fn edits_keep_kinds()
    ensures { EditsKeepKinds }
{}

/// Of orderly parts, the models are kept as they are read, and each used node may keep what it
/// holds.
pub fn orderly_parts_are_kept()
    ensures { OrderlyPartsAreKept }
{}

/// A cell whose test says what it said, and whose model reads for it as it did, keeps its numbers,
/// and the edit leaves it.
pub fn cells_are_left()
    ensures { CellsAreLeft }
{}

/// Models that give a test one slice give its cells the same items, or the same fault.
pub fn equal_slices_have_same_cells()
    ensures { EqualSlicesHaveSameCells }
{}
