//! The tests of some files, judged and drawn.

ghost use Rattle.std.specs.Prelude.{◌≡◌, ◌||◌, List, ℕ, IfOk, OnOk, map};
ghost use Rattle.litmus_grammar.specs.Texts.{ReadsTest};
ghost use Rattle.text_values.specs.TestValue.{content_of};
ghost use Rattle.report_details.specs.Groups.{are_told_apart};
ghost use Rattle.report_answers.specs.Drawn.{AreDrawingsIf};
ghost use Rattle.report_answers.specs.Judges.{AreJudges, IsRowUnder, content_in};
ghost use Rattle.report_answers.specs.Known.{shown_test, start_content, AddsKnownTest, AreKnownTests};

use crate::drawings::{DrawingBudget, drawings_of};
use crate::models::KnownModel;
use binding_graph::{ModelFault, Resolved};
use command_answers::{TextFile, put_fault};
use litmus_ppc::{LitmusFault, Test, read_test};
use report_page::{ReportedTest, is_told_apart};
use session_answers::{ProgressListener, TestOutcomes, outcomes_of, tell_rows};
use std::alloc::{AllocError, Global};

/// A test that is judged, and its file.
#[derive(Drop)]
pub struct KnownTest<'a> {
    /// The file.
    pub file: &'a TextFile<'a>,
    /// Its outcomes, in the order of the models.
    pub row: TestOutcomes,
    /// Its drawings, in the order of the models.
    pub drawings: Vec<Vec<u8>>,
}

/// What a test is judged by, and whether each is drawn.
#[derive(Clone, Copy)]
pub struct Judges<'a, 'b> {
    /// The models.
    pub models: &'a [KnownModel<'b>],
    /// The same as steps.
    pub resolved: &'a [Result<Resolved, ModelFault>],
    /// Whether tests on which the models agree are drawn too.
    pub is_all: bool,
}

/// What is known of the tests so far.
#[derive(Drop)]
pub struct KnownTests<'a> {
    /// The tests.
    pub tests: Vec<KnownTest<'a>>,
    /// How many drawings may still be made.
    pub budget: DrawingBudget,
}

// Whether a test of these outcomes is drawn.
fn is_drawn(alloc: Global, judges: &Judges<'_, '_>, row: &TestOutcomes) -> Result<bool, AllocError>
    ensures { IfOk result
        (λ b. b ≡ (judges.now.is_all || are_told_apart row.now.outcomes.items)) }
{
    if judges.is_all {
        return Ok(true);
    }
    is_told_apart(alloc, &row.outcomes)
}

fn drawings_if(
    alloc: Global,
    judges: &Judges<'_, '_>,
    test: &Test,
    row: &TestOutcomes,
    budget: &mut DrawingBudget,
) -> Result<Vec<Vec<u8>>, AllocError>
    requires { IsRowUnder test.now judges.now.models.now row.now }
    ensures { IfOk result (λ v. AreDrawingsIf
        (judges.now.is_all || are_told_apart row.now.outcomes.items) test.now judges.now.models.now
        row.now.outcomes.items budget.old (map (λ d. d.items) v.items) budget.new) }
{
    if is_drawn(alloc, judges, row)? {
        return drawings_of(alloc, test, judges.models, &row.outcomes, budget);
    }
    Ok(Vec::new(alloc))
}

fn add_judged<'a>(
    alloc: Global,
    judges: &Judges<'_, '_>,
    file: &'a TextFile<'a>,
    test: &Test,
    known: &mut KnownTests<'a>,
) -> Result<(), AllocError>
    requires judges { AreJudges judges.now.models.now judges.now.resolved.now }
    requires read { ReadsTest file.now.text.items (content_of test.now) }
    ensures { (lines : List ℕ) → OnOk result (AddsKnownTest judges.now.is_all judges.now.models.now
        file.now (content_in known.old lines) (content_in known.new lines)) }
{
    let row = outcomes_of(alloc, test, judges.resolved)?;
    let drawings = drawings_if(alloc, judges, test, &row, &mut known.budget)?;
    known.tests.push(KnownTest {
        file,
        row,
        drawings,
    })?;
    Ok(())
}

fn add_test<'a>(
    alloc: Global,
    judges: &Judges<'_, '_>,
    file: &'a TextFile<'a>,
    known: &mut KnownTests<'a>,
    faults: &mut Vec<u8>,
) -> Result<(), AllocError>
    requires { AreJudges judges.now.models.now judges.now.resolved.now }
    ensures { OnOk result (AddsKnownTest judges.now.is_all judges.now.models.now file.now
        (content_in known.old faults.old.items) (content_in known.new faults.new.items)) }
{
    match read_test(alloc, &file.text) {
        Ok(test) => add_judged(alloc, judges, file, &test, known),
        Err(LitmusFault::OutOfMemory(e)) => Err(e),
        Err(LitmusFault::Refused { rule, offset }) => {
            put_fault(faults, file, b'L', rule.number(), offset)
        }
    }
}

/// What is known of the tests of files whose texts read; what is told of the others goes behind
/// these lines. A listener hears how far it is. Errors: want of memory.
pub fn known_tests<'a, L: ProgressListener>(
    alloc: Global,
    judges: &Judges<'_, '_>,
    files: &'a [TextFile<'a>],
    most: u64,
    faults: &mut Vec<u8>,
    listener: &mut L,
) -> Result<KnownTests<'a>, AllocError>
    requires { AreJudges judges.now.models.now judges.now.resolved.now }
    ensures { IfOk result (λ k. AreKnownTests judges.now.is_all judges.now.models.now
        (start_content most faults.old.items) files.now (content_in k faults.new.items)) }
{
    let count = judges.models.len();
    let budget = DrawingBudget {
        left: most,
        left_out: 0,
    };
    let tests = Vec::new(alloc);
    let mut known = KnownTests { tests, budget };
    tell_rows(listener, 0, files.len(), count);
    for (index, file) in files.iter().enumerate() {
        add_test(alloc, judges, file, &mut known, faults)?;
        tell_rows(listener, index + 1, files.len(), count);
    }
    Ok(known)
}

/// The tests as the page shows them. Errors: want of memory.
pub fn reported_tests<'a>(
    alloc: Global,
    tests: &'a [KnownTest<'_>],
) -> Result<Vec<ReportedTest<'a>>, AllocError>
    ensures { IfOk result (λ v. v.items ≡ map shown_test tests.now) }
{
    let mut reported = Vec::with_capacity(alloc, tests.len())?;
    for test in tests {
        reported.push(ReportedTest {
            name: test.row.name.as_bytes(),
            text: &test.file.text,
            outcomes: &test.row.outcomes,
            drawings: &test.drawings,
        })?;
    }
    Ok(reported)
}
