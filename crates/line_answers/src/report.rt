//! Tables and differences of files, as lines for programs.

ghost use Rattle.std.specs.Prelude.{◌≡◌, ◌++◌, ◌∷◌, [], IfOk, OnOk, List, length, map};
ghost use Rattle.std.specs.List.{AllZip};
ghost use Rattle.litmus_tokens.specs.Numbers.{number_of as test_rule_number};
ghost use Rattle.outcome_lines.specs.Records as records;
ghost use Rattle.outcome_lines.specs.Records.{model_outcome_of, test_of};
ghost use Rattle.command_answers.specs.Files.{AddsFault};
ghost use Rattle.line_answers.specs.Results.{rule_text, refused_file, IsOutcomeUnder};
ghost use Rattle.line_answers.specs.Reports.{lines_of, of_two, lines_said, IsLineReport};
ghost use Rattle.line_answers.specs.Added as added;
ghost use Rattle.line_answers.specs.Added.{AreJudges, AddsResult, AddsResults};

use crate::refusal::{refusal_of, rule_text};
use binding_graph::{ModelFault, Resolved};
use command_answers::{NamedModel, ReadModels, Report, TextFile, put_fault, read_models};
use from_scratch::resolved_models;
use litmus_ppc::{LitmusFault, LitmusRule, Test, read_test};
use outcome_lines::{
    ModelOutcome, TestResult, put_pair_json, put_pair_tab, put_test_json, put_test_tab,
};
use session_answers::{ProgressListener, outcomes_of, tell_rows};
use std::alloc::{AllocError, Global};
use text_values::ModelText;
use verdict::Outcome;

/// Which lines are written.
#[derive(Clone, Copy, Debug, PartialEq, Eq)]
pub enum Lines {
    /// A table, as fields with tabs between them.
    TableTab,
    /// A table, as objects of JSON.
    TableJson,
    /// Where two models tell tests apart, as fields with tabs between them.
    DifferenceTab,
    /// Where two models tell tests apart, as objects of JSON.
    DifferenceJson,
}

fn model_texts(alloc: Global, models: &[NamedModel]) -> Result<Vec<&ModelText>, AllocError>
    ensures { IfOk result (λ v. map (λ t. t.now) v.items ≡ map (λ m. m.model) models.now) }
{
    let mut texts = Vec::with_capacity(alloc, models.len())?;
    for model in models {
        texts.push(&model.model)?;
    }
    Ok(texts)
}

fn put_result(
    alloc: Global,
    text: &mut Vec<u8>,
    lines: Lines,
    given: &TestResult<'_>,
) -> Result<(), AllocError>
    ensures { OnOk result
        (text.new.items ≡ text.old.items ++ lines_of lines (test_of given.now ∷ [])) }
{
    match lines {
        Lines::TableTab => put_test_tab(text, given),
        Lines::TableJson => put_test_json(alloc, text, given),
        Lines::DifferenceTab => put_pair_tab(alloc, text, given),
        Lines::DifferenceJson => put_pair_json(alloc, text, given),
    }
}

// The outcomes, each with the name of its model.
fn named_outcomes<'a>(
    alloc: Global,
    models: &'a [NamedModel],
    outcomes: &'a [Outcome],
) -> Result<Vec<ModelOutcome<'a>>, AllocError>
    requires { length models.now ≡ length outcomes.now }
    ensures { IfOk result
        (λ v. map model_outcome_of v.items ≡ added.named_outcomes models.now outcomes.now) }
{
    let mut named = Vec::with_capacity(alloc, models.len())?;
    for (index, model) in models.iter().enumerate() {
        named.push(ModelOutcome {
            model: model.name.as_bytes(),
            outcome: &outcomes[index],
        })?;
    }
    Ok(named)
}

// What a test is judged by.
#[derive(Clone, Copy)]
struct Judges<'a> {
    lines: Lines,
    models: &'a [NamedModel],
    resolved: &'a [Result<Resolved, ModelFault>],
}

fn put_tested(
    alloc: Global,
    judges: &Judges<'_>,
    file: &TextFile<'_>,
    test: &Test,
    text: &mut Vec<u8>,
) -> Result<(), AllocError>
    requires { AreJudges judges.now.models.now judges.now.resolved.now }
    ensures { OnOk result ((outcomes : List records.ModelOutcome)
        × AllZip (IsOutcomeUnder test.now) judges.now.models.now outcomes
        × (text.new.items ≡ text.old.items ++ lines_of judges.now.lines
        (records.Tested file.now.path.now test.now.name outcomes ∷ []))) }
{
    let row = outcomes_of(alloc, test, judges.resolved)?;
    let outcomes = named_outcomes(alloc, judges.models, &row.outcomes)?;
    let tested = TestResult::Tested(file.path.as_bytes(), test.name.as_bytes(), &outcomes);
    put_result(alloc, text, judges.lines, &tested)
}

fn put_refused(
    alloc: Global,
    lines: Lines,
    file: &TextFile<'_>,
    rule: LitmusRule,
    offset: usize,
    report: &mut Report,
) -> Result<(), AllocError>
    ensures { OnOk result ((report.new.text.items ≡ report.old.text.items ++ lines_of lines
        (records.Refused (refused_file file.now (rule_text 76 (test_rule_number rule)) offset)
        ∷ []))
        × AddsFault report.old.faults.items report.new.faults.items file.now.path.now
        file.now.text.items 76 (test_rule_number rule) offset) }
{
    put_fault(&mut report.faults, file, b'L', rule.number(), offset)?;
    let rule = rule_text(alloc, b'L', rule.number())?;
    let refusal = refusal_of(file, &rule, offset);
    put_result(
        alloc,
        &mut report.text,
        lines,
        &TestResult::Refused(&refusal),
    )
}

fn put_file(
    alloc: Global,
    judges: &Judges<'_>,
    file: &TextFile<'_>,
    report: &mut Report,
) -> Result<(), AllocError>
    requires { AreJudges judges.now.models.now judges.now.resolved.now }
    ensures { OnOk result (AddsResult judges.now.lines judges.now.models.now file.now report.old
        report.new) }
{
    match read_test(alloc, &file.text) {
        Ok(test) => put_tested(alloc, judges, file, &test, &mut report.text),
        Err(LitmusFault::OutOfMemory(e)) => Err(e),
        Err(LitmusFault::Refused { rule, offset }) => {
            put_refused(alloc, judges.lines, file, rule, offset, report)
        }
    }
}

fn put_files<L: ProgressListener>(
    alloc: Global,
    judges: &Judges<'_>,
    files: &[TextFile<'_>],
    report: &mut Report,
    listener: &mut L,
) -> Result<(), AllocError>
    requires { AreJudges judges.now.models.now judges.now.resolved.now }
    ensures { OnOk result (AddsResults judges.now.lines judges.now.models.now files.now report.old
        report.new) }
{
    let count = judges.models.len();
    tell_rows(listener, 0, files.len(), count);
    for (index, file) in files.iter().enumerate() {
        put_file(alloc, judges, file, report)?;
        tell_rows(listener, index + 1, files.len(), count);
    }
    Ok(())
}

// No lines where the models are not two.
fn text_of_two(alloc: Global, models: &[NamedModel], text: Vec<u8>) -> Vec<u8>
    ensures { result.items ≡ of_two models.now text.items }
{
    if models.len() != 2 {
        return Vec::new(alloc);
    }
    text
}

fn text_told(alloc: Global, lines: Lines, models: &[NamedModel], text: Vec<u8>) -> Vec<u8>
    ensures { result.items ≡ lines_said lines models.now text.items }
{
    match lines {
        Lines::TableTab | Lines::TableJson => text,
        Lines::DifferenceTab | Lines::DifferenceJson => text_of_two(alloc, models, text),
    }
}

/// The tests of some files under the models of others, as lines for programs: those of each file
/// behind those of the file before it. The first lines of what is told are of the models. A
/// listener hears how far it is. Errors: want of memory.
pub fn line_report<L: ProgressListener>(
    alloc: Global,
    lines: Lines,
    models: &[TextFile<'_>],
    tests: &[TextFile<'_>],
    listener: &mut L,
) -> Result<Report, AllocError>
    ensures { IfOk result
        (λ r. IsLineReport lines models.now tests.now r.text.items r.faults.items) }
{
    let ReadModels { models, faults } = read_models(alloc, models)?;
    let texts = model_texts(alloc, &models)?;
    let resolved = resolved_models(alloc, &texts)?;
    let judges = Judges {
        lines,
        models: &models,
        resolved: &resolved,
    };
    let mut report = Report {
        text: Vec::new(alloc),
        faults,
    };
    let written = put_files(alloc, &judges, tests, &mut report, listener);
    listener.hear_end();
    written?;
    Ok(Report {
        text: text_told(alloc, lines, &models, report.text),
        faults: report.faults,
    })
}
