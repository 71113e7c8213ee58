//! Tables and differences over files.

ghost use Rattle.std.specs.Prelude.{◌≡◌, ◌^◌, ◌-◌, ◌<◌, ◌==◌, not, IfOk, OnOk, OnErr, length, map};
ghost use Rattle.std.specs.List.{AllZip};
ghost use Rattle.std.specs.Io.KnownBytes.{Appends};
ghost use Rattle.outcome_texts.specs.Columns.{table_of};
ghost use Rattle.session_answers.specs.Rows.{row_said};
ghost use Rattle.command_answers.specs.Reports.{IsReportRow, AreFilesRead, model_names, IsTableReport, difference_under, IsDifferenceReport, IsStopped};
ghost use Rattle.session_script.specs.Written.{WritesPrefix};

use crate::file::TextFile;
use crate::reading::{NamedModel, read_models, read_tests};
use cat_syntax::ModelText;
use command_line::SessionFault;
use litmus_ppc::{Name, Test};
use outcome_texts::{difference_text, table_text};
use session_answers::{ProgressListener, TestOutcomes, test_outcomes, test_pairs, test_rows};
use session_script::{ByteSink, write_whole};
use std::alloc::{AllocError, Global};

/// What is said of files of models and tests.
#[derive(Drop)]
pub struct Report {
    /// The text that was asked for.
    pub text: Vec<u8>,
    /// What is told of the files that are refused.
    pub faults: Vec<u8>,
}

// What was read and evaluated.
#[derive(Drop)]
struct EvaluatedFiles {
    models: Vec<NamedModel>,
    rows: Vec<TestOutcomes>,
    faults: Vec<u8>,
}

fn model_texts(alloc: Global, models: &[NamedModel]) -> Result<Vec<&ModelText>, AllocError>
    ensures { IfOk result (λ v. map (λ t. t.now) v.items ≡ map (λ m. m.model) models.now) }
{
    let mut texts = Vec::with_capacity(alloc, models.len())?;
    for model in models {
        texts.push(&model.model)?;
    }
    Ok(texts)
}

fn all_outcomes<L: ProgressListener>(
    alloc: Global,
    tests: &[Test],
    models: &[NamedModel],
    listener: &mut L,
) -> Result<Vec<TestOutcomes>, AllocError>
    ensures { IfOk result (λ v. AllZip (IsReportRow models.now) tests.now (map row_said v.items)) }
{
    let texts = model_texts(alloc, models)?;
    test_outcomes(alloc, tests, &texts, listener)
}

fn evaluate_files<L: ProgressListener>(
    alloc: Global,
    models: &[TextFile<'_>],
    tests: &[TextFile<'_>],
    listener: &mut L,
) -> Result<EvaluatedFiles, AllocError>
    ensures { IfOk result (λ e. AreFilesRead models.now tests.now e.models.items
        (map row_said e.rows.items) e.faults.items) }
{
    let known = read_models(alloc, models)?;
    let read = read_tests(alloc, tests, known.faults)?;
    let rows = all_outcomes(alloc, &read.tests, &known.models, listener)?;
    Ok(EvaluatedFiles {
        models: known.models,
        rows,
        faults: read.faults,
    })
}

fn names(alloc: Global, models: &[NamedModel]) -> Result<Vec<Name>, AllocError>
    ensures { IfOk result (λ v. v.items ≡ model_names models.now) }
{
    let mut names = Vec::with_capacity(alloc, models.len())?;
    for model in models {
        names.push(model.name.copied(alloc)?)?;
    }
    Ok(names)
}

fn table_of_rows(
    alloc: Global,
    models: &[NamedModel],
    rows: &[TestOutcomes],
) -> Result<Vec<u8>, AllocError>
    ensures { IfOk result
        (λ v. v.items ≡ table_of (model_names models.now) (map row_said rows.now)) }
{
    let names = names(alloc, models)?;
    let rows = test_rows(alloc, rows)?;
    table_text(alloc, &names, &rows)
}

/// The table of the tests of some files under the models of others. A listener hears how far it is.
/// Errors: want of memory.
pub fn table_report<L: ProgressListener>(
    alloc: Global,
    models: &[TextFile<'_>],
    tests: &[TextFile<'_>],
    listener: &mut L,
) -> Result<Report, AllocError>
    ensures { IfOk result (λ r. IsTableReport models.now tests.now r.text.items r.faults.items) }
{
    let found = evaluate_files(alloc, models, tests, listener)?;
    let text = table_of_rows(alloc, &found.models, &found.rows)?;
    Ok(Report {
        text,
        faults: found.faults,
    })
}

fn difference_of_rows(
    alloc: Global,
    models: &[NamedModel],
    rows: &[TestOutcomes],
) -> Result<Vec<u8>, AllocError>
    ensures { IfOk result (λ v. v.items ≡ difference_under models.now (map row_said rows.now)) }
{
    if models.len() != 2 {
        return Ok(Vec::new(alloc));
    }
    let pairs = test_pairs(alloc, rows)?;
    difference_text(alloc, &pairs)
}

/// Where the two models of two files tell the tests of other files apart; no text where one of the
/// models is refused. A listener hears how far it is. Errors: want of memory.
pub fn difference_report<L: ProgressListener>(
    alloc: Global,
    models: &[TextFile<'_>],
    tests: &[TextFile<'_>],
    listener: &mut L,
) -> Result<Report, AllocError>
    ensures { IfOk result
        (λ r. IsDifferenceReport models.now tests.now r.text.items r.faults.items) }
{
    let found = evaluate_files(alloc, models, tests, listener)?;
    let text = difference_of_rows(alloc, &found.models, &found.rows)?;
    Ok(Report {
        text,
        faults: found.faults,
    })
}

/// Writes what is told of the refused files to one sink, then the text to another. Whether a file
/// was refused. Errors: `Write` where a call failed; then what was written is a prefix.
pub fn write_report<W: ByteSink, E: ByteSink>(
    report: &Report,
    output: &mut W,
    errors: &mut E,
) -> Result<bool, SessionFault>
    requires output { W.failed_calls output.old < 2 ^ 64 - 1 }
    requires errors { E.failed_calls errors.old < 2 ^ 64 - 1 }
    // A file was refused just where one is told.
    ensures refused { IfOk result (λ r. r ≡ not (length report.now.faults.items == 0)) }
    // All is written, or a prefix where a write failed.
    ensures text { OnOk result (Appends (W.contents output.old) (W.contents output.new)
        report.now.text.items) }
    ensures faults { OnOk result (Appends (E.contents errors.old) (E.contents errors.new)
        report.now.faults.items) }
    ensures text_prefix { WritesPrefix (W.contents output.old) (W.contents output.new)
        report.now.text.items }
    ensures faults_prefix { WritesPrefix (E.contents errors.old) (E.contents errors.new)
        report.now.faults.items }
    // `Write` comes after one failed call, which is the last, and there is no other error.
    ensures failed { OnErr result (IsStopped (W.failed_calls output.old) (W.failed_calls output.new)
        (E.failed_calls errors.old) (E.failed_calls errors.new) (W.contents output.old)
        (W.contents output.new)) }
    ensures output_works { OnOk result (W.failed_calls output.new ≡ W.failed_calls output.old) }
    ensures errors_work { OnOk result (E.failed_calls errors.new ≡ E.failed_calls errors.old) }
    ensures fault { OnErr result (result ≡ Err SessionFault.Write) }
{
    if write_whole(errors, &report.faults).is_err() {
        return Err(SessionFault::Write);
    }
    if write_whole(output, &report.text).is_err() {
        return Err(SessionFault::Write);
    }
    Ok(!report.faults.is_empty())
}
