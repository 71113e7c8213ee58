//! The page.

ghost use Rattle.std.specs.Prelude.{◌≡◌, IfOk, map};
ghost use Rattle.report_page.specs.Page.{report_page};
ghost use Rattle.report_answers.specs.Whole.{IsWellFormed};
ghost use Rattle.report_answers.specs.Judges.{content_in};
ghost use Rattle.report_answers.specs.Known.{shown_model, shown_test, start_content, AreKnownTests};
ghost use Rattle.report_answers.specs.Pages.{extras_of, IsPageReport};

use crate::judged::{Judges, KnownTests, known_tests, reported_tests};
use crate::models::{KnownModel, known_models, model_texts, reported_models};
use command_answers::{Report, TextFile};
use from_scratch::resolved_models;
use report_page::{Extras, put_page};
use session_answers::ProgressListener;
use std::alloc::{AllocError, Global};

/// What is asked of a page beside its files.
#[derive(Clone, Copy)]
pub struct PageRequest {
    /// Whether all tests are drawn, not those alone that tell models apart.
    pub is_all: bool,
    /// How many drawings there are at most.
    pub most: u64,
}

fn page_of(
    alloc: Global,
    models: &[KnownModel<'_>],
    known: &KnownTests<'_>,
    faults: &[u8],
) -> Result<Vec<u8>, AllocError>
    ensures { IfOk result (λ v. v.items ≡ report_page (map shown_model models.now)
        (map shown_test known.now.tests.items) (extras_of (content_in known.now faults.now))) }
{
    let models = reported_models(alloc, models)?;
    let tests = reported_tests(alloc, &known.tests)?;
    let extras = Extras {
        refusals: faults,
        left_out: known.budget.left_out,
    };
    let mut page = Vec::new(alloc);
    put_page(alloc, &mut page, &models, &tests, &extras)?;
    Ok(page)
}

fn judged_tests<'a, L: ProgressListener>(
    alloc: Global,
    request: PageRequest,
    models: &[KnownModel<'_>],
    files: &'a [TextFile<'a>],
    faults: &mut Vec<u8>,
    listener: &mut L,
) -> Result<KnownTests<'a>, AllocError>
    ensures { IfOk result (λ k. AreKnownTests request.is_all models.now
        (start_content request.most faults.old.items) files.now (content_in k faults.new.items)) }
{
    let texts = model_texts(alloc, models)?;
    let resolved = resolved_models(alloc, &texts)?;
    let judges = Judges {
        models,
        resolved: &resolved,
        is_all: request.is_all,
    };
    known_tests(alloc, &judges, files, request.most, faults, listener)
}

/// The page of the tests of some files under the models of others, and what is told of the files
/// that are refused, those of models first. A listener hears how far it is. Errors: want of memory.
pub fn page_report<L: ProgressListener>(
    alloc: Global,
    request: PageRequest,
    models: &[TextFile<'_>],
    tests: &[TextFile<'_>],
    listener: &mut L,
) -> Result<Report, AllocError>
    ensures page { IfOk result
        (λ r. IsPageReport request models.now tests.now r.text.items r.faults.items) }
    ensures well_formed { IfOk result (λ r. IsWellFormed r.text.items) }
{
    let mut faults = Vec::new(alloc);
    let known = known_models(alloc, models, &mut faults)?;
    let judged = judged_tests(alloc, request, &known, tests, &mut faults, listener);
    listener.hear_end();
    let text = page_of(alloc, &known, &judged?, &faults)?;
    Ok(Report { text, faults })
}
