//! One test under one model, from bytes to a log.

ghost use Rattle.std.specs.Prelude.{◌≡◌, IfOk, IfErr};
ghost use Rattle.cat_grammar.specs.declared.form.Form.{Form};
ghost use Rattle.cat_grammar.specs.Reads.{ReadsClauses};
ghost use Rattle.text_values.specs.ModelValues.{clauses_of};
ghost use Rattle.litmus_grammar.specs.Texts.{ReadsTest};
ghost use Rattle.text_values.specs.TestValue.{content_of};
ghost use Rattle.command_answers.specs.Pictures as requests;
ghost use Rattle.command_answers.specs.Pictures.{IsPictureOf};
ghost use Rattle.command_answers.specs.Answer.{IsLogOf, IsEvalLog, IsEvalRefusal, IsModelEvalFault, IsTestEvalFault};
ghost use Rattle.command_answers.specs.Whys.{IsWhyOf};

use crate::fault::EvalFault;
use cat_syntax::{CatFault, ModelText, read_model};
use command_line::{Drawn, Pictures};
use litmus_ppc::{LitmusFault, Test, read_test};
use outcome_texts::outcome_log;
use session_answers::eval_cell;
use std::alloc::{AllocError, Global};
use why_forbidden::{Asked, DrawRequest, Format, Wanted, draw, why};

// The model and the test that two texts mean.
#[derive(Drop)]
struct KnownTexts {
    model: ModelText,
    test: Test,
}

fn model_of(alloc: Global, text: &[u8]) -> Result<ModelText, EvalFault>
    ensures found { IfOk result (λ m. ReadsClauses Form.Model text.now (clauses_of m.items.items)) }
    ensures fault { IfErr result (IsModelEvalFault text.now) }
{
    match read_model(alloc, text) {
        Ok(model) => Ok(model),
        Err(CatFault::OutOfMemory(e)) => Err(EvalFault::Memory(e)),
        Err(CatFault::Refused { rule, offset }) => {
            Err(EvalFault::Model(CatFault::Refused { rule, offset }))
        }
    }
}

fn test_of(alloc: Global, text: &[u8]) -> Result<Test, EvalFault>
    ensures found { IfOk result (λ t. ReadsTest text.now (content_of t)) }
    ensures fault { IfErr result (IsTestEvalFault text.now) }
{
    match read_test(alloc, text) {
        Ok(test) => Ok(test),
        Err(LitmusFault::OutOfMemory(e)) => Err(EvalFault::Memory(e)),
        Err(LitmusFault::Refused { rule, offset }) => {
            Err(EvalFault::Test(LitmusFault::Refused { rule, offset }))
        }
    }
}

// The model is read first.
fn known_texts(alloc: Global, model: &[u8], test: &[u8]) -> Result<KnownTexts, EvalFault>
    ensures model_read { IfOk result (λ k.
        ReadsClauses Form.Model model.now (clauses_of k.model.items.items)) }
    ensures test_read { IfOk result (λ k. ReadsTest test.now (content_of k.test)) }
    ensures refusal { IfErr result (IsEvalRefusal model.now test.now) }
{
    let known_model = match model_of(alloc, model) {
        Ok(known) => known,
        Err(fault) => return Err(fault),
    };
    match test_of(alloc, test) {
        Ok(known_test) => Ok(KnownTexts {
            model: known_model,
            test: known_test,
        }),
        Err(fault) => Err(fault),
    }
}

fn outcome_text(alloc: Global, test: &Test, model: &ModelText) -> Result<Vec<u8>, AllocError>
    ensures { IfOk result (λ log. IsLogOf test.now model.now log.items) }
{
    let outcome = eval_cell(alloc, test, model)?;
    outcome_log(alloc, test.name.as_bytes(), &outcome)
}

/// The log of the test under the model. The model is read first. Errors: the first rule that the
/// model breaks, with its byte, then that of the test, or want of memory.
pub fn eval(alloc: Global, model: &[u8], test: &[u8]) -> Result<Vec<u8>, EvalFault>
    // A log is that of an outcome of the test and the model that the texts mean.
    ensures log { IfOk result (λ log. IsEvalLog model.now test.now log.items) }
    // A refusal is that of the first text that means nothing.
    ensures refusal { IfErr result (IsEvalRefusal model.now test.now) }
{
    let known = match known_texts(alloc, model, test) {
        Ok(known) => known,
        Err(fault) => return Err(fault),
    };
    match outcome_text(alloc, &known.test, &known.model) {
        Ok(log) => Ok(log),
        Err(e) => Err(EvalFault::Memory(e)),
    }
}

/// Why the model forbids what the condition of the test asks for, or an execution that it keeps.
/// The model is read first. Errors: those of `eval`.
pub fn why_report(
    alloc: Global,
    asked: Asked,
    model: &[u8],
    test: &[u8],
) -> Result<Vec<u8>, EvalFault>
    // A report is what is said of the test and the model that the texts mean.
    ensures report { IfOk result (λ text. IsWhyOf asked model.now test.now text.items) }
    // A refusal is that of the first text that means nothing.
    ensures refusal { IfErr result (IsEvalRefusal model.now test.now) }
{
    let known = match known_texts(alloc, model, test) {
        Ok(known) => known,
        Err(fault) => return Err(fault),
    };
    match why(alloc, asked, &known.test, &known.model) {
        Ok(text) => Ok(text),
        Err(e) => Err(EvalFault::Memory(e)),
    }
}

fn wanted(drawn: Drawn) -> Wanted
    ensures { result ≡ requests.wanted_executions drawn }
{
    match drawn {
        Drawn::Shown => Wanted::Shown,
        Drawn::Forbidden => Wanted::Forbidden,
        Drawn::All => Wanted::All,
    }
}

// The one of this number, from 1, of the executions that are drawn.
fn one_of(drawn: Drawn, nth: u64, format: Format) -> DrawRequest
    ensures { result ≡ requests.one_of drawn nth format }
{
    DrawRequest {
        wanted: wanted(drawn),
        skipped: nth.saturating_sub(1),
        most: nth,
        format,
    }
}

// So many at most of the executions that are drawn.
fn some_of(drawn: Drawn, most: u64, format: Format) -> DrawRequest
    ensures { result ≡ requests.some_of drawn most format }
{
    DrawRequest {
        wanted: wanted(drawn),
        skipped: 0,
        most,
        format,
    }
}

/// What the words of `draw` ask for.
pub fn draw_request(drawn: Drawn, pictures: Pictures) -> DrawRequest
    ensures { result ≡ requests.draw_request drawn pictures }
{
    match pictures {
        Pictures::Graphs { most } => some_of(drawn, most, Format::Dot),
        Pictures::Svgs { most } => some_of(drawn, most, Format::Svg),
        Pictures::Graph { nth } => one_of(drawn, nth, Format::Dot),
        Pictures::Svg { nth } => one_of(drawn, nth, Format::Svg),
    }
}

/// Drawings of executions of the test under the model. The model is read first. Errors: those of
/// `eval`.
pub fn draw_report(
    alloc: Global,
    model: &[u8],
    test: &[u8],
    request: DrawRequest,
) -> Result<Vec<u8>, EvalFault>
    // A report is what is drawn of the test and the model that the texts mean.
    ensures report { IfOk result (λ text. IsPictureOf request model.now test.now text.items) }
    // A refusal is that of the first text that means nothing.
    ensures refusal { IfErr result (IsEvalRefusal model.now test.now) }
{
    let known = match known_texts(alloc, model, test) {
        Ok(known) => known,
        Err(fault) => return Err(fault),
    };
    match draw(alloc, &known.test, &known.model, request) {
        Ok(text) => Ok(text),
        Err(e) => Err(EvalFault::Memory(e)),
    }
}
