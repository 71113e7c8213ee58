//! What of the line of a request is at fault, where it is refused for that.

ghost use Rattle.std.specs.Prelude.{◌≡◌, IfOk, decimal};
ghost use Rattle.bench_texts.specs.Edits.{has_test, has_model};
ghost use Rattle.bench_texts.specs.Held.{texts_of};
ghost use Rattle.session_run.specs.Blamed.{blamed_word, missing_word, test_or, model_or};

use bench_texts::Texts;
use session_script::{Request, ScriptText};
use std::alloc::{AllocError, Global};
use text_values::put_decimal;

fn word(alloc: Global, name: &ScriptText) -> Result<Vec<u8>, AllocError>
    ensures { IfOk result (λ v. v.items ≡ name.now) }
{
    Vec::from_slice(alloc, name.as_bytes())
}

fn decimal(alloc: Global, number: u64) -> Result<Vec<u8>, AllocError>
    ensures { IfOk result (λ v. v.items ≡ decimal number) }
{
    let mut word = Vec::new(alloc);
    put_decimal(&mut word, number)?;
    Ok(word)
}

fn is_test(texts: &Texts, name: &ScriptText) -> bool
    ensures { result ≡ has_test (texts_of texts.now) name.now }
{
    texts.test_index(name.as_bytes()) < texts.tests().len()
}

fn is_model(texts: &Texts, name: &ScriptText) -> bool
    ensures { result ≡ has_model (texts_of texts.now) name.now }
{
    texts.model_index(name.as_bytes()) < texts.models().len()
}

// The first of these models that is not there, or no word. Errors: out of memory.
fn missing_word(alloc: Global, texts: &Texts, names: &[ScriptText]) -> Result<Vec<u8>, AllocError>
    ensures { IfOk result (λ v. v.items ≡ missing_word (texts_of texts.now) names.now) }
{
    for name in names {
        if !is_model(texts, name) {
            return word(alloc, name);
        }
    }
    Ok(Vec::new(alloc))
}

// The name of a model that is not there, or else that of another model.
fn model_word(
    alloc: Global,
    texts: &Texts,
    first: &ScriptText,
    second: &ScriptText,
) -> Result<Vec<u8>, AllocError>
    ensures { IfOk result (λ v. v.items ≡ model_or (texts_of texts.now) first.now second.now) }
{
    if is_model(texts, first) {
        word(alloc, second)
    } else {
        word(alloc, first)
    }
}

// The name of a model that is not there, or else the number of its item.
fn item_word(
    alloc: Global,
    texts: &Texts,
    model: &ScriptText,
    item: u64,
) -> Result<Vec<u8>, AllocError>
    ensures { IfOk result (λ v. v.items
        ≡ model_or (texts_of texts.now) model.now (decimal item)) }
{
    if is_model(texts, model) {
        decimal(alloc, item)
    } else {
        word(alloc, model)
    }
}

// The name of a test that is not there, or else the number of its thread.
fn thread_word(
    alloc: Global,
    texts: &Texts,
    test: &ScriptText,
    thread: u64,
) -> Result<Vec<u8>, AllocError>
    ensures { IfOk result (λ v. v.items
        ≡ test_or (texts_of texts.now) test.now (decimal thread)) }
{
    if is_test(texts, test) {
        decimal(alloc, thread)
    } else {
        word(alloc, test)
    }
}

// The name of a test that is not there, or else that of a model.
fn cell_word(
    alloc: Global,
    texts: &Texts,
    test: &ScriptText,
    model: &ScriptText,
) -> Result<Vec<u8>, AllocError>
    ensures { IfOk result (λ v. v.items
        ≡ test_or (texts_of texts.now) test.now model.now) }
{
    if is_test(texts, test) {
        word(alloc, model)
    } else {
        word(alloc, test)
    }
}

/// The word of a request's line that is at fault where these texts refuse it for its line: the
/// first name that is not there, or the number of a thread or of an item. Errors: out of memory.
pub(crate) fn blamed_word(
    alloc: Global,
    texts: &Texts,
    request: &Request,
) -> Result<Vec<u8>, AllocError>
    ensures { IfOk result (λ v. v.items
        ≡ blamed_word (texts_of texts.now) request.now) }
{
    match request {
        Request::PutTest => Ok(Vec::new(alloc)),
        Request::PutModel { model } | Request::DropModel { model } | Request::Items { model } =>
            word(alloc, model),
        Request::SetInit { test }
        | Request::SetCondition { test }
        | Request::SetLocations { test }
        | Request::DropTest { test } => word(alloc, test),
        Request::SetThread { test, thread } => thread_word(alloc, texts, test, *thread),
        Request::SetItem { model, item } | Request::RemoveItem { model, item } => {
            item_word(alloc, texts, model, *item)
        }
        Request::InsertItem { model, before } => item_word(alloc, texts, model, *before),
        Request::Show { test, model } | Request::Counts { test, model } => {
            cell_word(alloc, texts, test, model)
        }
        Request::Table { models } => missing_word(alloc, texts, models.as_slice()),
        Request::Difference { first, second } => model_word(alloc, texts, first, second),
    }
}
