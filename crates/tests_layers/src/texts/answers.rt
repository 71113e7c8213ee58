//! What is answered to an edit or a question.

use crate::readers::put_refusal;
use bench_texts::{EditFault, NamedModel, Reading, Texts};
use cat_syntax::{CatFault, print_item};
use litmus_ppc::{LitmusFault, print_test};
use std::alloc::{AllocError, Global};
use text_values::{put_bytes, put_decimal};

fn put_fault(answer: &mut Vec<u8>, fault: EditFault) -> Result<(), AllocError> {
    if let Some(number) = fault.number() {
        put_bytes(answer, b"refused X")?;
        return put_decimal(answer, u64::from(number));
    }
    match fault {
        EditFault::Test(LitmusFault::Refused { rule, offset }) => {
            put_refusal(answer, b"L", rule.number(), offset)
        }
        EditFault::Model(CatFault::Refused { rule, offset }) => {
            put_refusal(answer, b"C", rule.number(), offset)
        }
        _ => put_bytes(answer, b"out of memory"),
    }
}

/// Appends whether an edit was made.
pub fn put_result(answer: &mut Vec<u8>, made: Result<(), EditFault>) -> Result<(), AllocError> {
    match made {
        Ok(()) => put_bytes(answer, b"ok"),
        Err(fault) => put_fault(answer, fault),
    }
}

/// Appends the names of the tests and of the models, and the number that the next item is given.
pub fn put_names(answer: &mut Vec<u8>, texts: &Texts) -> Result<(), AllocError> {
    put_bytes(answer, b"tests")?;
    for test in texts.tests() {
        put_bytes(answer, b" ")?;
        put_bytes(answer, test.name.as_bytes())?;
    }
    put_bytes(answer, b"; models")?;
    for model in texts.models() {
        put_bytes(answer, b" ")?;
        put_bytes(answer, model.name())?;
    }
    put_bytes(answer, b"; next ")?;
    put_decimal(answer, texts.next_item())
}

/// Appends the printed test of that name.
pub fn put_test(
    alloc: Global,
    answer: &mut Vec<u8>,
    texts: &Texts,
    name: &[u8],
) -> Result<(), AllocError> {
    match texts.tests().get(texts.test_index(name)) {
        Some(test) => put_bytes(answer, &print_test(alloc, test)?),
        None => put_bytes(answer, b"no test"),
    }
}

// Appends the items of a model, each with its number before it.
fn put_numbered(alloc: Global, answer: &mut Vec<u8>, model: &NamedModel) -> Result<(), AllocError> {
    for (item, number) in model.text().items.iter().zip(model.numbers().iter()) {
        put_decimal(answer, *number)?;
        put_bytes(answer, b" ")?;
        put_bytes(answer, &print_item(alloc, item)?)?;
        put_bytes(answer, b"; ")?;
    }
    put_bytes(answer, b"end")
}

/// Appends the items of the model of that name.
pub fn put_items(
    alloc: Global,
    answer: &mut Vec<u8>,
    texts: &Texts,
    name: &[u8],
) -> Result<(), AllocError> {
    match texts.models().get(texts.model_index(name)) {
        Some(model) => put_numbered(alloc, answer, model),
        None => put_bytes(answer, b"no model"),
    }
}

/// Appends the items of the model of that name, as the bench prints them.
pub fn put_printed(
    alloc: Global,
    answer: &mut Vec<u8>,
    texts: &Texts,
    name: &[u8],
) -> Result<(), AllocError> {
    match texts.models().get(texts.model_index(name)) {
        Some(model) => put_bytes(answer, &model.print_items(alloc)?),
        None => put_bytes(answer, b"no model"),
    }
}

// Appends the numbers of the items that checks and flags reach, or the number of the first fault.
fn put_used(answer: &mut Vec<u8>, model: &NamedModel) -> Result<(), AllocError> {
    match model.reading() {
        Reading::Faulty(fault) => {
            put_bytes(answer, b"M")?;
            put_decimal(answer, u64::from(fault.number()))
        }
        Reading::Sound { used, .. } => {
            put_bytes(answer, b"used")?;
            for index in used {
                put_bytes(answer, b" ")?;
                put_decimal(answer, model.numbers().get(*index).copied().unwrap_or(0))?;
            }
            Ok(())
        }
    }
}

/// Appends what checks and flags reach in the model of that name.
pub fn put_reading(answer: &mut Vec<u8>, texts: &Texts, name: &[u8]) -> Result<(), AllocError> {
    match texts.models().get(texts.model_index(name)) {
        Some(model) => put_used(answer, model),
        None => put_bytes(answer, b"no model"),
    }
}
