//! Edits by their words.

use bench_texts::Edit;
use std::alloc::{AllocError, Global};
use text_values::{put_bytes, put_decimal};

/// The edit of a word, with the name, the number and the text that it takes.
pub fn named(
    alloc: Global,
    verb: &str,
    name: &[u8],
    number: u64,
    text: Vec<u8>,
) -> Result<Edit, AllocError> {
    let named = Vec::from_slice(alloc, name)?;
    match verb {
        "test" => Ok(Edit::PutTest { text }),
        "drop-test" => Ok(Edit::DropTest { test: named }),
        "init" => Ok(Edit::SetInit { test: named, text }),
        "thread" => Ok(Edit::SetThread {
            test: named,
            thread: number as usize,
            text,
        }),
        "condition" => Ok(Edit::SetCond { test: named, text }),
        "locations" => Ok(Edit::SetLocations { test: named, text }),
        _ => Ok(named_model(verb, named, number, text)),
    }
}

// The edit of a model of a word.
fn named_model(verb: &str, model: Vec<u8>, number: u64, text: Vec<u8>) -> Edit {
    match verb {
        "model" => Edit::PutModel { model, text },
        "item" => Edit::SetItem {
            model,
            item: number,
            text,
        },
        "insert" => Edit::InsertItem {
            model,
            before: number,
            text,
        },
        "remove" => Edit::RemoveItem {
            model,
            item: number,
        },
        _ => Edit::DropModel { model },
    }
}

/// The edit that puts a small test, named after a number.
pub fn small_test(alloc: Global, number: u64) -> Result<Edit, AllocError> {
    let mut text = Vec::new(alloc);
    put_bytes(&mut text, b"PPC T")?;
    put_decimal(&mut text, number)?;
    put_bytes(&mut text, b"\n{ }\nP0 ;\nli r1,1 ;\nexists (0:r1=1)\n")?;
    Ok(Edit::PutTest { text })
}

/// The edit that puts a model of that text, named after a number.
pub fn small_model(alloc: Global, number: u64, text: &[u8]) -> Result<Edit, AllocError> {
    let mut model = Vec::new(alloc);
    put_bytes(&mut model, b"M")?;
    put_decimal(&mut model, number)?;
    Ok(Edit::PutModel {
        model,
        text: Vec::from_slice(alloc, text)?,
    })
}
