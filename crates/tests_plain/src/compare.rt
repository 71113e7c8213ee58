//! The comparison of the two evaluators.

use crate::{plain, program};
use cat_syntax::read_model;
use litmus_ppc::read_test;
use std::alloc::{AllocError, Global};
use std::rt::Files;
use std::{fs, io};
use text_values::{ModelText, Test, put_bytes};

// What both say, or what each says.
fn compared(alloc: Global, test: &Test, model: &ModelText) -> Result<Vec<u8>, AllocError> {
    let real = program::told(alloc, test, model)?;
    let plain = plain::told(alloc, test, &model.items)?;
    let mut text = Vec::new(alloc);
    if real.as_slice() == plain.as_slice() {
        put_bytes(&mut text, b"alike: ")?;
        put_bytes(&mut text, &plain)?;
        return Ok(text);
    }
    put_bytes(&mut text, b"differs: program ")?;
    put_bytes(&mut text, &real)?;
    put_bytes(&mut text, b", plain ")?;
    put_bytes(&mut text, &plain)?;
    Ok(text)
}

fn compared_texts(alloc: Global, model: &[u8], test: &[u8]) -> Result<Vec<u8>, AllocError> {
    let Ok(model) = read_model(alloc, model) else {
        return Vec::from_slice(alloc, b"no model");
    };
    let Ok(test) = read_test(alloc, test) else {
        return Vec::from_slice(alloc, b"no test");
    };
    compared(alloc, &test, &model)
}

fn show<R: Files + Print + AllocGlobal>(
    rt: &R,
    model_name: &str,
    test_name: &str,
) -> io::Result<()> {
    let alloc = rt.alloc();
    let model_path = format!(in alloc; "{model_name}.cat")?;
    let test_path = format!(in alloc; "{test_name}.litmus")?;
    let model = fs::read(rt, model_path.as_str())?;
    let test = fs::read(rt, test_path.as_str())?;
    let text = compared_texts(alloc, &model, &test)?;
    match String::from_utf8(text) {
        Ok(text) => println!(rt; "{test_name} under {model_name}: {text}"),
        Err(_) => println!(rt; "{test_name} under {model_name}: no text"),
    }
}

/// Compares what is said of each test of the list under its model.
pub fn show_all<R: Files + Print + AllocGlobal>(rt: &R) -> io::Result<()> {
    let list = fs::read_to_string(rt, "list.txt")?;
    for line in list.lines() {
        let mut words = line.split_whitespace();
        if let Some(model_name) = words.next() {
            if let Some(test_name) = words.next() {
                show(rt, model_name, test_name)?;
            }
        }
    }
    Ok(())
}
