//! Models and tests from files.

ghost use Rattle.std.specs.Prelude.{◌≡◌, ◌++◌, ◌∷◌, [], IfOk, OnOk};
ghost use Rattle.command_answers.specs.Files.{model_stem};
ghost use Rattle.command_answers.specs.Reports.{AddsModel, AreModels, AddsTest, AreTests, IsModelTold, IsTestTold, IsToldOf};

use crate::file::{TextFile, model_stem, put_fault};
use cat_syntax::{CatFault, ModelText, read_model};
use litmus_ppc::{LitmusFault, Name, Test, read_test};
use std::alloc::{AllocError, Global};

/// A model and the name by which it is called.
#[derive(Drop)]
pub struct NamedModel {
    /// The name.
    pub name: Name,
    /// The model.
    pub model: ModelText,
}

/// The models of some files, and what is told of the files that are refused.
#[derive(Drop)]
pub struct ReadModels {
    /// In the order of the files.
    pub models: Vec<NamedModel>,
    /// Lines for the error output.
    pub faults: Vec<u8>,
}

/// The tests of some files, and what is told of the files that are refused.
#[derive(Drop)]
pub struct ReadTests {
    /// In the order of the files.
    pub tests: Vec<Test>,
    /// Lines for the error output.
    pub faults: Vec<u8>,
}

fn push_model(
    models: &mut Vec<NamedModel>,
    alloc: Global,
    path: &str,
    model: ModelText,
) -> Result<(), AllocError>
    ensures { OnOk result (models.new.items
        ≡ models.old.items ++ record { name = model_stem path.now; model = model } ∷ []) }
{
    let name = Name::new(alloc, model_stem(path.as_bytes()))?;
    models.push(NamedModel { name, model })?;
    Ok(())
}

fn read_model_file(
    alloc: Global,
    file: &TextFile<'_>,
    read: &mut ReadModels,
) -> Result<(), AllocError>
    ensures { OnOk result (AddsModel file.now read.old.models.items read.old.faults.items
        read.new.models.items read.new.faults.items) }
{
    match read_model(alloc, &file.text) {
        Ok(model) => push_model(&mut read.models, alloc, file.path, model),
        Err(CatFault::OutOfMemory(e)) => Err(e),
        Err(CatFault::Refused { rule, offset }) => {
            put_fault(&mut read.faults, file, b'C', rule.number(), offset)
        }
    }
}

/// The models of the files, in order. Errors: want of memory.
pub fn read_models(alloc: Global, files: &[TextFile<'_>]) -> Result<ReadModels, AllocError>
    ensures { IfOk result (λ r. AreModels files.now r.models.items r.faults.items) }
{
    let mut read = ReadModels {
        models: Vec::new(alloc),
        faults: Vec::new(alloc),
    };
    for file in files {
        read_model_file(alloc, file, &mut read)?;
    }
    Ok(read)
}

fn push_test(tests: &mut Vec<Test>, test: Test) -> Result<(), AllocError>
    ensures { OnOk result (tests.new.items ≡ tests.old.items ++ test ∷ []) }
{
    tests.push(test)?;
    Ok(())
}

fn read_test_file(
    alloc: Global,
    file: &TextFile<'_>,
    read: &mut ReadTests,
) -> Result<(), AllocError>
    ensures { OnOk result (AddsTest file.now read.old.tests.items read.old.faults.items
        read.new.tests.items read.new.faults.items) }
{
    match read_test(alloc, &file.text) {
        Ok(test) => push_test(&mut read.tests, test),
        Err(LitmusFault::OutOfMemory(e)) => Err(e),
        Err(LitmusFault::Refused { rule, offset }) => {
            put_fault(&mut read.faults, file, b'L', rule.number(), offset)
        }
    }
}

/// The tests of the files, in order; what is told of those that are refused goes behind these
/// lines. Errors: want of memory.
pub fn read_tests(
    alloc: Global,
    files: &[TextFile<'_>],
    faults: Vec<u8>,
) -> Result<ReadTests, AllocError>
    ensures { IfOk result (λ r. AreTests faults.items files.now r.tests.items r.faults.items) }
{
    let mut read = ReadTests {
        tests: Vec::new(alloc),
        faults,
    };
    for file in files {
        read_test_file(alloc, file, &mut read)?;
    }
    Ok(read)
}

/// What is told of the file of a model that is refused; nothing of one that reads. Errors: want of
/// memory.
pub fn model_refusal_lines(alloc: Global, file: &TextFile<'_>) -> Result<Vec<u8>, AllocError>
    ensures { IfOk result (λ v. IsModelTold file.now v.items) }
{
    let mut read = ReadModels {
        models: Vec::new(alloc),
        faults: Vec::new(alloc),
    };
    read_model_file(alloc, file, &mut read)?;
    Ok(read.faults)
}

/// What is told of the file of a test that is refused; nothing of one that reads. Errors: want of
/// memory.
pub fn test_refusal_lines(alloc: Global, file: &TextFile<'_>) -> Result<Vec<u8>, AllocError>
    ensures { IfOk result (λ v. IsTestTold file.now [] v.items) }
{
    let mut read = ReadTests {
        tests: Vec::new(alloc),
        faults: Vec::new(alloc),
    };
    read_test_file(alloc, file, &mut read)?;
    Ok(read.faults)
}

/// What is told of the first of a model and a test that is refused; nothing where none is. Errors:
/// want of memory.
pub fn refusal_lines(
    alloc: Global,
    model: &TextFile<'_>,
    test: &TextFile<'_>,
) -> Result<Vec<u8>, AllocError>
    ensures { IfOk result (λ v. IsToldOf model.now test.now v.items) }
{
    let lines = model_refusal_lines(alloc, model)?;
    if lines.is_empty() {
        return test_refusal_lines(alloc, test);
    }
    Ok(lines)
}
