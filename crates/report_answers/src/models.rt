//! The models of some files.

ghost use Rattle.std.specs.Prelude.{◌≡◌, IfOk, OnOk, map};
ghost use Rattle.report_answers.specs.Known.{shown_model, AddsKnownModel, AreKnownModels};

use cat_syntax::{CatFault, ModelText, read_model};
use command_answers::{TextFile, model_stem, put_fault};
use report_page::ReportedModel;
use std::alloc::{AllocError, Global};

/// A model, and its file.
#[derive(Drop)]
pub struct KnownModel<'a> {
    /// The file.
    pub file: &'a TextFile<'a>,
    /// The model that its text means.
    pub model: ModelText,
}

fn add_model<'a>(
    alloc: Global,
    file: &'a TextFile<'a>,
    models: &mut Vec<KnownModel<'a>>,
    faults: &mut Vec<u8>,
) -> Result<(), AllocError>
    ensures { OnOk result (AddsKnownModel file.now models.old.items faults.old.items
        models.new.items faults.new.items) }
{
    match read_model(alloc, &file.text) {
        Ok(model) => {
            models.push(KnownModel { file, model })?;
            Ok(())
        }
        Err(CatFault::OutOfMemory(e)) => Err(e),
        Err(CatFault::Refused { rule, offset }) => {
            put_fault(faults, file, b'C', rule.number(), offset)
        }
    }
}

/// The models of the files whose texts read; what is told of the others goes behind these lines.
/// Errors: want of memory.
pub fn known_models<'a>(
    alloc: Global,
    files: &'a [TextFile<'a>],
    faults: &mut Vec<u8>,
) -> Result<Vec<KnownModel<'a>>, AllocError>
    ensures { IfOk result
        (λ v. AreKnownModels faults.old.items files.now v.items faults.new.items) }
{
    let mut models = Vec::new(alloc);
    for file in files {
        add_model(alloc, file, &mut models, faults)?;
    }
    Ok(models)
}

/// The models alone. Errors: want of memory.
pub fn model_texts<'a>(
    alloc: Global,
    models: &'a [KnownModel<'_>],
) -> Result<Vec<&'a ModelText>, AllocError>
    ensures { IfOk result (λ v. map (λ t. t.now) v.items ≡ map (λ m. m.model) models.now) }
{
    let mut texts = Vec::with_capacity(alloc, models.len())?;
    for model in models {
        texts.push(&model.model)?;
    }
    Ok(texts)
}

/// The models as the page shows them. Errors: want of memory.
pub fn reported_models<'a>(
    alloc: Global,
    models: &'a [KnownModel<'_>],
) -> Result<Vec<ReportedModel<'a>>, AllocError>
    ensures { IfOk result (λ v. v.items ≡ map shown_model models.now) }
{
    let mut reported = Vec::with_capacity(alloc, models.len())?;
    for model in models {
        reported.push(ReportedModel {
            name: model_stem(model.file.path.as_bytes()),
            text: &model.file.text,
        })?;
    }
    Ok(reported)
}
