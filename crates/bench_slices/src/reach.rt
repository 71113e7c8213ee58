//! Which cells an edit reaches.

ghost use Rattle.std.specs.Prelude.{◌≡◌, ◌↔◌, IsTrue, false, option_map};
ghost use Rattle.bench_slices.specs.Reach.{cell_slice, test_after, model_after, is_of, slice_before, slice_after, ReachesCellAt};

use crate::cells::is_same_slice;
use bench_texts::{NamedModel, Prepared, Replacement, Texts};
use text_values::Test;

// Whether an edit is of the test or of the model of a cell.
fn is_of(replacement: &Replacement, test: usize, model: usize) -> bool
    ensures { result ≡ is_of replacement.now test model }
{
    match replacement {
        Replacement::PutTest { at, .. } => test == *at,
        Replacement::DropTest { at } => test == *at,
        Replacement::PutModel { at, .. } => model == *at,
        Replacement::DropModel { at } => model == *at,
    }
}

// The test of an index after the edit, where there is one.
fn test_after<'a>(replacement: &'a Replacement, tests: &'a [Test], index: usize) -> Option<&'a Test>
    ensures { option_map (λ t. t.now) result ≡ test_after replacement.now tests.now index }
{
    match replacement {
        Replacement::PutTest { at, test } => {
            if index == *at {
                Some(test)
            } else {
                tests.get(index)
            }
        }
        Replacement::DropTest { at } => { if index == *at { None } else { tests.get(index) } }
        Replacement::PutModel { .. } => tests.get(index),
        Replacement::DropModel { .. } => tests.get(index),
    }
}

// The model of an index after the edit, where there is one.
fn model_after<'a>(
    replacement: &'a Replacement,
    models: &'a [NamedModel],
    index: usize,
) -> Option<&'a NamedModel>
    ensures { option_map (λ m. m.now) result ≡ model_after replacement.now models.now index }
{
    match replacement {
        Replacement::PutModel { at, model, .. } => {
            if index == *at {
                Some(model)
            } else {
                models.get(index)
            }
        }
        Replacement::DropModel { at } => {
            if index == *at {
                None
            } else {
                models.get(index)
            }
        }
        Replacement::PutTest { .. } => models.get(index),
        Replacement::DropTest { .. } => models.get(index),
    }
}

/// A cell: its test and its model, where they are there.
#[derive(Clone, Copy)]
struct Cell<'a> {
    test: Option<&'a Test>,
    model: Option<&'a NamedModel>,
}

// Whether two cells have one slice, or neither is there.
fn is_same_cell(first: &Cell, second: &Cell) -> bool
    ensures { IsTrue result
        ↔ (cell_slice (option_map (λ t. t.now) first.now.test)
        (option_map (λ m. m.now) first.now.model)
        ≡ cell_slice (option_map (λ t. t.now) second.now.test)
        (option_map (λ m. m.now) second.now.model)) }
{
    match (first.test, first.model, second.test, second.model) {
        (Some(test), Some(model), Some(other), Some(under)) => {
            is_same_slice(test, model, other, under)
        }
        (Some(_), Some(_), _, _) => false,
        (_, _, Some(_), Some(_)) => false,
        _ => true,
    }
}

// Whether the slice of a cell is the same before the edit and after it.
fn keeps_slice(texts: &Texts, replacement: &Replacement, test: usize, model: usize) -> bool
    ensures { IsTrue result
        ↔ (slice_before texts.now test model ≡ slice_after texts.now replacement.now test model) }
{
    let before = Cell {
        test: texts.tests().get(test),
        model: texts.models().get(model),
    };
    let after = Cell {
        test: test_after(replacement, texts.tests(), test),
        model: model_after(replacement, texts.models(), model),
    };
    is_same_cell(&before, &after)
}

/// Whether an edit that was prepared on these texts reaches the cell of a test and a model, by
/// their indexes before the edit: one that the edit adds has the index behind the last.
pub fn reaches(texts: &Texts, prepared: &Prepared, test: usize, model: usize) -> bool
    ensures reached { IsTrue result ↔ ReachesCellAt texts.now prepared.now test model }
    ensures kept { result ≡ false
        → slice_before texts.now test model
        ≡ slice_after texts.now prepared.now.replacement test model }
{
    let replacement = prepared.replacement();
    if !is_of(replacement, test, model) {
        return false;
    }
    prepared.is_whole() || !keeps_slice(texts, replacement, test, model)
}
