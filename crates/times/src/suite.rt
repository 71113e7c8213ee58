//! How long a cell takes where many tests are evaluated under many models.

ghost use Rattle.std.specs.Prelude.{◌≤◌, length};

use crate::timing::{Work, forget_memory, show_memory, show_microseconds, time_of};
use cat_syntax::{ModelText, read_model};
use cut_spaces::{eval_cell, eval_suite};
use litmus_ppc::{Test, read_test};
use std::alloc::{AllocError, Global};
use std::rt::{Clock, Files};
use std::{fs, io};

/// The word between the models and the tests.
const OVER: &str = "over";

/// All tests under all models.
#[derive(Drop)]
struct Suite<'a> {
    tests: &'a [Test],
    models: &'a [&'a ModelText],
    /// Whether each cell is evaluated by itself.
    is_by_cells: bool,
}

impl Work for Suite<'_> {
    fn once(&self, alloc: Global) {
        if self.is_by_cells {
            evaluate_cells(alloc, self.tests, self.models);
        } else {
            drop(eval_suite(alloc, self.tests, self.models));
        }
    }
}

/// Evaluates each cell by itself.
fn evaluate_cells(alloc: Global, tests: &[Test], models: &[&ModelText]) {
    for test in tests {
        evaluate_row(alloc, test, models);
    }
}

/// Evaluates each cell of one test by itself.
fn evaluate_row(alloc: Global, test: &Test, models: &[&ModelText]) {
    for model in models {
        drop(eval_cell(alloc, test, *model));
    }
}

/// The models of the files. A file that is refused is named and left out.
fn read_models<R: Files + Print + AllocGlobal>(
    rt: &R,
    paths: &[String],
) -> io::Result<Vec<ModelText>> {
    let mut models = Vec::new(rt.alloc());
    for path in paths {
        let text = fs::read(rt, path.as_str())?;
        match read_model(rt.alloc(), &text) {
            Ok(model) => models.push(model)?,
            Err(_) => println!(rt; "{path} is refused")?,
        }
    }
    Ok(models)
}

/// The tests of the files. A file that is refused is named and left out.
fn read_tests<R: Files + Print + AllocGlobal>(rt: &R, paths: &[String]) -> io::Result<Vec<Test>> {
    let mut tests = Vec::new(rt.alloc());
    for path in paths {
        let text = fs::read(rt, path.as_str())?;
        match read_test(rt.alloc(), &text) {
            Ok(test) => tests.push(test)?,
            Err(_) => println!(rt; "{path} is refused")?,
        }
    }
    Ok(tests)
}

/// The models, to look at.
fn lent(alloc: Global, models: &[ModelText]) -> Result<Vec<&ModelText>, AllocError> {
    let mut lent = Vec::with_capacity(alloc, models.len())?;
    for model in models {
        lent.push(model)?;
    }
    Ok(lent)
}

/// Prints how long a cell takes in the quickest turn, and the most memory that is held meanwhile.
fn show_time<R: Files + Clock + Print + AllocGlobal>(
    rt: &R,
    how: &str,
    suite: &Suite,
) -> io::Result<()> {
    let cells = suite.tests.len().saturating_mul(suite.models.len());
    forget_memory(rt);
    let timing = time_of(rt, suite)?;
    print!(rt; "{how}: ")?;
    show_microseconds(rt, timing.least / (cells as u128).max(1))?;
    print!(rt; " a cell")?;
    show_memory(rt)?;
    println!(rt; " ({cells} cells, {} turns)", timing.turns)
}

/// Prints how long a cell takes of these tests under these models, evaluated together and one by
/// one.
fn show<R: Files + Clock + Print + AllocGlobal>(
    rt: &R,
    model_paths: &[String],
    test_paths: &[String],
) -> io::Result<()> {
    let models = read_models(rt, model_paths)?;
    let models = lent(rt.alloc(), &models)?;
    let tests = read_tests(rt, test_paths)?;
    let mut suite = Suite {
        tests: &tests,
        models: &models,
        is_by_cells: false,
    };
    show_time(rt, "together", &suite)?;
    suite.is_by_cells = true;
    show_time(rt, "one by one", &suite)
}

/// The index of a word among the words, or how many they are where it is not among them.
fn index_of(words: &[String], word: &str) -> usize
    ensures { result ≤ length words.now }
{
    for index in 0..words.len() {
        if words[index].as_str() == word {
            return index;
        }
    }
    words.len()
}

/// Prints how long a cell of a suite takes: the models stand before the word `over`, the tests
/// behind it.
pub fn show_all<R: Files + Clock + Print + AllocGlobal>(
    rt: &R,
    words: &[String],
) -> io::Result<()> {
    let index = index_of(words, OVER);
    let tests = words.get(index + 1..).unwrap_or(&[]);
    show(rt, &words[..index], tests)
}
