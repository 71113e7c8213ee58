//! The texts of the files that are watched, with who makes the edits.

ghost use Rattle.std.specs.Prelude.{◌≡◌, ◌+◌, ◌<◌, length, slice_get, Some, IfOk};
ghost use Rattle.watch_run.specs.Holding.{all_files, no_names};
ghost use Rattle.watch_run.specs.Edits.{file_of, model_paths, test_paths};

use bench_texts::Texts;
use litmus_ppc::Name;
use std::alloc::{AllocError, Global};

/// The files that are watched, by their paths.
#[derive(Clone, Copy)]
pub struct Paths<'a> {
    /// Of the models.
    pub models: &'a [&'a str],
    /// Of the tests.
    pub tests: &'a [&'a str],
}

/// A file that is watched.
#[derive(Clone, Copy)]
pub enum WatchedFile {
    /// That of the model of this index.
    Model(usize),
    /// That of the test of this index.
    Test(usize),
}

impl<'a> Paths<'a> {
    /// How many files there are.
    pub fn count(self) -> usize
        ensures sum { result ≡ length self.entry.models.now + length self.entry.tests.now }
        ensures all { result
            ≡ length (all_files (model_paths self.entry) (test_paths self.entry)) }
    {
        self.models.len() + self.tests.len()
    }

    /// The file of this index, with those of the models first, and its path.
    pub fn file(self, index: usize) -> (WatchedFile, &'a str)
        requires { index < length self.models.now + length self.tests.now }
        ensures { slice_get (all_files (model_paths self.entry) (test_paths self.entry)) index
            ≡ Some (record { file = file_of result.0; path = result.1.now }) }
    {
        if index < self.models.len() {
            return (WatchedFile::Model(index), self.models[index]);
        }
        let index = index - self.models.len();
        (WatchedFile::Test(index), self.tests[index])
    }
}

/// An author, the texts that its desk was given, and the tests that the files hold.
#[derive(Drop)]
pub struct Watched<A> {
    /// Who makes the edits.
    pub author: A,
    /// The texts that the desk was given.
    pub texts: Texts,
    /// Of the file of each test the name of the test that it holds, where a version of it was
    /// accepted.
    pub names: Vec<Option<Name>>,
}

/// The names of the tests in so many files of which nothing was read yet. Errors: out of memory.
pub fn no_names(alloc: Global, count: usize) -> Result<Vec<Option<Name>>, AllocError>
    ensures { IfOk result (λ v. v.items ≡ no_names count) }
{
    let mut names = Vec::with_capacity(alloc, count)?;
    for _file in 0..count {
        names.push(None)?;
    }
    Ok(names)
}
