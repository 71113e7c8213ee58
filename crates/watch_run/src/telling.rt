//! What people are told of the versions of files.

ghost use Rattle.std.specs.Prelude.{◌≡◌, ◌<◌, ◌≤◌, ℕ, [], Option, IfOk, OnOk, IfSome, IfNone, length, map, get_or};
ghost use Rattle.watch_run.specs.Boards.{lists_of};
ghost use Rattle.watch_run.specs.Telling.{IsPathAt, HasNoPath, IsSameTeller, IsFaultNoted, IsModelTextTold, IsVersionTold};

use crate::versions::{Version, Versions};
use command_answers::{TextFile, model_fault, model_refusal_lines, test_refusal_lines};
use std::alloc::{AllocError, Global};
use std::io::Write;
use std::mem::replace;

/// Hands on the versions of models and of tests, and tells a writer of each text that is refused,
/// and of the first fault of a model whose text reads: once, as long as later versions of its file
/// leave it as it is. What cannot be told is left out.
#[derive(Drop)]
pub struct VersionTeller<'a, V, W> {
    versions: V,
    models: &'a [&'a str],
    tells_tests: bool,
    errors: W,
    // The lines of the fault of the text of each model that read last, which are none where it has
    // no fault. It is empty until a text of a model reads.
    faults: Vec<Vec<u8>>,
}

// The index of this path among others.
fn index_of(paths: &[&str], path: &str) -> Option<usize>
    ensures at { IfSome result (λ i. IsPathAt (map (λ p. p.now) paths.now) path.now i) }
    ensures none { IfNone result (HasNoPath (map (λ p. p.now) paths.now) path.now) }
{
    for index in 0..paths.len() {
        if paths[index] == path {
            return Some(index);
        }
    }
    None
}

impl<'a, V: Versions, W: Write> VersionTeller<'a, V, W> {
    /// Has told nothing. The files of these paths hold models, any other holds a test, and is told
    /// of only where that is wanted.
    pub fn new(
        alloc: Global,
        versions: V,
        models: &'a [&'a str],
        tells_tests: bool,
        errors: W,
    ) -> Self
        ensures versions { result.versions ≡ versions }
        ensures models { result.models ≡ models.entry }
        ensures tests { result.tells_tests ≡ tells_tests }
        ensures errors { result.errors ≡ errors }
        ensures faults { result.faults.items ≡ [] }
    {
        VersionTeller {
            versions,
            models,
            tells_tests,
            errors,
            faults: Vec::new(alloc),
        }
    }

    // What cannot be told is left out.
    fn tell(&mut self, lines: &[u8])
        ensures same { IsSameTeller self.old self.new }
        ensures faults { self.new.faults ≡ self.old.faults }
    {
        let _ = self.errors.write_all(lines);
    }

    // No fault of a model was told, where none was noted yet.
    fn begin_faults(&mut self, alloc: Global) -> Result<(), AllocError>
        ensures same { IsSameTeller self.old self.new }
        ensures long { OnOk result (length self.old.models.now ≤ length self.new.faults.items) }
        ensures faults { OnOk result ((k : ℕ) → get_or (lists_of self.new.faults.items) k []
            ≡ get_or (lists_of self.old.faults.items) k []) }
    {
        for _model in self.faults.len()..self.models.len() {
            self.faults.push(Vec::new(alloc))?;
        }
        Ok(())
    }

    // Notes the lines of the fault of the text of that model. What is to be told of them.
    fn noted(&mut self, alloc: Global, index: usize, fault: Vec<u8>) -> Result<Vec<u8>, AllocError>
        requires { index < length self.old.models.now }
        ensures same { IsSameTeller self.old self.new }
        ensures told { IfOk result (λ v. IsFaultNoted index fault.items
            (lists_of self.old.faults.items) (lists_of self.new.faults.items) v.items) }
    {
        self.begin_faults(alloc)?;
        if self.faults[index].as_slice() == fault.as_slice() {
            return Ok(Vec::new(alloc));
        }
        let copy = Vec::from_slice(alloc, &fault)?;
        let _last = replace(&mut self.faults[index], copy);
        Ok(fault)
    }

    // What is to be told of a text of that model.
    fn model_lines(
        &mut self,
        alloc: Global,
        index: usize,
        file: &TextFile<'_>,
    ) -> Result<Vec<u8>, AllocError>
        requires { index < length self.old.models.now }
        ensures same { IsSameTeller self.old self.new }
        ensures told { IfOk result (λ v. IsModelTextTold index file.now
            (lists_of self.old.faults.items) (lists_of self.new.faults.items) v.items) }
    {
        let refusal = model_refusal_lines(alloc, file)?;
        if !refusal.is_empty() {
            return Ok(refusal);
        }
        let fault = model_fault(alloc, file)?;
        self.noted(alloc, index, fault)
    }

    // What is to be told of a text.
    fn lines_of(&mut self, alloc: Global, file: &TextFile<'_>) -> Result<Vec<u8>, AllocError>
        ensures same { IsSameTeller self.old self.new }
        ensures told { IfOk result (λ v. IsVersionTold (map (λ m. m.now) self.old.models.now)
            self.old.tells_tests file.now (lists_of self.old.faults.items)
            (lists_of self.new.faults.items) v.items) }
    {
        match index_of(self.models, file.path) {
            Some(index) => self.model_lines(alloc, index, file),
            None if self.tells_tests => test_refusal_lines(alloc, file),
            None => Ok(Vec::new(alloc)),
        }
    }
}

impl<'a, V: Versions, W: Write> Versions for VersionTeller<'a, V, W> {
    ghost readings = { λ t. V.readings t.versions };

    fn version(&mut self, alloc: Global, path: &str) -> Version {
        match self.versions.version(alloc, path) {
            Version::Text(text) => {
                let file = TextFile { path, text };
                if let Ok(lines) = self.lines_of(alloc, &file) {
                    self.tell(&lines);
                }
                Version::Text(file.text)
            }
            other => other,
        }
    }
}
