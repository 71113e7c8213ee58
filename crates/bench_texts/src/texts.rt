//! The texts that the bench holds.

use crate::find::{index_of_model, index_of_test};
use crate::model::NamedModel;
use std::alloc::Global;
use text_values::Test;

/// The tests and the models of the bench, in their order. After any edits each name stands once.
pub struct Texts {
    pub(crate) tests: Vec<Test>,
    pub(crate) models: Vec<NamedModel>,
    pub(crate) next: u64,
}

impl Drop for Texts {
    fn drop(self) {
        let Texts {
            tests: _,
            models: _,
            next: _,
        } = self;
    }
}

impl Texts {
    ghost use Rattle.std.specs.Prelude.{◌≡◌, ◌≤◌, [], map, vec_len};
    ghost use Rattle.text_values.specs.TestValue.{content_of};
    ghost use Rattle.bench_texts.specs.BenchTexts.{test_index, model_index};
    ghost use Rattle.bench_texts.specs.Held.{plain_model, texts_of, AreModelsRead};

    /// No tests and no models: the first item is given number 1.
    pub fn new(alloc: Global) -> Texts
        ensures texts { texts_of result ≡ record { tests = []; models = []; next = 1 } }
        ensures read { AreModelsRead result }
    {
        Texts {
            tests: Vec::new(alloc),
            models: Vec::new(alloc),
            next: 1,
        }
    }

    /// The tests, in their order.
    pub fn tests(&self) -> &[Test]
        ensures texts { map content_of result.now ≡ (texts_of self.now).tests }
        ensures tests { result.now ≡ self.now.tests.items }
    {
        &self.tests
    }

    /// The models, in their order.
    pub fn models(&self) -> &[NamedModel]
        ensures texts { map plain_model result.now ≡ (texts_of self.now).models }
        ensures models { result.now ≡ self.now.models.items }
    {
        &self.models
    }

    /// The number that the next item is given.
    pub fn next_item(&self) -> u64
        ensures { result ≡ (texts_of self.now).next }
    {
        self.next
    }

    /// The index of the test of that name, or the number of tests where there is none.
    pub fn test_index(&self, name: &[u8]) -> usize
        ensures value { result ≡ test_index name.now (texts_of self.now).tests }
        ensures within { result ≤ vec_len self.now.tests }
    {
        index_of_test(&self.tests, name)
    }

    /// The index of the model of that name, or the number of models where there is none.
    pub fn model_index(&self, name: &[u8]) -> usize
        ensures value { result ≡ model_index name.now (texts_of self.now).models }
        ensures within { result ≤ vec_len self.now.models }
    {
        index_of_model(&self.models, name)
    }
}
