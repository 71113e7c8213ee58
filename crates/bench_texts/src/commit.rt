//! Makes the change of an edit that was prepared.
#![tactic(auto, using(crate::proofs::Lists::list_lemmas))]

ghost use Rattle.std.specs.Prelude.{◌≡◌, ◌<◌, vec_len};
ghost use Rattle.text_values.specs.TestValue.{content_of};

use crate::model::NamedModel;
use crate::prepared::Prepared;
use crate::replacement::Replacement;
use crate::texts::Texts;
use std::mem::{drop, replace};
use text_values::Test;

impl Texts {
    ghost use Rattle.std.specs.Prelude.{◌≤◌, vec_capacity};
    ghost use Rattle.bench_texts.specs.BenchTexts.{put_at, with_tests, with_models};
    ghost use Rattle.bench_texts.specs.Held.{plain_model, texts_of, IsModelRead, AreModelsRead};
    ghost use Rattle.bench_texts.specs.Replacements.{texts_with, tests_with, models_with, IsReplaceable};

    /// Makes the change of an edit that was prepared on these texts. It takes no memory.
    pub fn commit(&mut self, prepared: Prepared)
        requires { IsReplaceable self.old prepared.replacement }
        ensures texts { texts_of self.new ≡ texts_with prepared.replacement (texts_of self.old) }
        // What is put stands there as it was prepared, and the others stay what they are.
        ensures tests { self.new.tests.items
            ≡ tests_with prepared.replacement self.old.tests.items }
        ensures models { self.new.models.items
            ≡ models_with prepared.replacement self.old.models.items }
        // Each model holds what its items are resolved to.
        ensures read { AreModelsRead self.old → AreModelsRead self.new }
    {
        match prepared.into_replacement() {
            Replacement::PutTest { at, test } => self.put_test(at, test),
            Replacement::DropTest { at } => drop(self.tests.remove(at)),
            Replacement::PutModel { at, model, next } => self.put_model(at, model, next),
            Replacement::DropModel { at } => drop(self.models.remove(at)),
        }
    }

    fn put_test(&mut self, at: usize, test: Test)
        requires index { at ≤ vec_len self.old.tests }
        requires room { at ≡ vec_len self.old.tests
            → vec_len self.old.tests < vec_capacity self.old.tests }
        ensures texts { texts_of self.new
            ≡ with_tests (put_at at (content_of test)) (texts_of self.old) }
        ensures tests { self.new.tests.items ≡ put_at at test self.old.tests.items }
        ensures models { self.new.models ≡ self.old.models }
    {
        if at < self.tests.len() {
            drop(replace(&mut self.tests[at], test));
        } else {
            self.tests.push_reserved(test);
        }
    }

    fn put_model(&mut self, at: usize, model: NamedModel, next: u64)
        requires index { at ≤ vec_len self.old.models }
        requires room { at ≡ vec_len self.old.models
            → vec_len self.old.models < vec_capacity self.old.models }
        requires read { IsModelRead model }
        ensures texts { texts_of self.new
            ≡ with_models (put_at at (plain_model model)) next (texts_of self.old) }
        ensures models { self.new.models.items ≡ put_at at model self.old.models.items }
        ensures tests { self.new.tests ≡ self.old.tests }
        ensures read { AreModelsRead self.old → AreModelsRead self.new }
    {
        self.next = next;
        if at < self.models.len() {
            drop(replace(&mut self.models[at], model));
        } else {
            self.models.push_reserved(model);
        }
    }
}
