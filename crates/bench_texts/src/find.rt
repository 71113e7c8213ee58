//! Finds tests and models by their names.
#![tactic(auto, using(crate::proofs::Lists::list_lemmas))]

ghost use Rattle.std.specs.Prelude.{◌≡◌, ◌≤◌, length, map};
ghost use Rattle.text_values.specs.TestValue.{content_of};
ghost use Rattle.bench_texts.specs.BenchTexts.{test_index, model_index};
ghost use Rattle.bench_texts.specs.Held.{plain_model};

use crate::model::NamedModel;
use text_values::Test;

/// The index of the first test of that name, or how many there are.
pub fn index_of_test(tests: &[Test], name: &[u8]) -> usize
    ensures within { result ≤ length tests.now }
    ensures value { result ≡ test_index name.now (map content_of tests.now) }
{
    for index in 0..tests.len() {
        if tests[index].name.as_bytes() == name {
            return index;
        }
    }
    tests.len()
}

/// The index of the first model of that name, or how many there are.
pub fn index_of_model(models: &[NamedModel], name: &[u8]) -> usize
    ensures within { result ≤ length models.now }
    ensures value { result ≡ model_index name.now (map plain_model models.now) }
{
    for index in 0..models.len() {
        if models[index].name() == name {
            return index;
        }
    }
    models.len()
}
