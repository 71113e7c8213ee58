//! Whether the bench would be over its limits.

ghost use Rattle.std.specs.Prelude.{◌≡◌, ◌+◌, ◌-◌, ◌*◌, ◌^◌, ℕ, min, nat_lt};
ghost use Rattle.bench_texts.specs.Limits.{are_over};

use crate::change::Change;
use crate::count::count_models;
use crate::fault::EditFault;
use crate::texts::Texts;
use std::mem::drop;

/// The most tests.
pub const MAX_TESTS: usize = 512;

/// The most models.
pub const MAX_MODELS: usize = 16;

/// The most outputs of all tests.
pub const MAX_OUTPUTS: usize = 524_288;

// Whether so many tests have too many outputs: those of the models are given up to the greatest
// `usize`.
fn are_many(tests: usize, of_models: usize) -> bool
    ensures { (exact : ℕ) → of_models ≡ min exact (2 ^ 64 - 1)
        → result ≡ nat_lt 524288 (tests * (1 + exact)) }
{
    tests.saturating_mul(of_models.saturating_add(1)) > MAX_OUTPUTS
}

// Whether these are over a limit.
fn are_over(tests: usize, models: usize, of_models: usize) -> bool
    ensures { (exact : ℕ) → of_models ≡ min exact (2 ^ 64 - 1)
        → result ≡ are_over tests models (1 + exact) }
{
    tests > MAX_TESTS || models > MAX_MODELS || are_many(tests, of_models)
}

impl Texts {
    ghost use Rattle.std.specs.Prelude.{length};
    ghost use Rattle.bench_texts.specs.BenchTexts.{BenchTexts};
    ghost use Rattle.bench_texts.specs.Held.{texts_of};
    ghost use Rattle.bench_texts.specs.Limits.{models_outputs};
    ghost use Rattle.bench_texts.specs.Edits.{limit_fault};
    ghost use Rattle.bench_texts.specs.Answers.{IsLimited};

    // The outputs of the models for each test, or the greatest `usize` where these are more.
    pub(crate) fn outputs(&self) -> usize
        ensures { result ≡ min (models_outputs (texts_of self.now).models) (2 ^ 64 - 1) }
    {
        count_models(&self.models)
    }

    // Why texts of so many tests and models, with these outputs of the models, are refused.
    pub(crate) fn limit_fault(
        &self,
        tests: usize,
        models: usize,
        of_models: usize,
        spent: bool,
    ) -> Option<EditFault>
        ensures { (new : BenchTexts) → length new.tests ≡ tests → length new.models ≡ models
            → of_models ≡ min (models_outputs new.models) (2 ^ 64 - 1)
            → result ≡ limit_fault (texts_of self.now) spent new }
    {
        if are_over(tests, models, of_models) {
            Some(EditFault::Full)
        } else if spent || self.next > 1 << 63 {
            Some(EditFault::Spent)
        } else {
            None
        }
    }

    // The change, unless texts of so many tests and models, with these outputs of the models, are
    // over a limit.
    pub(crate) fn limited(
        &self,
        change: Change,
        tests: usize,
        models: usize,
        of_models: usize,
        spent: bool,
    ) -> Result<Change, EditFault>
        ensures { (new : BenchTexts) → length new.tests ≡ tests → length new.models ≡ models
            → of_models ≡ min (models_outputs new.models) (2 ^ 64 - 1)
            → IsLimited (texts_of self.now) spent change new result }
    {
        match self.limit_fault(tests, models, of_models, spent) {
            Some(fault) => {
                drop(change);
                Err(fault)
            }
            None => Ok(change),
        }
    }

    // The change, which changes neither how many tests and models there are nor the models'
    // outputs.
    pub(crate) fn limited_alike(&self, change: Change, spent: bool) -> Result<Change, EditFault>
        ensures { (new : BenchTexts) → length new.tests ≡ length (texts_of self.now).tests
            → new.models ≡ (texts_of self.now).models
            → IsLimited (texts_of self.now) spent change new result }
    {
        self.limited(
            change,
            self.tests.len(),
            self.models.len(),
            self.outputs(),
            spent,
        )
    }
}
