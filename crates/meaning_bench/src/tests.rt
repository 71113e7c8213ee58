//! What evaluating a test of a bench from nothing gives is what the test says.

ghost use Rattle.std.specs.Prelude.{All};
ghost use Rattle.meaning_outcomes.specs.Outcomes.{FromScratchIsMeant};

use bench_laws::LiveBench;
use meaning_outcomes::from_scratch_is_meant;
use text_values::Test;
use value_store::StoreName;

fn all_are_meant(tests: &[Test])
    ensures { All FromScratchIsMeant tests.now }
{
    for test in tests {
        from_scratch_is_meant(test);
    }
}

pub(crate) fn tests_are_meant<K: StoreName>(bench: &LiveBench<K>)
    ensures { All FromScratchIsMeant bench.now.texts.texts.tests.items }
{
    all_are_meant(bench.texts().texts().tests());
}
