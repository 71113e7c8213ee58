//! Which test the last edit touched.

ghost use Rattle.std.specs.Prelude.{◌≡◌, IfSome};
ghost use Rattle.bench_instance.specs.Above.{are_of_test, IsTouchedTest};

use crate::stamped_texts::StampedTexts;
use memo_core::keys::Node;

// Whether all of these nodes are of that test.
fn are_of_test(nodes: &[Node], test: u64) -> bool
    ensures { result ≡ are_of_test nodes.now test }
{
    for node in nodes {
        if node.test != test {
            return false;
        }
    }
    true
}

impl StampedTexts {
    /// The number of the test that the last edit touched, if it touched nodes of one test alone,
    /// which is there.
    pub(crate) fn touched_test(&self) -> Option<u64>
        ensures { IfSome result (IsTouchedTest self.now) }
    {
        if self.touched.is_empty() {
            return None;
        }
        let test = self.touched[0].test;
        if !are_of_test(&self.touched, test)
            || self.test_row(test) >= self.parts.table.tests.len()
        {
            return None;
        }
        Some(test)
    }
}
