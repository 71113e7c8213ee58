//! Refusals in a row.

use desk::{MOST_REFUSALS, Refusals};
use std::test::*;

#[test]
fn the_sixteenth_is_too_many(rt: HostRuntime) -> Result<(), Fail> {
    let mut refusals = Refusals::new();
    for _ in 1..MOST_REFUSALS {
        assert!(&rt; !refusals.note(true));
    }
    assert!(&rt; refusals.note(true));
    assert!(&rt; refusals.note(true));
    assert!(&rt; !refusals.note(false));
    assert!(&rt; !refusals.note(true));
    Ok(())
}
