//! The row of a test that an edit puts.

ghost use Rattle.std.specs.Prelude.{◌≡◌, IfOk, option_map};
ghost use Rattle.bench_parts.specs.Tests.{entry_of};
ghost use Rattle.bench_edits.specs.Edited.{entry_at, test_id, IsTestMade};

use bench_nodes::TestRow;
use bench_parts::{HeldTest, Parts, next_number, test_row};
use ppc_semantics::locations_of;
use std::alloc::{AllocError, Global};
use text_values::{Name, Test};

/// The row of a test, and the names of all its locations.
#[derive(Drop)]
pub(crate) struct MadeTest {
    pub(crate) row: TestRow,
    pub(crate) locations: Vec<Name>,
}

// The test at an index before the edit.
fn held_test<'a>(parts: &'a Parts, tests: &'a [Test], at: usize) -> Option<HeldTest<'a>>
    ensures { option_map entry_of result ≡ entry_at parts.now tests.now at }
{
    match parts.table.tests.get(at) {
        Some(row) => match tests.get(at) {
            Some(test) => match parts.locations.get(at) {
                Some(locations) => Some(HeldTest {
                    row,
                    test,
                    locations,
                }),
                None => None,
            },
            None => None,
        },
        None => None,
    }
}

// The number of a test that was this.
fn test_id(fresh: u64, before: Option<&HeldTest>) -> u64
    ensures { result ≡ test_id fresh (option_map (λ h. entry_of h.now) before.entry) }
{
    match before {
        Some(held) => held.row.id,
        None => fresh,
    }
}

/// The row of the test that takes an index. Errors: want of memory.
pub(crate) fn made_test(
    alloc: Global,
    parts: &Parts,
    tests: &[Test],
    at: usize,
    test: &Test,
) -> Result<MadeTest, AllocError>
    ensures { IfOk result (λ m.
        IsTestMade parts.now tests.now at test.now m.row m.locations.items) }
{
    let fresh = next_number(parts.last);
    let locations = locations_of(alloc, test)?;
    let held = held_test(parts, tests, at);
    let before = held.as_ref();
    let id = test_id(fresh, before);
    let row = test_row(alloc, fresh, before, id, test, &locations)?;
    Ok(MadeTest { row, locations })
}
