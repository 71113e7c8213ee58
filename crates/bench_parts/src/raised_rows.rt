//! Puts the number of an edit in the place of the stamp that stands for it. It takes no memory.

ghost use Rattle.std.specs.Prelude.{◌≡◌, map};
ghost use Rattle.bench_parts.specs.Stamps.{raised};
ghost use Rattle.bench_parts.specs.Models.{raised_model};
ghost use Rattle.bench_parts.specs.Tests.{IsRaisedRow};

use crate::stamps::raised;
use bench_nodes::{ModelRow, TestRow};

fn raise_stamps(stamps: &mut [u64], last: u64, number: u64)
    ensures { stamps.new ≡ map (raised last number) stamps.old }
{
    for stamp in stamps.iter_mut() {
        *stamp = raised(last, number, *stamp);
    }
}

/// Puts the number of the edit after `last` into the row of a test.
pub fn raise_row(row: &mut TestRow, last: u64, number: u64)
    ensures { IsRaisedRow last number row.old row.new }
{
    row.condition = raised(last, number, row.condition);
    row.observed = raised(last, number, row.observed);
    row.locations = raised(last, number, row.locations);
    row.init = raised(last, number, row.init);
    raise_stamps(&mut row.threads, last, number);
}

/// The row of a model with the number of the edit after `last`.
pub fn raised_model(last: u64, number: u64, row: ModelRow) -> ModelRow
    ensures { result ≡ raised_model last number row }
{
    ModelRow {
        id: row.id,
        stamp: raised(last, number, row.stamp),
    }
}
