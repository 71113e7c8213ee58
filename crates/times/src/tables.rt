//! What is measured: benches of some sizes, settled, and settled again after an edit.

ghost use Rattle.std.specs.Prelude.{◌≡◌};

use crate::player::{Played, edit_of_dp, edits_of, fill, play};
use bench_instance::StampedTexts;
use bench_values::NodeValue;
use cells::bench::Bench;
use cells::texts::CellTexts;
use std::alloc::Global;
use std::io;
use std::rt::Clock;
use std::sync::Wait;
use std::time::Instant;
use value_store::{Opened, Store, StoreName};

/// How many tests and models a bench has.
#[derive(Clone, Copy)]
pub struct Size {
    pub tests: u64,
    pub models: u64,
}

/// The sizes whose jobs are counted.
pub const COUNTED: &[Size] = &[
    Size {
        tests: 1,
        models: 1,
    },
    Size {
        tests: 4,
        models: 1,
    },
    Size {
        tests: 1,
        models: 16,
    },
];

/// The sizes that are timed: some 1,200, 10,000 and 100,000 nodes.
pub const TIMED: &[Size] = &[
    Size {
        tests: 64,
        models: 1,
    },
    Size {
        tests: 512,
        models: 1,
    },
    Size {
        tests: 512,
        models: 11,
    },
    Size {
        tests: 1,
        models: 16,
    },
];

/// The nanoseconds of one of so many.
pub fn each(time: u128, count: u64) -> u128 {
    time.min(u128::from(u64::MAX)) / u128::from(count.max(1))
}

fn show_times<R: Print>(rt: &R, name: &str, played: Played) -> io::Result<()> {
    let jobs = played.jobs;
    let whole = each(played.whole(), 1000);
    let claim = each(played.claiming, jobs);
    let run = each(played.running, jobs);
    let finish = each(played.finishing, jobs);
    println!(rt; "  {name}: {whole} us; each claim {claim} ns, run {run} ns, finish {finish} ns")
}

/// What it took to settle a bench, to edit it, and to settle it again.
#[derive(Clone, Copy)]
struct Measured {
    first: Played,
    editing: u128,
    second: Played,
    is_settled: bool,
}

fn show_measured<R: Print>(
    rt: &R,
    size: Size,
    measured: Measured,
    is_timed: bool,
) -> io::Result<()> {
    let tests = size.tests;
    let models = size.models;
    let from_nothing = measured.first.jobs;
    let after = measured.second.jobs;
    let is_settled = measured.is_settled;
    println!(rt;
        "{tests} tests, {models} models: {from_nothing} jobs, after an edit {after}, settled {is_settled}"
    )?;
    if is_timed {
        let editing = each(measured.editing, 1000);
        show_times(rt, "from nothing", measured.first)?;
        println!(rt; "  the edit: {editing} us")?;
        show_times(rt, "after an edit", measured.second)?;
    }
    Ok(())
}

/// Makes edits on a bench over a store and settles it, and then makes one edit more and settles it
/// again.
fn measure<R: Clock + Wait, K: StoreName, T: CellTexts>(
    rt: &R,
    alloc: Global,
    store: Store<K, T::Value>,
    edits: Vec<T::Edit>,
    last: T::Edit,
) -> io::Result<Measured> {
    let mut bench: Bench<K, T> = Bench::new(alloc, store)?;
    let is_filled = fill(alloc, &mut bench, edits);
    let first = play(rt, alloc, &mut bench)?;
    let start = Instant::now(rt)?;
    let is_edited = bench.edit(alloc, last).is_ok();
    let editing = start.elapsed(rt)?.as_nanos();
    let second = play(rt, alloc, &mut bench)?;
    Ok(Measured {
        first,
        editing,
        second,
        is_settled: is_filled && is_edited && bench.all_settled(),
    })
}

/// Settles a bench of this size, sets the first item of the first model to an equal value, and
/// settles it again.
pub fn show<R: Clock + Print + Wait + AllocGlobal, K: StoreName>(
    rt: &R,
    opened: Opened<NodeValue>,
    size: Size,
    model: &[u8],
    test: &[u8],
    is_timed: bool,
) -> io::Result<()>
    requires { opened.values ≡ K.shelves }
{
    let alloc = rt.alloc();
    let edits = edits_of(alloc, model, size.models, test, size.tests)?;
    let last = edit_of_dp(alloc, b"m0", 1)?;
    let store = opened.named::<K>();
    let measured = measure::<R, K, StampedTexts>(rt, alloc, store, edits, last)?;
    show_measured(rt, size, measured, is_timed)
}
