//! Desks with workers: how long they take until each cell is settled, and how long a viewer takes
//! for a board.

ghost use Rattle.std.specs.Prelude.{◌≡◌};

use crate::player::edits_of;
use crate::tables::{Size, each};
use bench_instance::StampedTexts;
use bench_texts::Edit;
use bench_workers::{NoGate, with_workers};
use desk::{Accepted, BoardTexts, Desk, DeskSeed, Naming, OpenedDesk, Settling, Viewer};
use std::alloc::Global;
use std::io;
use std::marker::Brand;
use std::rt::Clock;
use std::sync::Wait;
use std::thread::Threads;
use std::time::Instant;
use value_store::StoreName;

/// How many tests and models a desk gets.
const SIZE: Size = Size {
    tests: 64,
    models: 16,
};

/// How a desk is settled: by how many workers, and whether boards of it are read meanwhile and
/// afterwards.
#[derive(Clone, Copy)]
struct Form {
    workers: u32,
    is_read: bool,
}

const FORMS: [Form; 5] = [
    Form {
        workers: 0,
        is_read: false,
    },
    Form {
        workers: 1,
        is_read: false,
    },
    Form {
        workers: 2,
        is_read: false,
    },
    Form {
        workers: 4,
        is_read: false,
    },
    Form {
        workers: 2,
        is_read: true,
    },
];

/// So many boards are read at a time, and so many times where nothing changes.
const READS: u64 = 100_000;

const AFTERWARDS: u64 = 10;

/// More jobs than a desk of this program ever has, and more turns than it waits for.
const MOST: u64 = 1_000_000;

/// How many boards were read, and in how many nanoseconds.
#[derive(Clone, Copy)]
struct Reads {
    count: u64,
    nanos: u128,
}

const NO_READS: Reads = Reads { count: 0, nanos: 0 };

/// The nanoseconds of the edits, and until each cell was settled; the boards that were read until
/// then, and afterwards; and whether all was answered as it should.
#[derive(Clone, Copy)]
struct Times {
    edited: u128,
    settled: u128,
    beside: Reads,
    afterwards: Reads,
    is_well: bool,
}

/// Makes the edits. False if one of them is not published at once.
fn make_edits<J: Naming + StoreName, X: BoardTexts, R: Wait + Drop, W: Wait>(
    rt: &W,
    desk: &Desk<J, X, R>,
    viewer: &mut Viewer<J, X>,
    edits: Vec<X::Edit>,
) -> bool {
    let mut is_well = true;
    for edit in edits {
        is_well &= matches!(desk.edit(rt, viewer, edit), Ok(Accepted::Now(_)));
    }
    is_well
}

/// Claims, runs and returns jobs until there is none. A job that is refused memory closes the desk.
fn play<J: Naming + StoreName, X: BoardTexts, R: Wait + Drop, W: Wait>(
    rt: &W,
    alloc: Global,
    desk: &Desk<J, X, R>,
) {
    for _ in 0..MOST {
        let Ok(Some(job)) = desk.claim(rt) else {
            return;
        };
        let Ok(done) = job.run(rt, alloc) else {
            drop(desk.close(rt));
            return;
        };
        drop(desk.finish(rt, done));
    }
}

/// Takes a board and leaves it.
fn read_once<J: Naming, X: BoardTexts>(viewer: Viewer<J, X>) -> Viewer<J, X> {
    match viewer.read() {
        Ok(view) => view.leave(),
        Err(viewer) => viewer,
    }
}

/// Reads boards, and adds how many and how long it took.
fn read<J: Naming, X: BoardTexts, W: Clock>(
    rt: &W,
    viewer: Viewer<J, X>,
    reads: &mut Reads,
) -> io::Result<Viewer<J, X>> {
    let mut viewer = viewer;
    let start = Instant::now(rt)?;
    for _ in 0..READS {
        viewer = read_once(viewer);
    }
    let nanos = start.elapsed(rt)?.as_nanos();
    reads.count = reads.count.saturating_add(READS);
    reads.nanos = reads.nanos.saturating_add(nanos);
    Ok(viewer)
}

/// Reads boards until each cell is settled, or a turn is refused.
fn read_beside<J: Naming + StoreName, X: BoardTexts, R: Wait + Drop, W: Wait + Clock>(
    rt: &W,
    desk: &Desk<J, X, R>,
    author: &mut Viewer<J, X>,
    reader: Viewer<J, X>,
    reads: &mut Reads,
) -> io::Result<Viewer<J, X>> {
    let mut reader = reader;
    for _ in 0..MOST {
        if !matches!(desk.settle_turn(rt, author), Ok(Settling::Waits(_))) {
            break;
        }
        reader = read(rt, reader, reads)?;
    }
    Ok(reader)
}

/// Waits until each cell is settled; without workers it runs the jobs.
fn settle<J: Naming + StoreName, X: BoardTexts, R: Wait + Drop, W: Wait + Clock>(
    rt: &W,
    alloc: Global,
    desk: &Desk<J, X, R>,
    author: Viewer<J, X>,
    reader: Viewer<J, X>,
    form: Form,
) -> io::Result<Times> {
    let mut author = author;
    let mut reader = reader;
    let mut beside = NO_READS;
    let mut afterwards = NO_READS;
    let start = Instant::now(rt)?;
    if form.workers == 0 {
        play(rt, alloc, desk);
    }
    if form.is_read {
        reader = read_beside(rt, desk, &mut author, reader, &mut beside)?;
    }
    let is_well = desk.settle(rt, &mut author).is_ok();
    let settled = start.elapsed(rt)?.as_nanos();
    if form.is_read {
        for _ in 0..AFTERWARDS {
            reader = read(rt, reader, &mut afterwards)?;
        }
    }
    drop(reader);
    Ok(Times {
        edited: 0,
        settled,
        beside,
        afterwards,
        is_well,
    })
}

/// Makes edits at a desk, and settles it. None where it gives no viewer, or a worker does not
/// start.
fn measure<J, X, R>(
    rt: &R,
    desk: &Desk<J, X, R>,
    edits: Vec<X::Edit>,
    form: Form,
) -> io::Result<Option<Times>>
where
    R: AllocGlobal + Clock + Wait + Threads + Send + Sync + Drop,
    J: Naming + StoreName + Send + Sync,
    X: BoardTexts + Send + Sync,
    X::Value: Send + Sync,
    X::Given: Send + Sync,
    X::Edit: Send + Sync,
    X::Prepared: Send + Sync,
    X::Fault: Send + Sync,
    X::Outcome: Send + Sync,
    X::Op: Send + Sync,
    X::Board: Send + Sync,
{
    let alloc = rt.alloc();
    let (Ok(mut author), Ok(reader)) = (desk.viewer(rt), desk.viewer(rt)) else {
        return Ok(None);
    };
    let start = Instant::now(rt)?;
    let is_made = make_edits(rt, desk, &mut author, edits);
    let edited = start.elapsed(rt)?.as_nanos();
    let worked = with_workers(
        rt,
        alloc,
        desk,
        &NoGate,
        form.workers,
        || settle(rt, alloc, desk, author, reader, form),
    );
    let Ok((answer, _tally)) = worked else {
        return Ok(None);
    };
    let mut times = answer?;
    times.edited = edited;
    times.is_well &= is_made;
    Ok(Some(times))
}

fn print_reads<R: Print>(rt: &R, name: &str, reads: Reads) -> io::Result<()> {
    let count = reads.count;
    let nanos = each(reads.nanos, count);
    println!(rt; "  {name}: {count} boards read, {nanos} ns each")
}

fn print_times<R: Print>(rt: &R, form: Form, times: Times) -> io::Result<()> {
    let workers = form.workers;
    let edited = each(times.edited, 1000);
    let settled = each(times.settled, 1000);
    let is_well = times.is_well;
    println!(rt;
        "{workers} workers: edits made in {edited} us, settled after {settled} us, well {is_well}"
    )?;
    if form.is_read {
        print_reads(rt, "beside them", times.beside)?;
        print_reads(rt, "afterwards", times.afterwards)?;
    }
    Ok(())
}

/// Settles a desk, and prints how long that takes.
fn show_desk<R, J>(
    rt: &R,
    opened: OpenedDesk<StampedTexts>,
    edits: Vec<Edit>,
    form: Form,
) -> io::Result<()>
where
    R: Print + AllocGlobal + Clock + Wait + Threads + Copy + Send + Sync + Drop,
    J: Naming + StoreName + Send + Sync,
    requires book { opened.book.seen.book ≡ J.book }
    requires values { opened.values.values ≡ J.shelves }
{
    let Ok(seed) = DeskSeed::<J, StampedTexts, R>::new(rt, rt.alloc(), opened) else {
        return println!(rt; "no desk");
    };
    match measure::<J, StampedTexts, R>(rt, &Desk::new(seed), edits, form)? {
        Some(times) => print_times(rt, form, times),
        None => println!(rt; "no viewer, or no worker"),
    }
}

/// Settles desks by none, one, two and four workers, and then one whose boards are read, and prints
/// the times.
pub fn show<R>(rt: &R, model: &[u8], test: &[u8]) -> io::Result<()>
where
    R: Print + AllocGlobal + Clock + Wait + Threads + Copy + Send + Sync + Drop,
{
    let alloc = rt.alloc();
    for form in FORMS {
        let edits = edits_of(alloc, model, SIZE.models, test, SIZE.tests)?;
        show_desk::<R, Brand>(rt, OpenedDesk::new(alloc)?, edits, form)?;
    }
    Ok(())
}
