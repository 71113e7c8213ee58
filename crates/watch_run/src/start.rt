//! The desk of a run, with its workers.

ghost use Rattle.std.specs.Prelude.{◌≡◌, ◌≢◌, [], ◌-◌, ◌<◌, ◌^◌, length, map, IfOk};
ghost use Rattle.watch_run.specs.Edits.{model_paths, test_paths};
ghost use Rattle.watch_run.specs.Boards.{lists_of, KnowsItsTexts, standing};
ghost use Rattle.watch_run.specs.Runs.{at_first};
ghost use Rattle.watch_run.specs.Ends.{IsEnded};

use crate::answers::Run;
use crate::author::Counts;
use crate::desk_author::{DeskAuthor, Hands};
use crate::turnstile::{RunningTurnstile, Turnstile, beside_workers};
use crate::versions::Versions;
use crate::watched::{Paths, Watched, no_names};
use bench_instance::{RunningDesk, StampedTexts};
use bench_texts::Texts;
use command_answers::{ByteSink, ByteSource, SessionFault};
use desk::{Desk, DeskSeed, Naming, OpenedDesk};
use std::alloc::AllocError;
use std::marker::Brand;
use std::sync::Wait;
use std::thread::Threads;
use value_store::StoreName;

/// How watching ended.
#[derive(Drop)]
pub struct Ended<V, S, K> {
    /// Whether a text was refused, or the fault that ended it.
    pub answer: Result<bool, SessionFault>,
    /// The source of versions as it was left.
    pub versions: V,
    /// The source as it was left.
    pub source: S,
    /// The sink as it was left.
    pub sink: K,
}

// An empty run over a desk.
#[tactic(auto, using(crate::proofs::Cells::knows_start, crate::proofs::Cells::stands_first))]
fn run_at<'a, 'd, J: Naming + StoreName, R: AllocGlobal + Wait + Drop>(
    rt: &R,
    desk: &'d RunningDesk<J, R>,
    hands: Hands<'d, J, R>,
    paths: Paths<'a>,
) -> Result<Run<'a, DeskAuthor<'d, J, R>>, AllocError>
    ensures lines { IfOk result (λ run. run.lines.items ≡ []) }
    ensures paths { IfOk result (λ run. run.paths ≡ paths.entry) }
    ensures first { IfOk result (λ run. standing (λ a. a.counts) run
        ≡ at_first (length (model_paths run.paths)) (length (test_paths run.paths))
        (lists_of run.lines.items)) }
    ensures ready { IfOk result (λ run.
        KnowsItsTexts (λ a. a.viewer) (λ a. a.counts) run.watched) }
{
    let alloc = rt.alloc();
    let viewer = match desk.viewer(rt) {
        Ok(viewer) => viewer,
        Err(_) => return Err(AllocError),
    };
    let names = no_names(alloc, paths.tests.len())?;
    let watched = Watched {
        author: DeskAuthor {
            desk,
            viewer,
            hands,
            counts: Counts::new(),
        },
        texts: Texts::new(alloc),
        names,
    };
    Ok(Run {
        watched,
        paths,
        lines: Vec::new(alloc),
        is_refused: false,
    })
}

// Who runs the jobs where there are so many workers.
fn hands_of<'d, J: Naming + StoreName, R: Wait + Drop>(
    turnstile: &'d RunningTurnstile<'d, J, R>,
    workers: u32,
) -> Hands<'d, J, R>
    ensures own { workers ≡ 0 → result ≡ Hands.Own }
    ensures workers { workers ≢ 0 → result ≡ Hands.Workers turnstile.entry }
{
    if workers == 0 {
        Hands::Own
    } else {
        Hands::Workers(turnstile)
    }
}

// Watches over a desk, until the source ends.
fn attend<'a, 'd, J, R, V, S, K>(
    rt: &R,
    desk: &'d RunningDesk<J, R>,
    hands: Hands<'d, J, R>,
    paths: Paths<'a>,
    versions: V,
    source: S,
    sink: K,
) -> Result<Ended<V, S, K>, AllocError>
where
    J: Naming + StoreName,
    R: AllocGlobal + Wait + Drop,
    V: Versions + Drop,
    S: ByteSource + Drop,
    K: ByteSink + Drop,
    requires source { S.failed_calls source < 2 ^ 64 - 1 }
    requires sink { K.failed_calls sink < 2 ^ 64 - 1 }
    ensures { IfOk result (λ e. IsEnded S.calls S.failed_calls S.remaining K.failed_calls V.readings
        K.contents (model_paths paths.entry) (test_paths paths.entry) versions source sink e) }
{
    let mut run = run_at(rt, desk, hands, paths)?;
    let mut versions = versions;
    let mut source = source;
    let mut sink = sink;
    let answer = run.answer_all(rt, rt.alloc(), &mut versions, &mut source, &mut sink);
    Ok(Ended {
        answer,
        versions,
        source,
        sink,
    })
}

// The same beside workers, which it lets end.
fn attend_workers<'a, 'd, J, R, V, S, K>(
    rt: &R,
    turnstile: &'d RunningTurnstile<'d, J, R>,
    workers: u32,
    paths: Paths<'a>,
    versions: V,
    source: S,
    sink: K,
) -> Result<Ended<V, S, K>, AllocError>
where
    J: Naming + StoreName,
    R: AllocGlobal + Wait + Drop,
    V: Versions + Drop,
    S: ByteSource + Drop,
    K: ByteSink + Drop,
    requires source { S.failed_calls source < 2 ^ 64 - 1 }
    requires sink { K.failed_calls sink < 2 ^ 64 - 1 }
    ensures { IfOk result (λ e. IsEnded S.calls S.failed_calls S.remaining K.failed_calls V.readings
        K.contents (model_paths paths.entry) (test_paths paths.entry) versions source sink e) }
{
    let hands = hands_of(turnstile, workers);
    let ended = attend(rt, turnstile.desk(), hands, paths, versions, source, sink);
    turnstile.open(rt, u64::MAX);
    ended
}

fn watch_at<'a, J, R, V, S, K>(
    rt: &R,
    desk: &RunningDesk<J, R>,
    workers: u32,
    paths: Paths<'a>,
    versions: V,
    source: S,
    sink: K,
) -> Result<Ended<V, S, K>, AllocError>
where
    J: Naming + StoreName + Send + Sync,
    R: AllocGlobal + Threads + Wait + Drop + Send + Sync,
    V: Versions + Drop,
    S: ByteSource + Drop,
    K: ByteSink + Drop,
    requires source { S.failed_calls source < 2 ^ 64 - 1 }
    requires sink { K.failed_calls sink < 2 ^ 64 - 1 }
    ensures { IfOk result (λ e. IsEnded S.calls S.failed_calls S.remaining K.failed_calls V.readings
        K.contents (model_paths paths.entry) (test_paths paths.entry) versions source sink e) }
{
    let turnstile = Turnstile::new(desk);
    let gate = &turnstile;
    let worked = beside_workers(
        rt,
        rt.alloc(),
        gate,
        workers,
        || -> Result<Ended<V, S, K>, AllocError>
            requires source { S.failed_calls source < 2 ^ 64 - 1 }
            requires sink { K.failed_calls sink < 2 ^ 64 - 1 }
            ensures { IfOk result (λ e. IsEnded S.calls S.failed_calls S.remaining K.failed_calls
                V.readings K.contents (model_paths paths.entry) (test_paths paths.entry) versions
                source sink e) }
        { attend_workers(rt, gate, workers, paths, versions, source, sink) },
    );
    match worked {
        Ok((answer, _tally)) => answer,
        Err(_) => Err(AllocError),
    }
}

fn watch_from<'a, J, R, V, S, K>(
    rt: &R,
    opened: OpenedDesk<StampedTexts>,
    workers: u32,
    paths: Paths<'a>,
    versions: V,
    source: S,
    sink: K,
) -> Result<Ended<V, S, K>, AllocError>
where
    J: Naming + StoreName + Send + Sync,
    R: AllocGlobal + Threads + Wait + Copy + Drop + Send + Sync,
    V: Versions + Drop,
    S: ByteSource + Drop,
    K: ByteSink + Drop,
    requires book { opened.book.seen.book ≡ J.book }
    requires values { opened.values.values ≡ J.shelves }
    requires source { S.failed_calls source < 2 ^ 64 - 1 }
    requires sink { K.failed_calls sink < 2 ^ 64 - 1 }
    ensures { IfOk result (λ e. IsEnded S.calls S.failed_calls S.remaining K.failed_calls V.readings
        K.contents (model_paths paths.entry) (test_paths paths.entry) versions source sink e) }
{
    match DeskSeed::<J, StampedTexts, R>::new(rt, rt.alloc(), opened) {
        Ok(seed) => watch_at(rt, &Desk::new(seed), workers, paths, versions, source, sink),
        Err(_) => Err(AllocError),
    }
}

/// Puts the models and the tests of some files on a desk, settles it, and writes a line for each
/// test and the number of jobs. Then for each line of the source, which names one of the files,
/// reads the file again, edits what differs, settles the desk and writes the lines that changed and
/// the number of jobs. So many workers run the jobs, or the calling thread where there are none. It
/// ends with the fault `Read` where a file cannot be read at the start, a read failed, or the
/// source did not end within 16,777,216 reads, with `Write`, or with `Memory`, also where a worker
/// gave up. Errors: a growth or the start of a worker was refused, before anything was read or
/// written.
pub fn watch<'a, R, V, S, K>(
    rt: &R,
    models: &'a [&'a str],
    tests: &'a [&'a str],
    workers: u32,
    versions: V,
    source: S,
    sink: K,
) -> Result<Ended<V, S, K>, AllocError>
where
    R: AllocGlobal + Threads + Wait + Copy + Drop + Send + Sync,
    V: Versions + Drop,
    S: ByteSource + Drop,
    K: ByteSink + Drop,
    requires source { S.failed_calls source < 2 ^ 64 - 1 }
    requires sink { K.failed_calls sink < 2 ^ 64 - 1 }
    // Where it answers, no read and no write failed, and a whole run was written, of the versions
    // that were read. Where it ends by a fault, what failed is told, and what was written is a
    // front of what a run writes up to a line of the source, of the versions that were read first.
    // What was read then is at most one version, or where nothing was written, no more than there
    // are files.
    ensures { IfOk result (λ e. IsEnded S.calls S.failed_calls S.remaining K.failed_calls V.readings
        K.contents (map (λ m. m.now) models.now) (map (λ t. t.now) tests.now) versions source sink
        e) }
{
    match OpenedDesk::new(rt.alloc()) {
        Ok(opened) => {
            let paths = Paths { models, tests };
            watch_from::<Brand, R, V, S, K>(rt, opened, workers, paths, versions, source, sink)
        }
        Err(_) => Err(AllocError),
    }
}
