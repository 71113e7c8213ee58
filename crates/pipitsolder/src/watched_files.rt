//! Watching the host's files: models over some tests, by `watch_run::watch`. Changes are found by
//! looking at the files (`watch_polls`), or named by standard input.

ghost use Rattle.std.specs.Prelude.{◌≡◌, IfOk};

use command_answers::{OfWrite, SessionFault};
use std::alloc::{AllocError, Global};
use std::io;
use std::rt::{Clock, Files};
use std::sync::Wait;
use std::thread::Threads;
use watch_polls::PolledSource;
use watch_run::{FileVersions, VersionTeller, watch};

fn is_listed(paths: &[&str], path: &str) -> bool {
    for listed in paths {
        if *listed == path {
            return true;
        }
    }
    false
}

// Each path but these others once, in their order.
fn listed_once<'a>(
    alloc: Global,
    others: &[&str],
    paths: &[&'a str],
) -> Result<Vec<&'a str>, AllocError> {
    let mut once = Vec::with_capacity(alloc, paths.len())?;
    for path in paths {
        if !is_listed(others, path) && !is_listed(&once, path) {
            once.push(*path)?;
        }
    }
    Ok(once)
}

// The lines of standard input, and the paths of files that change.
fn polled_source<'a, R>(
    rt: &'a R,
    models: &[&'a str],
    tests: &[&'a str],
    poll: u64,
) -> Result<PolledSource<'a, R>, AllocError>
where
    R: AllocGlobal + Clock + Files + Input + Threads + Wait + Copy + Drop + Send + Sync + 'static,
    R::Reader: Send + Sync + 'static,
    ensures { IfOk result (λ s. s.failed ≡ 0) }
{
    let mut paths = Vec::from_slice(rt.alloc(), tests)?;
    paths.extend_from_slice(models)?;
    PolledSource::new(rt, &paths, poll)
}

/// Watches the files of models and of tests, with so many workers: standard input names those that
/// have a later version, or a look after every so many milliseconds finds them, or none where that
/// is 0; and what `watch` writes goes to standard output. The errors are told of files that cannot
/// be read, of texts that are refused and of a model's fault. A path that stands twice is watched
/// once, and as that of a model where it is one of them. Whether a text was refused. Errors: those
/// of `watch`.
pub fn watch_files<'a, R, E: Print>(
    rt: &'a R,
    errors: &'a E,
    models: &'a [&'a str],
    tests: &'a [&'a str],
    workers: u64,
    poll: u64,
) -> Result<bool, SessionFault>
where
    R: AllocGlobal
        + Clock
        + Files
        + Input
        + Print
        + Threads
        + Wait
        + Copy
        + Drop
        + Send
        + Sync
        + 'static,
    R::Reader: Send + Sync + 'static,
{
    let alloc = rt.alloc();
    let workers = u32::try_from(workers).unwrap_or(u32::MAX);
    let Ok(models) = listed_once(alloc, &[], models) else {
        return Err(SessionFault::Memory);
    };
    let Ok(tests) = listed_once(alloc, &models, tests) else {
        return Err(SessionFault::Memory);
    };
    let Ok(source) = polled_source(rt, &models, &tests, poll) else {
        return Err(SessionFault::Memory);
    };
    let files = FileVersions::new(rt, io::writer(errors));
    let versions = VersionTeller::new(alloc, files, &models, true, io::writer(errors));
    let sink = OfWrite::new(io::writer(rt));
    match watch(rt, &models, &tests, workers, versions, source, sink) {
        Ok(ended) => ended.answer,
        Err(_) => Err(SessionFault::Memory),
    }
}
