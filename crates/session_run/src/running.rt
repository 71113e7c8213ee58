//! A session with its desk and its workers.

ghost use Rattle.std.specs.Prelude.{◌≡◌, ◌-◌, ◌<◌, ◌^◌, min};
ghost use Rattle.command_answers.specs.Answer.{AreReadsCounted, AreWritesCounted};
ghost use Rattle.session_run.specs.Sessions.{IsSession};

use crate::commands::answer_commands;
use crate::state::Session;
use bench_instance::StampedTexts;
use bench_workers::{Gate, MOST_WORKERS, hire_crew};
use command_answers::{AnswerListener, ByteSink, ByteSource, NoListener, SessionFault};
use desk::{Desk, DeskSeed, Naming, OpenedDesk};
use std::marker::Brand;
use std::sync::{Arc, Wait};
use std::thread::Threads;
use value_store::StoreName;

// So many workers as are hired.
fn count_of(workers: u64) -> u32
    ensures { result ≡ min workers 32 }
{
    workers.min(MOST_WORKERS as u64) as u32
}

// A session over a desk of its own, which is named here.
fn session_from<J, R, S, K, G, L>(
    rt: &R,
    opened: OpenedDesk<StampedTexts>,
    source: &mut S,
    sink: &mut K,
    workers: u64,
    gate: &G,
    listener: &mut L,
) -> Result<bool, SessionFault>
where
    J: Naming + StoreName + Send + Sync + 'static,
    R: AllocGlobal + Wait + Threads + Copy + Drop + Send + Sync + 'static,
    S: ByteSource,
    K: ByteSink,
    G: Gate + Clone + Drop + Send + Sync + 'static,
    L: AnswerListener,
    requires book { opened.book.seen.book ≡ J.book }
    requires values { opened.values.values ≡ J.shelves }
    requires source { S.failed_calls source.old < 2 ^ 64 - 1 }
    requires sink { K.failed_calls sink.old < 2 ^ 64 - 1 }
    ensures written { IsSession (S.remaining source.old) (K.contents sink.old) (K.contents sink.new)
        result }
    ensures reads { AreReadsCounted (S.failed_calls source.old) (S.failed_calls source.new)
        (S.calls source.old) (S.calls source.new) (S.remaining source.old) result }
    ensures writes { AreWritesCounted (K.failed_calls sink.old) (K.failed_calls sink.new) result }
{
    let alloc = rt.alloc();
    let Ok(seed) = DeskSeed::<J, StampedTexts, R>::new(rt, alloc, opened) else {
        return Err(SessionFault::Memory);
    };
    let Ok(desk) = Arc::new(alloc, Desk::new(seed)) else {
        return Err(SessionFault::Memory);
    };
    let Ok(viewer) = desk.viewer(rt) else {
        return Err(SessionFault::Memory);
    };
    let session = Session::new(alloc, viewer);
    let Ok(gate) = gate.clone() else {
        return Err(SessionFault::Memory);
    };
    let Ok(crew) = hire_crew(rt, alloc, &desk, gate, count_of(workers)) else {
        return Err(SessionFault::Memory);
    };
    let answered = answer_commands(
        rt,
        alloc,
        &*desk,
        session,
        workers > 0,
        source,
        sink,
        listener,
    );
    crew.leave(rt);
    answered
}

/// What `session` does. A listener hears of each answer behind its write and of each model that is
/// put or changed, and how far a table is while cells of it are open.
pub fn session_heard<R, S, K, G, L>(
    rt: &R,
    source: &mut S,
    sink: &mut K,
    workers: u64,
    gate: &G,
    listener: &mut L,
) -> Result<bool, SessionFault>
where
    R: AllocGlobal + Wait + Threads + Copy + Drop + Send + Sync + 'static,
    S: ByteSource,
    K: ByteSink,
    G: Gate + Clone + Drop + Send + Sync + 'static,
    L: AnswerListener,
    requires source { S.failed_calls source.old < 2 ^ 64 - 1 }
    requires sink { K.failed_calls sink.old < 2 ^ 64 - 1 }
    // The output of the script is written, or that of its first commands, with a front of the next
    // answer after `Write`.
    ensures written { IsSession (S.remaining source.old) (K.contents sink.old) (K.contents sink.new)
        result }
    // `Read` comes after one failed read, or after so many reads that the script is taken for one
    // that does not end; `Write` after one failed write, and all else after none.
    ensures reads { AreReadsCounted (S.failed_calls source.old) (S.failed_calls source.new)
        (S.calls source.old) (S.calls source.new) (S.remaining source.old) result }
    ensures writes { AreWritesCounted (K.failed_calls sink.old) (K.failed_calls sink.new) result }
{
    let Ok(opened) = OpenedDesk::new(rt.alloc()) else {
        return Err(SessionFault::Memory);
    };
    session_from::<Brand, R, S, K, G, L>(rt, opened, source, sink, workers, gate, listener)
}

/// Answers the commands of a script one after another, each by one write as soon as its last line
/// feed is read. Whether a command was refused. So many workers, at most 32, compute the open cells
/// of all tests and models from each edit on. Where there are none the session runs jobs itself
/// while a question waits for its cells, and these may be jobs of other cells. What is computed is
/// kept for later questions. Where the script has ended no job is waited for: a worker ends with
/// the job that it is at, or is cut off where the program ends first. The bytes are the same for
/// each number of workers, unless the jobs fill the store of values. Errors: `Read` where a read
/// failed or the script did not end within 16,777,216 reads that gave bytes, `Write`, `Memory`, or
/// `Shared`. What was written by then is the output of the first commands, and of the next answer a
/// front where a write failed. `Memory` comes where a growth is refused, the store is full, a
/// worker gave up, or the desk gives no viewer or no view. `Shared` says that the desk is not the
/// session's alone, or that no number is left: it refuses an edit by a rule, has no number for a
/// claim, or shows another count of edits than the session made. A gate hears of each job of a
/// worker: the workers have a copy of it.
pub fn session<R, S, K, G>(
    rt: &R,
    source: &mut S,
    sink: &mut K,
    workers: u64,
    gate: &G,
) -> Result<bool, SessionFault>
where
    R: AllocGlobal + Wait + Threads + Copy + Drop + Send + Sync + 'static,
    S: ByteSource,
    K: ByteSink,
    G: Gate + Clone + Drop + Send + Sync + 'static,
    requires source { S.failed_calls source.old < 2 ^ 64 - 1 }
    requires sink { K.failed_calls sink.old < 2 ^ 64 - 1 }
    // The output of the script is written, or that of its first commands, with a front of the next
    // answer after `Write`.
    ensures written { IsSession (S.remaining source.old) (K.contents sink.old) (K.contents sink.new)
        result }
    // `Read` comes after one failed read, or after so many reads that the script is taken for one
    // that does not end; `Write` after one failed write, and all else after none.
    ensures reads { AreReadsCounted (S.failed_calls source.old) (S.failed_calls source.new)
        (S.calls source.old) (S.calls source.new) (S.remaining source.old) result }
    ensures writes { AreWritesCounted (K.failed_calls sink.old) (K.failed_calls sink.new) result }
{
    session_heard(rt, source, sink, workers, gate, &mut NoListener)
}
