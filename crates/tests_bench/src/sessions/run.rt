//! One session: what it writes, and how it ends.

ghost use Rattle.std.specs.Prelude.{◌<◌, ◌-◌, ◌^◌};

use bench_workers::{Gate, NoGate};
use command_answers::{AnswerListener, ByteSource, MemorySink, MemorySource, SessionFault};
use session_run::{session, session_heard};
use std::io;
use std::sync::Wait;
use std::thread::Threads;

/// How a session is run: which read and which write fail, and how many workers there are.
#[derive(Clone, Copy)]
pub struct Setting {
    pub read: Option<u64>,
    pub write: Option<u64>,
    pub workers: u64,
}

/// Nothing fails.
pub fn with_workers(workers: u64) -> Setting {
    Setting {
        read: None,
        write: None,
        workers,
    }
}

/// What a session writes, and how it ends.
#[derive(Drop)]
pub struct Ending {
    pub output: Vec<u8>,
    pub end: Result<bool, SessionFault>,
}

/// Whether two sessions write the same and end alike.
pub fn is_same(one: &Ending, other: &Ending) -> bool {
    one.output.as_slice() == other.output.as_slice() && one.end == other.end
}

/// Runs a session over a source, with a gate and a listener.
pub fn run_over<R, S, G, L>(
    rt: &R,
    source: &mut S,
    setting: Setting,
    gate: &G,
    listener: &mut L,
) -> io::Result<Ending>
where
    R: AllocGlobal + Threads + Wait + Copy + Drop + Send + Sync + 'static,
    S: ByteSource,
    G: Gate + Clone + Drop + Send + Sync + 'static,
    L: AnswerListener,
    requires { S.failed_calls source.old < 2 ^ 64 - 1 }
{
    let mut sink = MemorySink::failing_at(Vec::new(rt.alloc()), setting.write);
    let end = session_heard(rt, source, &mut sink, setting.workers, gate, listener);
    let output = Vec::from_slice(rt.alloc(), sink.as_bytes())?;
    Ok(Ending { output, end })
}

/// Runs a session over a script.
pub fn run<R>(rt: &R, script: &[u8], setting: Setting) -> io::Result<Ending>
where
    R: AllocGlobal + Threads + Wait + Copy + Drop + Send + Sync + 'static,
{
    let mut source = MemorySource::failing_at(script, setting.read);
    let mut sink = MemorySink::failing_at(Vec::new(rt.alloc()), setting.write);
    let end = session(rt, &mut source, &mut sink, setting.workers, &NoGate);
    let output = Vec::from_slice(rt.alloc(), sink.as_bytes())?;
    Ok(Ending { output, end })
}
