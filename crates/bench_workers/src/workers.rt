//! Workers beside a body.

ghost use Rattle.std.specs.Prelude.{◌≡◌, IfOk, IsOk, IfSome};
ghost use Rattle.bench_workers.specs.Tallies.{no_jobs};

use crate::gate::Gate;
use crate::tally::Tally;
use crate::worker::work;
use desk::{BoardTexts, Desk, Naming};
use desk_history::{Entry, Plate};
use left_right::Absorb;
use std::alloc::Global;
use std::sync::{Mutex, Wait};
use std::thread;
use std::thread::Threads;
use thiserror::Error;
use value_store::StoreName;

/// No more workers than these are started.
pub const MOST_WORKERS: u32 = 32;

/// Why a body is not run.
#[derive(Debug, Drop, Error)]
pub enum WorkersFault {
    /// The start of a worker was refused. The desk is closed, and the body did not run.
    #[error("out of memory: the desk is closed, and nothing ran beside its workers")]
    OutOfMemory,
}

// Those who work beside a body.
trait Hands {
    // Works until it is sent home.
    fn work<W: Wait>(&self, rt: &W);

    // From now on nobody is given work.
    fn send_home<W: Wait>(&self, rt: &W);
}

// A desk, and what became of the jobs of those who work at it.
struct Shift<'a, J: Naming + StoreName, X: BoardTexts, R: Wait + Drop, G>
where
    Plate<J, X>: Absorb<Entry<J, X>, State = [X::Op; 0]>,
{
    alloc: Global,
    desk: &'a Desk<J, X, R>,
    gate: &'a G,
    total: Mutex<Tally>,
}

impl<'a, J: Naming + StoreName, X: BoardTexts, R: Wait + Drop, G: Gate> Hands
    for Shift<'a, J, X, R, G> {
    fn work<W: Wait>(&self, rt: &W) {
        let tally = work(rt, self.alloc, self.desk, self.gate);
        self.total.lock(rt).add(&tally);
    }

    fn send_home<W: Wait>(&self, rt: &W) {
        let _again = self.desk.close(rt).is_err();
    }
}

// Runs a body beside so many of these, and sends them home. None where the start of one was
// refused; then the body does not run. It knows nothing of desks, so that its closure is proved for
// few types.
fn run_beside<W, H, T, F>(rt: &W, hands: &H, count: u32, body: F) -> Option<T>
where
    W: Threads + Wait + Sync,
    H: Hands + Sync,
    F: FnOnce() -> T + Drop,
    T: Drop,
    requires { F.pre body }
    ensures { IfSome result (λ answer. F.post body answer) }
{
    thread::scope(
        thread::scope_env(),
        rt,
        |scope| -> Option<T>
            requires { F.pre body }
            ensures { IfSome result (λ answer. F.post body answer) }
        {
            for _ in 0..count {
                let started = scope.spawn(move || hands.work(rt));
                if started.is_err() {
                    hands.send_home(rt);
                    return None;
                }
            }
            let answer = body();
            hands.send_home(rt);
            Some(answer)
        },
    )
}

/// Runs a body beside so many workers, at most `MOST_WORKERS`, closes the desk and joins them all.
/// The body's answer, and what became of the jobs of all workers. Errors: the start of a worker was
/// refused; then the body does not run, the desk is closed, and the workers that were started are
/// joined.
pub fn with_workers<J, X, R, G, W, T, F>(
    rt: &W,
    alloc: Global,
    desk: &Desk<J, X, R>,
    gate: &G,
    count: u32,
    body: F,
) -> Result<(T, Tally), WorkersFault>
where
    J: Naming + StoreName + Send + Sync,
    X: BoardTexts + Send + Sync,
    X::Value: Send + Sync,
    X::Given: Send + Sync,
    X::Edit: Send + Sync,
    X::Prepared: Send + Sync,
    X::Fault: Send + Sync,
    X::Outcome: Send + Sync,
    X::Op: Send + Sync,
    X::Board: Send + Sync,
    R: Wait + Drop + Send + Sync,
    G: Gate + Sync,
    W: Threads + Wait + Sync,
    F: FnOnce() -> T + Drop,
    T: Drop,
    requires { F.pre body }
    ensures body { IfOk result (λ w. F.post body w.0) }
    // Without workers nothing is refused, and no job is done.
    ensures started { count ≡ 0 → IsOk result }
    ensures none { count ≡ 0 → IfOk result (λ w. w.1 ≡ no_jobs) }
{
    if count == 0 {
        let answer = body();
        let _again = desk.close(rt).is_err();
        return Ok((answer, Tally::new()));
    }
    let shift = Shift {
        alloc,
        desk,
        gate,
        total: Mutex::new(Tally::new()),
    };
    let answer = run_beside(rt, &shift, count.min(MOST_WORKERS), body);
    let Shift {
        alloc: _,
        desk: _,
        gate: _,
        total,
    } = shift;
    match answer {
        Some(answer) => Ok((answer, total.into_inner())),
        None => Err(WorkersFault::OutOfMemory),
    }
}
