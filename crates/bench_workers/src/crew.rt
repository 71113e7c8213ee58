//! Workers that stay at a desk until they are dismissed.

ghost use Rattle.std.specs.Prelude.{◌≡◌, ◌+◌, ℕ, [], length, min, IfOk, OnOk};
ghost use Rattle.bench_workers.specs.Tallies.{no_jobs};

use crate::gate::Gate;
use crate::tally::Tally;
use crate::worker::work;
use crate::workers::{MOST_WORKERS, WorkersFault};
use desk::{BoardTexts, Desk, Naming};
use desk_history::{Entry, Plate};
use left_right::Absorb;
use std::alloc::Global;
use std::marker::Model;
use std::sync::{Arc, Wait};
use std::thread;
use std::thread::{JoinHandle, Threads};
use value_store::StoreName;

/// Workers at a desk, each in a thread of its own. They work until the desk is closed; `dismiss`
/// closes it and joins them, `leave` closes it and lets them end by themselves. Contracts see it as
/// the number of its workers.
pub struct Crew<J: Naming + StoreName, X: BoardTexts, R: Wait + Drop>
where
    Plate<J, X>: Absorb<Entry<J, X>, State = [X::Op; 0]>,
{
    desk: Arc<Desk<J, X, R>>,
    handles: Vec<JoinHandle<Tally>>,
}

impl<J: Naming + StoreName, X: BoardTexts, R: Wait + Drop> Model for Crew<J, X, R>
where
    Plate<J, X>: Absorb<Entry<J, X>, State = [X::Op; 0]>,
{
    ghost use Rattle.std.specs.Prelude.{ℕ, length};

    ghost Value = { ℕ };

    ghost view = { λ c. length c.handles.items };
}

// Closes a desk, and joins the workers at it.
fn send_home<J: Naming + StoreName, X: BoardTexts, R: Wait + Drop, W: Threads + Wait>(
    rt: &W,
    desk: &Desk<J, X, R>,
    handles: Vec<JoinHandle<Tally>>,
) -> Tally
    ensures { handles.items ≡ [] → result ≡ no_jobs }
{
    let _again = desk.close(rt).is_err();
    let mut total = Tally::new();
    for handle in handles {
        total.add(&handle.join(rt));
    }
    total
}

// Starts one worker.
fn start<J, X, R, G, W>(
    rt: &W,
    alloc: Global,
    desk: &Arc<Desk<J, X, R>>,
    gate: &Arc<G>,
) -> Result<JoinHandle<Tally>, WorkersFault>
where
    J: Naming + StoreName + Send + Sync + 'static,
    X: BoardTexts + Send + Sync + 'static,
    X::Value: Send + Sync + 'static,
    X::Given: Send + Sync + 'static,
    X::Edit: Send + Sync + 'static,
    X::Prepared: Send + Sync + 'static,
    X::Fault: Send + Sync + 'static,
    X::Outcome: Send + Sync + 'static,
    X::Op: Send + Sync + 'static,
    X::Board: Send + Sync + 'static,
    R: Wait + Drop + Send + Sync + 'static,
    G: Gate + Drop + Send + Sync + 'static,
    W: Threads + Wait + Copy + Drop + Send + Sync + 'static,
{
    let Ok(desk) = Arc::try_clone(desk) else {
        return Err(WorkersFault::OutOfMemory);
    };
    let Ok(gate) = Arc::try_clone(gate) else {
        return Err(WorkersFault::OutOfMemory);
    };
    let own = *rt;
    match thread::spawn(rt, move || work(&own, alloc, &*desk, &*gate)) {
        Ok(handle) => Ok(handle),
        Err(_) => Err(WorkersFault::OutOfMemory),
    }
}

// Starts so many workers.
fn start_all<J, X, R, G, W>(
    rt: &W,
    alloc: Global,
    desk: &Arc<Desk<J, X, R>>,
    gate: G,
    count: u32,
    handles: &mut Vec<JoinHandle<Tally>>,
) -> Result<(), WorkersFault>
where
    J: Naming + StoreName + Send + Sync + 'static,
    X: BoardTexts + Send + Sync + 'static,
    X::Value: Send + Sync + 'static,
    X::Given: Send + Sync + 'static,
    X::Edit: Send + Sync + 'static,
    X::Prepared: Send + Sync + 'static,
    X::Fault: Send + Sync + 'static,
    X::Outcome: Send + Sync + 'static,
    X::Op: Send + Sync + 'static,
    X::Board: Send + Sync + 'static,
    R: Wait + Drop + Send + Sync + 'static,
    G: Gate + Drop + Send + Sync + 'static,
    W: Threads + Wait + Copy + Drop + Send + Sync + 'static,
    ensures { OnOk result (length handles.new.items ≡ length handles.old.items + count) }
{
    let Ok(gate) = Arc::new(alloc, gate) else {
        return Err(WorkersFault::OutOfMemory);
    };
    for _ in 0..count {
        if handles.reserve(1).is_err() {
            return Err(WorkersFault::OutOfMemory);
        }
        let handle = start(rt, alloc, desk, &gate)?;
        if handles.push(handle).is_err() {
            return Err(WorkersFault::OutOfMemory);
        }
    }
    Ok(())
}

/// Starts so many workers at a desk, at most `MOST_WORKERS`. Errors: the start of a worker was
/// refused; then the desk is closed, and the workers that were started are joined.
pub fn hire_crew<J, X, R, G, W>(
    rt: &W,
    alloc: Global,
    desk: &Arc<Desk<J, X, R>>,
    gate: G,
    count: u32,
) -> Result<Crew<J, X, R>, WorkersFault>
where
    J: Naming + StoreName + Send + Sync + 'static,
    X: BoardTexts + Send + Sync + 'static,
    X::Value: Send + Sync + 'static,
    X::Given: Send + Sync + 'static,
    X::Edit: Send + Sync + 'static,
    X::Prepared: Send + Sync + 'static,
    X::Fault: Send + Sync + 'static,
    X::Outcome: Send + Sync + 'static,
    X::Op: Send + Sync + 'static,
    X::Board: Send + Sync + 'static,
    R: Wait + Drop + Send + Sync + 'static,
    G: Gate + Drop + Send + Sync + 'static,
    W: Threads + Wait + Copy + Drop + Send + Sync + 'static,
    ensures { IfOk result (λ crew. crew ≡ min count 32) }
{
    let Ok(own) = Arc::try_clone(desk) else {
        let _tally = send_home(rt, &**desk, Vec::new(alloc));
        return Err(WorkersFault::OutOfMemory);
    };
    let mut handles = Vec::new(alloc);
    match start_all(rt, alloc, desk, gate, count.min(MOST_WORKERS), &mut handles) {
        Ok(()) => Ok(Crew { desk: own, handles }),
        Err(fault) => {
            let _tally = send_home(rt, &*own, handles);
            Err(fault)
        }
    }
}

impl<J: Naming + StoreName, X: BoardTexts, R: Wait + Drop> Crew<J, X, R> {
    /// Closes the desk, and joins the workers. The jobs of all workers: a crew of none did none.
    pub fn dismiss<W: Threads + Wait>(self, rt: &W) -> Tally
        ensures { self ≡ 0 → result ≡ no_jobs }
    {
        let Crew { desk, handles } = self;
        send_home(rt, &*desk, handles)
    }

    /// Closes the desk, and waits for no worker: each ends with the job that it is at, or is cut
    /// off where the program ends first.
    pub fn leave<W: Wait>(self, rt: &W) {
        let Crew { desk, handles: _ } = self;
        let _again = desk.close(rt).is_err();
    }
}
