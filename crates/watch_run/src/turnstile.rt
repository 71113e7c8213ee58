//! When workers may begin their jobs.

ghost use Rattle.std.specs.Prelude.{◌≡◌, IfOk, IsOk};
ghost use Rattle.bench_workers.specs.Tallies.{no_jobs};
ghost use Rattle.watch_run.specs.Turns.{opened_at, closed_at, turn_for, with_turn};

use bench_instance::StampedTexts;
use bench_workers::{Gate, Tally, WorkersFault, with_workers};
use desk::{BoardTexts, Desk, Naming};
use desk_history::{Entry, Plate};
use left_right::Absorb;
use std::alloc::Global;
use std::mem::drop;
use std::sync::{Condvar, Mutex, Wait};
use std::thread::Threads;
use value_store::StoreName;

// What workers and the author share.
#[derive(Clone, Copy)]
struct Turns {
    is_open: bool,
    // The number of the last edit.
    last: u64,
    // How many jobs began since it was opened.
    jobs: u64,
}

// What a worker does with a job that was given out.
#[derive(Clone, Copy)]
enum Turn {
    // It waits.
    Waits,
    // It loses the job, which was given out before the last edit.
    Loses,
    // It runs the job, which is counted.
    Runs,
}

impl Turns {
    // It is closed.
    fn new() -> Turns
        ensures { result ≡ closed_at 0 0 }
    {
        Turns {
            is_open: false,
            last: 0,
            jobs: 0,
        }
    }

    // Lets the jobs begin that are given out after the edit of this number.
    fn open(&mut self, last: u64)
        ensures { self.new ≡ opened_at last }
    {
        *self = Turns {
            is_open: true,
            last,
            jobs: 0,
        };
    }

    // Lets no job begin, and says how many did.
    fn close(&mut self) -> u64
        ensures closed { self.new ≡ closed_at self.old.last self.old.jobs }
        ensures jobs { result ≡ self.old.jobs }
    {
        self.is_open = false;
        self.jobs
    }

    // What a worker does with the job of this claim.
    fn begin(&mut self, claim: u64) -> Turn
        ensures turn { result ≡ turn_for self.old claim }
        ensures counted { self.new ≡ with_turn (turn_for self.old claim) self.old }
    {
        if !self.is_open {
            return Turn::Waits;
        }
        if claim < self.last {
            return Turn::Loses;
        }
        self.jobs = self.jobs.saturating_add(1);
        Turn::Runs
    }
}

/// Lets workers begin their jobs while it is open, and counts them. A job that was given out before
/// the last edit is lost, and not counted: its node is given out again where it still has work. So
/// the jobs that are counted are those of the texts after that edit, whenever the workers came for
/// them.
#[derive(Drop)]
pub struct Turnstile<'d, J: Naming + StoreName, X: BoardTexts, R: Wait + Drop>
where
    Plate<J, X>: Absorb<Entry<J, X>, State = [X::Op; 0]>,
{
    desk: &'d Desk<J, X, R>,
    turns: Mutex<Turns>,
    change: Condvar,
}

/// The turnstile of a desk of tests and models.
pub type RunningTurnstile<'d, J, R> = Turnstile<'d, J, StampedTexts, R>;

impl<'d, J: Naming + StoreName, X: BoardTexts, R: Wait + Drop> Turnstile<'d, J, X, R> {
    /// It is closed.
    pub fn new(desk: &'d Desk<J, X, R>) -> Self
        ensures { result.desk ≡ desk.entry }
    {
        Turnstile {
            desk,
            turns: Mutex::new(Turns::new()),
            change: Condvar::new(),
        }
    }

    /// The desk of the jobs.
    pub fn desk(&self) -> &'d Desk<J, X, R>
        ensures { result ≡ self.now.desk }
    {
        self.desk
    }

    /// Lets the jobs begin that are given out after the edit of this number, and counts them from
    /// 0.
    pub fn open<W: Wait>(&self, rt: &W, last: u64) {
        self.turns.lock(rt).open(last);
        self.change.notify_all();
    }

    /// Lets no job begin, and says how many did since it was opened.
    pub fn close<W: Wait>(&self, rt: &W) -> u64 {
        self.turns.lock(rt).close()
    }

    // Waits until it is open. Whether the job of this claim was given out before the last edit:
    // else it is counted.
    fn is_late<W: Wait>(&self, rt: &W, claim: u64) -> bool {
        for _ in rt.forever() {
            let mut turns = self.turns.lock(rt);
            match turns.begin(claim) {
                Turn::Waits => drop(self.change.wait(rt, turns)),
                Turn::Loses => return true,
                Turn::Runs => return false,
            }
        }
        unreachable!()
    }
}

impl<'d, J: Naming + StoreName, X: BoardTexts, R: Wait + Drop> Gate for Turnstile<'d, J, X, R> {
    fn begin<W: Wait>(&self, rt: &W, claim: u64) {
        if self.is_late(rt, claim) {
            let _closed = self.desk.lose(rt, claim).is_err();
        }
    }

    fn end<W: Wait>(&self, _rt: &W, _claim: u64) {}

    fn hears_ends(&self) -> bool {
        false
    }
}

/// Runs a body beside so many workers whose jobs the turnstile lets begin, as `with_workers` does,
/// with its errors.
pub fn beside_workers<'d, J, X, R, W, T, F>(
    rt: &W,
    alloc: Global,
    turnstile: &Turnstile<'d, J, X, R>,
    count: u32,
    body: F,
) -> Result<(T, Tally), WorkersFault>
where
    J: Naming + StoreName + Send + Sync,
    X: BoardTexts + Send + Sync,
    X::Value: Send + Sync,
    X::Given: Send + Sync,
    X::Edit: Send + Sync,
    X::Prepared: Send + Sync,
    X::Fault: Send + Sync,
    X::Outcome: Send + Sync,
    X::Op: Send + Sync,
    X::Board: Send + Sync,
    R: Wait + Drop + Send + Sync,
    W: Threads + Wait + Sync,
    F: FnOnce() -> T + Drop,
    T: Drop,
    requires { F.pre body }
    ensures body { IfOk result (λ w. F.post body w.0) }
    ensures started { count ≡ 0 → IsOk result }
    ensures none { count ≡ 0 → IfOk result (λ w. w.1 ≡ no_jobs) }
{
    with_workers(rt, alloc, turnstile.desk(), turnstile, count, body)
}
