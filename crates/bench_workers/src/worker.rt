//! One worker.

ghost use Rattle.std.specs.Prelude.{◌≡◌, true, false};
ghost use Rattle.value_store.specs.declared.fault.StoreFault.TheVariants.{StoreFull};
ghost use Rattle.memo_core.specs.declared.claims.Finish.{Finish};
ghost use Rattle.bench_workers.specs.Turns.{after_return, after_refusal, after_fault, goes_on, goes_on_after};

use crate::gate::Gate;
use crate::tally::Tally;
use cells::job::{Done, Job, RunFault};
use desk::{BoardTexts, Desk, DeskFault, Naming, Refusals};
use desk_history::{Entry, Plate};
use left_right::Absorb;
use memo_core::claims::Finish;
use std::alloc::Global;
use std::sync::Wait;
use value_store::StoreName;

// What a worker keeps from turn to turn.
#[derive(Clone, Copy)]
struct Worker {
    tally: Tally,
    refusals: Refusals,
}

impl Worker {
    // Counts a return by what it came to.
    fn note(&mut self, finish: &Finish)
        ensures { self.new ≡ after_return finish.now self.old }
    {
        self.tally.note(finish);
        let _many = self.refusals.note(false);
    }

    // Counts a refusal for memory. True if the worker goes on.
    fn goes_on(&mut self) -> bool
        ensures after { self.new ≡ after_refusal self.old }
        ensures goes_on { result ≡ goes_on self.new }
    {
        self.tally.note_refusal();
        !self.refusals.note(true)
    }
}

// Gives up: from now on each call of the desk is refused.
fn give_up<J: Naming + StoreName, X: BoardTexts, R: Wait + Drop, W: Wait>(
    rt: &W,
    desk: &Desk<J, X, R>,
) -> bool
    ensures { result ≡ false }
{
    let _again = desk.close(rt).is_err();
    false
}

// What a worker does next.
#[derive(Drop)]
enum Next<J: Naming + StoreName, X: BoardTexts> {
    // It runs this job.
    Run(Job<J, X>),
    // It waits for a job.
    Wait,
    // It ends.
    End,
}

// Waits for a job where the worker goes on, and ends where it does not.
fn next_if<J: Naming + StoreName, X: BoardTexts>(goes_on: bool) -> Next<J, X>
    ensures waits { goes_on ≡ true → result ≡ Next.Wait }
    ensures ends { goes_on ≡ false → result ≡ Next.End }
{
    if goes_on { Next::Wait } else { Next::End }
}

// Counts a claim that was refused. True if the worker goes on.
fn is_refused<J: Naming + StoreName, X: BoardTexts, R: Wait + Drop, W: Wait>(
    rt: &W,
    desk: &Desk<J, X, R>,
    fault: DeskFault<X::Fault>,
    worker: &mut Worker,
) -> bool
    ensures after { worker.new ≡ after_fault fault worker.old }
    ensures goes_on { result ≡ goes_on_after fault worker.new }
{
    match fault {
        DeskFault::Closed => false,
        DeskFault::OutOfMemory => {
            if worker.goes_on() {
                return true;
            }
            give_up(rt, desk)
        }
        DeskFault::Claim(_) => give_up(rt, desk),
        DeskFault::Edit(_) => give_up(rt, desk),
        DeskFault::NoSeat => give_up(rt, desk),
    }
}

// Returns what a job made. True if the worker goes on.
fn hand_in<J: Naming + StoreName, X: BoardTexts, R: Wait + Drop, W: Wait>(
    rt: &W,
    desk: &Desk<J, X, R>,
    done: Done<J, X>,
    worker: &mut Worker,
) -> bool
    ensures counted { result ≡ true
        → (finish : Finish) × (worker.new ≡ after_return finish worker.old) }
    ensures same { result ≡ false → worker.new ≡ worker.old }
{
    match desk.finish(rt, done) {
        Ok((finish, _posted)) => {
            worker.note(&finish);
            true
        }
        Err(_) => false,
    }
}

// Returns what a job made, and takes the next job in the same turn of the lock.
fn exchange<J: Naming + StoreName, X: BoardTexts, R: Wait + Drop, W: Wait>(
    rt: &W,
    desk: &Desk<J, X, R>,
    done: Done<J, X>,
    worker: &mut Worker,
) -> Next<J, X> {
    let Ok((finish, _posted, next)) = desk.exchange(rt, done) else {
        return Next::End;
    };
    worker.note(&finish);
    match next {
        Ok(Some(job)) => Next::Run(job),
        Ok(None) => Next::Wait,
        Err(fault) => next_if(is_refused(rt, desk, fault, worker)),
    }
}

// Loses a job that was refused. True if the worker goes on.
fn lose<J: Naming + StoreName, X: BoardTexts, R: Wait + Drop, W: Wait>(
    rt: &W,
    desk: &Desk<J, X, R>,
    claim: u64,
    fault: RunFault,
    worker: &mut Worker,
) -> bool
    ensures after { worker.new ≡ after_refusal worker.old }
    ensures few { result ≡ true → goes_on worker.new ≡ true }
    ensures full { fault ≡ StoreFull → result ≡ false }
{
    let is_open = desk.lose(rt, claim).is_ok();
    let goes_on = worker.goes_on();
    match fault {
        RunFault::OutOfMemory => {
            if is_open && goes_on {
                return true;
            }
            give_up(rt, desk)
        }
        RunFault::StoreFull => give_up(rt, desk),
    }
}

// Runs a job, and returns it or loses it.
fn run<J: Naming + StoreName, X: BoardTexts, R: Wait + Drop, G: Gate, W: Wait>(
    rt: &W,
    alloc: Global,
    desk: &Desk<J, X, R>,
    gate: &G,
    job: Job<J, X>,
    worker: &mut Worker,
) -> Next<J, X> {
    let claim = job.claim_number();
    gate.begin(rt, claim);
    let next = match job.run(rt, alloc) {
        Ok(done) => {
            if gate.hears_ends() {
                next_if(hand_in(rt, desk, done, worker))
            } else {
                exchange(rt, desk, done, worker)
            }
        }
        Err((_job, fault)) => next_if(lose(rt, desk, claim, fault, worker)),
    };
    gate.end(rt, claim);
    next
}

// Waits for a job.
fn wait<J: Naming + StoreName, X: BoardTexts, R: Wait + Drop, W: Wait>(
    rt: &W,
    desk: &Desk<J, X, R>,
    worker: &mut Worker,
) -> Next<J, X> {
    match desk.next_job(rt) {
        Ok(job) => Next::Run(job),
        Err(fault) => next_if(is_refused(rt, desk, fault, worker)),
    }
}

/// Takes jobs of a desk and runs them until the desk is closed. A job that is refused memory is
/// lost. The worker closes the desk where the store is full, no number is left for a claim, or
/// memory was refused 16 times in a row.
pub fn work<J: Naming + StoreName, X: BoardTexts, R: Wait + Drop, G: Gate, W: Wait>(
    rt: &W,
    alloc: Global,
    desk: &Desk<J, X, R>,
    gate: &G,
) -> Tally {
    let mut worker = Worker {
        tally: Tally::new(),
        refusals: Refusals::new(),
    };
    let mut next = Next::Wait;
    for _ in rt.forever() {
        next = match next {
            Next::Run(job) => run(rt, alloc, desk, gate, job, &mut worker),
            Next::Wait => wait(rt, desk, &mut worker),
            Next::End => return worker.tally,
        };
    }
    unreachable!()
}
