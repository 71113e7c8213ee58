//! The lock, and what each thread calls.

ghost use Rattle.std.specs.Prelude.{◌≡◌, ◌≢◌, ◌≤◌, ◌⊎◌, [], IfOk, IfErr, IsSome, OnErr, OnOk, fold, leb, ⊤};
ghost use mathlib.Core.List.{IsPrefix};
ghost use Rattle.desk_ledger.specs.Boards.{AreSettled};
ghost use Rattle.desk.specs.Held.{accepted_number, IsClaimRefusedBy, IsRefusedAfter, IsRefusedBy, TellsEdit, TellsSettled};
ghost use Rattle.desk.specs.Numbers.{desk_fault_number};

use crate::answer::{Accepted, Posted, Settling};
use crate::fault::DeskFault;
use crate::refusals::Refusals;
use crate::seed::DeskSeed;
use crate::state::DeskState;
use cells::job::{Done, Job};
use crossbeam_utils::Backoff;
use desk_history::{Entry, Naming, Plate, Viewer};
use desk_ledger::BoardTexts;
use left_right::Absorb;
use memo_core::claims::Finish;
use memo_engine::graph::LAST;
use std::mem::drop;
use std::sync::{Condvar, Mutex, MutexGuard, Wait};
use value_store::StoreName;

// How often the lock is tried before the thread sleeps. The pauses between two tries grow.
const TRIES: u32 = 20;

/// A bench that threads share. Each call takes its lock once. A view that is held makes publishing
/// wait until it is left, under the lock, and so each call beside it. Whoever holds a view must
/// leave it before a call of the desk, also one that waits: such a call would not return. So it is
/// with the drop, which waits for each view that is held.
pub struct Desk<J: Naming + StoreName, X: BoardTexts, R: Wait + Drop>
where
    Plate<J, X>: Absorb<Entry<J, X>, State = [X::Op; 0]>,
{
    state: Mutex<DeskState<J, X, R>>,
    // Those who wait for a job. Who takes one wakes the next.
    work: Condvar,
    // Those who wait for a change of the board.
    change: Condvar,
}

impl<J: Naming + StoreName, X: BoardTexts, R: Wait + Drop> Desk<J, X, R> {
    /// A desk without texts that threads share, from its seed.
    pub fn new(seed: DeskSeed<J, X, R>) -> Desk<J, X, R> {
        Desk {
            state: Mutex::new(seed.into_state()),
            work: Condvar::new(),
            change: Condvar::new(),
        }
    }

    // Takes the lock. As others have it for some microseconds only, it is tried for so long before
    // the thread sleeps.
    fn lock<W: Wait>(&self, rt: &W) -> MutexGuard<DeskState<J, X, R>> {
        let backoff = Backoff::new();
        for _ in 0..TRIES {
            if let Some(state) = self.state.try_lock() {
                return state;
            }
            backoff.spin();
        }
        self.state.lock(rt)
    }

    // Leaves the lock. Wakes one who waits for a job and, if the board changed since, those who
    // wait for that.
    fn leave(&self, state: MutexGuard<DeskState<J, X, R>>, changes: u64) {
        let is_changed = !state.is_unchanged(changes);
        drop(state);
        self.work.notify_one();
        if is_changed {
            self.change.notify_all();
        }
    }

    /// Makes an edit, publishes it and tells this viewer. Errors: K1, K2 if the viewer has seen
    /// more than this desk has, the bench's refusals, want of memory.
    #[tactic(auto, using(crate::proofs::Numbering::low_number))]
    pub fn edit<W: Wait>(
        &self,
        rt: &W,
        me: &mut Viewer<J, X>,
        edit: X::Edit,
    ) -> Result<Accepted, DeskFault<X::Fault>>
        ensures err { OnErr result (me.new ≡ me.old) }
        ensures fault { IfErr result (IsRefusedBy
            (IsRefusedAfter X.is_legal X.is_valid X.are_after X.last_number
            (λ texts taken fault. X.refuses texts edit (leb LAST taken) fault) me.old)
            X.is_want_of_memory
            (me.old ≢ [])) }
        ensures told { IfOk result (λ a.
            TellsEdit X.is_legal X.is_edit X.is_settle edit me.old me.new a) }
        ensures number { IfOk result (λ a. accepted_number a ≤ LAST) }
    {
        let mut state = self.lock(rt);
        let changes = state.change_count();
        let _texts = state.is_closed();
        let answer = state.edit(rt, me, edit);
        self.leave(state, changes);
        answer
    }

    /// Gives out a job, if there is any work. Errors: K1, B1, want of memory.
    #[tactic(auto, using(crate::proofs::Refusing::claim_refused))]
    pub fn claim<W: Wait>(&self, rt: &W) -> Result<Option<Job<J, X>>, DeskFault<X::Fault>>
        ensures { IfErr result (IsClaimRefusedBy ⊤) }
    {
        let mut state = self.lock(rt);
        let changes = state.change_count();
        let answer = state.claim(rt);
        self.leave(state, changes);
        answer
    }

    /// Waits for a job. It sleeps while there is no work. Errors: K1, B1, want of memory.
    #[tactic(auto, using(crate::proofs::Refusing::claim_refused))]
    pub fn next_job<W: Wait>(&self, rt: &W) -> Result<Job<J, X>, DeskFault<X::Fault>>
        ensures { IfErr result (IsClaimRefusedBy ⊤) }
    {
        for _ in rt.forever() {
            let mut state = self.lock(rt);
            if let Some(job) = state.claim(rt)? {
                drop(state);
                self.work.notify_one();
                return Ok(job);
            }
            drop(self.work.wait(rt, state));
        }
        unreachable!()
    }

    /// Takes a return. What it came to, and what becomes of the cells that are settled. Errors: K1.
    #[tactic(auto, using(crate::proofs::Refusing::closed_only))]
    pub fn finish<W: Wait>(
        &self,
        rt: &W,
        done: Done<J, X>,
    ) -> Result<(Finish, Posted), DeskFault<X::Fault>>
        ensures { IfErr result (λ fault. fault ≡ DeskFault.Closed) }
    {
        let mut state = self.lock(rt);
        let changes = state.change_count();
        let answer = state.finish(rt, done);
        self.leave(state, changes);
        answer
    }

    /// Takes a return as `finish` does, and gives out a job as `claim` does, in one turn of the
    /// lock. Errors: K1; then no job is given out.
    #[tactic(auto, using(crate::proofs::Refusing::closed_only, crate::proofs::Exchanging::exchange_refused))]
    pub fn exchange<W: Wait>(
        &self,
        rt: &W,
        done: Done<J, X>,
    ) -> Result<
        (
            Finish,
            Posted,
            Result<Option<Job<J, X>>, DeskFault<X::Fault>>,
        ),
        DeskFault<X::Fault>,
    >
        ensures closed { IfErr result (λ fault. fault ≡ DeskFault.Closed) }
        ensures next { IfOk result (λ r. IfErr r.2 (IsClaimRefusedBy ⊤)) }
    {
        let mut state = self.lock(rt);
        let changes = state.change_count();
        let answer = state.exchange(rt, done);
        self.leave(state, changes);
        answer
    }

    /// Closes a claim, and says whether it was out. Errors: K1.
    #[tactic(auto, using(crate::proofs::Refusing::closed_only))]
    pub fn lose<W: Wait>(&self, rt: &W, claim: u64) -> Result<bool, DeskFault<X::Fault>>
        ensures { IfErr result (λ fault. fault ≡ DeskFault.Closed) }
    {
        let mut state = self.lock(rt);
        let changes = state.change_count();
        let answer = state.lose(rt, claim);
        self.leave(state, changes);
        answer
    }

    /// Forgets all that was computed, and closes every claim. Errors: K1.
    #[tactic(auto, using(crate::proofs::Refusing::closed_only))]
    pub fn renew<W: Wait>(&self, rt: &W) -> Result<(), DeskFault<X::Fault>>
        ensures { IfErr result (λ fault. fault ≡ DeskFault.Closed) }
    {
        let mut state = self.lock(rt);
        let changes = state.change_count();
        let answer = state.renew(rt);
        self.leave(state, changes);
        answer
    }

    /// From now on each call is refused. Errors: K1, if it was closed.
    #[tactic(auto, using(crate::proofs::Refusing::closed_only))]
    pub fn close<W: Wait>(&self, rt: &W) -> Result<(), DeskFault<X::Fault>>
        ensures { IfErr result (λ fault. fault ≡ DeskFault.Closed) }
    {
        let answer = self.lock(rt).close(rt);
        self.work.notify_all();
        self.change.notify_all();
        answer
    }

    /// One of the viewers, which is not given again. It has seen nothing. Errors: K1, and K2 where
    /// none is left.
    #[tactic(auto, using(crate::proofs::Refusing::own_refusal))]
    pub fn viewer<W: Wait>(&self, rt: &W) -> Result<Viewer<J, X>, DeskFault<X::Fault>>
        ensures given { IfOk result (λ v. v ≡ []) }
        ensures fault { IfErr result (λ fault. IsSome (desk_fault_number fault)) }
    {
        self.lock(rt).viewer()
    }

    /// Tells this viewer all that is published, if each cell of it is settled. Errors: K1, and K2
    /// if the viewer has seen more than this desk has.
    pub fn settle_turn<W: Wait>(
        &self,
        rt: &W,
        me: &mut Viewer<J, X>,
    ) -> Result<Settling, DeskFault<X::Fault>>
        ensures err { OnErr result (me.new ≡ me.old) }
        ensures fault { IfErr result (λ fault. IsSome (desk_fault_number fault)) }
        ensures ahead { IfErr result (λ fault. fault ≡ DeskFault.NoSeat → me.old ≢ []) }
        ensures told { IfOk result (λ r. TellsSettled X.is_legal
            (λ ops. AreSettled (X.cells (fold X.after X.none ops))) me.old me.new r) }
    {
        self.lock(rt).settle(rt, me)
    }

    /// Waits until the board has other changes than so many, something has to be tried again, or
    /// the desk is closed. It does not wait where that is so.
    pub fn wait_past<W: Wait>(&self, rt: &W, changes: u64) {
        for _ in rt.forever() {
            let state = self.lock(rt);
            if !state.is_unchanged(changes) {
                return;
            }
            drop(self.change.wait(rt, state));
        }
    }

    /// Waits until each cell is settled and published, and tells this viewer. Errors: K1, K2 as at
    /// a turn, and want of memory after 16 refusals in a row.
    pub fn settle<W: Wait>(&self, rt: &W, me: &mut Viewer<J, X>) -> Result<(), DeskFault<X::Fault>>
        ensures err { OnErr result (me.new ≡ me.old) }
        ensures fault { IfErr result (λ fault. IsSome (desk_fault_number fault)
            ⊎ (fault ≡ DeskFault.OutOfMemory)) }
        ensures ahead { IfErr result (λ fault. fault ≡ DeskFault.NoSeat → me.old ≢ []) }
        ensures begins { OnOk result (IsPrefix me.old me.new) }
        ensures settled { OnOk result (AreSettled (X.cells (fold X.after X.none me.new))) }
        ensures legal { OnOk result (X.is_legal me.new) }
    {
        let mut refusals = Refusals::new();
        for _ in rt.forever() {
            match self.settle_turn(rt, me)? {
                Settling::Done => return Ok(()),
                Settling::Waits(changes) => {
                    let _many = refusals.note(false);
                    self.wait_past(rt, changes);
                }
                Settling::Refused => {
                    if refusals.note(true) {
                        return Err(DeskFault::OutOfMemory);
                    }
                }
            }
        }
        unreachable!()
    }
}

impl<J: Naming + StoreName, X: BoardTexts, R: Wait + Drop> Drop for Desk<J, X, R> {
    fn drop(self) {
        let Desk {
            state: _,
            work: _,
            change: _,
        } = self;
    }
}
