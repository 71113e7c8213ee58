//! What the examples ask of jobs and desks of tests and models. Their types, with the names of
//! stores and histories, stand here and where a bench or a desk is made, and nowhere else.

use crate::stress::watch::{Shared, watch};
use bench_texts::{Edit, EditFault};
use bench_workers::{NoGate, Tally, work};
use board::Board;
use cells::job::{Done, Job};
use cells::texts::CellTexts;
use desk::{Accepted, BoardTexts, Desk, DeskFault, Naming, Posted, Viewer};
use memo_core::claims::Finish;
use std::alloc::{AllocError, Global};
use std::rt::Clock;
use std::sync::Wait;
use value_store::{StoreFault, StoreName};

/// Why a desk refuses a call.
pub type Refusal = DeskFault<EditFault>;

/// What a return came to at a desk, and what became of the cells that are settled.
pub type Taken = (Finish, Posted);

/// A job that was claimed.
pub trait PlayedJob: Drop {
    /// What a job makes.
    type Done: Drop;

    /// The number of its claim.
    fn claim_number(&self) -> u64;

    /// Runs it. Where it is refused, it comes back.
    fn run<W: Wait>(self, rt: &W, alloc: Global) -> Result<Self::Done, (Self, StoreFault)>;

    /// The number of the claim whose job made this.
    fn claim_of(done: &Self::Done) -> u64;

    /// What was made, once more. Errors: want of memory.
    fn copy(alloc: Global, done: &Self::Done) -> Result<Self::Done, AllocError>;
}

impl<K: StoreName, T: CellTexts> PlayedJob for Job<K, T> {
    type Done = Done<K, T>;

    fn claim_number(&self) -> u64 {
        Job::claim_number(self)
    }

    fn run<W: Wait>(self, rt: &W, alloc: Global) -> Result<Done<K, T>, (Job<K, T>, StoreFault)> {
        Job::run(self, rt, alloc)
    }

    fn claim_of(done: &Done<K, T>) -> u64 {
        done.claim_number()
    }

    fn copy(alloc: Global, done: &Done<K, T>) -> Result<Done<K, T>, AllocError> {
        done.copy(alloc)
    }
}

/// Looks at boards.
pub trait Looker {
    /// Looks at a board.
    fn look(&mut self, alloc: Global, board: &Board);
}

/// A desk of tests and models whose board viewers read.
pub trait ViewedDesk {
    /// Who reads its board.
    type Viewer: Drop;

    /// A viewer, which is not given again.
    fn give_viewer<W: Wait>(&self, rt: &W) -> Result<Self::Viewer, Refusal>;

    /// Makes an edit, and tells the viewer.
    fn edit<W: Wait>(
        &self,
        rt: &W,
        viewer: &mut Self::Viewer,
        edit: Edit,
    ) -> Result<Accepted, Refusal>;

    /// Tells the viewer what is published, if each cell is settled: as soon as that is so, if it
    /// waits.
    fn settle<W: Wait>(
        &self,
        rt: &W,
        viewer: &mut Self::Viewer,
        waits: bool,
    ) -> Result<(), Refusal>;

    /// Shows the board that was published last. The viewer comes back. False where there is none.
    fn look<L: Looker>(alloc: Global, viewer: Self::Viewer, looker: &mut L) -> (Self::Viewer, bool);

    /// Works until the desk is closed.
    fn work<W: Wait>(&self, rt: &W, alloc: Global) -> Tally;
}

impl<J, X, R> ViewedDesk for Desk<J, X, R>
where
    J: Naming + StoreName,
    X: BoardTexts<Edit = Edit, Fault = EditFault, Board = Board>,
    R: Wait + Drop,
{
    type Viewer = Viewer<J, X>;

    fn give_viewer<W: Wait>(&self, rt: &W) -> Result<Viewer<J, X>, Refusal> {
        Desk::viewer(self, rt)
    }

    fn edit<W: Wait>(
        &self,
        rt: &W,
        viewer: &mut Viewer<J, X>,
        edit: Edit,
    ) -> Result<Accepted, Refusal> {
        Desk::edit(self, rt, viewer, edit)
    }

    fn settle<W: Wait>(
        &self,
        rt: &W,
        viewer: &mut Viewer<J, X>,
        waits: bool,
    ) -> Result<(), Refusal> {
        if waits {
            return Desk::settle(self, rt, viewer);
        }
        let _turn = Desk::settle_turn(self, rt, viewer)?;
        Ok(())
    }

    fn look<L: Looker>(
        alloc: Global,
        viewer: Viewer<J, X>,
        looker: &mut L,
    ) -> (Viewer<J, X>, bool) {
        match viewer.read() {
            Ok(view) => {
                looker.look(alloc, view.board());
                (view.leave(), true)
            }
            Err(viewer) => (viewer, false),
        }
    }

    fn work<W: Wait>(&self, rt: &W, alloc: Global) -> Tally {
        work(rt, alloc, self, &NoGate)
    }
}

/// A call that changes what is out.
#[derive(Clone, Copy)]
pub enum Call {
    /// Closes a claim.
    Lose(u64),
    /// Forgets all that was computed, and closes every claim.
    Renew,
    /// From now on each call is refused.
    Close,
}

/// What several threads ask of a desk of tests and models at once.
pub trait SharedDesk: Sync {
    /// What a job makes.
    type Done: Drop + Send + Sync;

    /// Returns a copy of what a job made.
    fn offer<W: Wait>(&self, rt: &W, alloc: Global, done: &Self::Done) -> Result<Taken, Refusal>;

    /// Makes a call. False where it closes a claim that was not out.
    fn call<W: Wait>(&self, rt: &W, call: Call) -> Result<bool, Refusal>;
}

impl<J, X, R> SharedDesk for Desk<J, X, R>
where
    J: Naming + StoreName + Send + Sync,
    X: BoardTexts<Edit = Edit, Fault = EditFault, Board = Board> + Send + Sync,
    X::Value: Send + Sync,
    X::Given: Send + Sync,
    X::Edit: Send + Sync,
    X::Prepared: Send + Sync,
    X::Fault: Send + Sync,
    X::Outcome: Send + Sync,
    X::Op: Send + Sync,
    X::Board: Send + Sync,
    R: Wait + Drop + Send + Sync,
{
    type Done = Done<J, X>;

    fn offer<W: Wait>(&self, rt: &W, alloc: Global, done: &Done<J, X>) -> Result<Taken, Refusal> {
        match done.copy(alloc) {
            Ok(copy) => Desk::finish(self, rt, copy),
            Err(_) => Err(DeskFault::OutOfMemory),
        }
    }

    fn call<W: Wait>(&self, rt: &W, call: Call) -> Result<bool, Refusal> {
        match call {
            Call::Lose(claim) => return Desk::lose(self, rt, claim),
            Call::Renew => Desk::renew(self, rt)?,
            Call::Close => Desk::close(self, rt)?,
        }
        Ok(true)
    }
}

/// A desk whose boards are looked at beside an author.
pub trait WatchedDesk: Sync {
    /// Looks at its boards as a viewer.
    fn watch<W: Wait + Clock>(&self, rt: &W, alloc: Global, asks: bool, shared: &Shared);
}

impl<J, X, R> WatchedDesk for Desk<J, X, R>
where
    J: Naming + StoreName + Send + Sync,
    X: BoardTexts<Edit = Edit, Fault = EditFault, Board = Board> + Send + Sync,
    X::Value: Send + Sync,
    X::Given: Send + Sync,
    X::Edit: Send + Sync,
    X::Prepared: Send + Sync,
    X::Fault: Send + Sync,
    X::Outcome: Send + Sync,
    X::Op: Send + Sync,
    X::Board: Send + Sync,
    R: Wait + Drop + Send + Sync,
{
    fn watch<W: Wait + Clock>(&self, rt: &W, alloc: Global, asks: bool, shared: &Shared) {
        watch(rt, alloc, self, asks, shared);
    }
}

/// A desk of tests and models.
pub trait PlayedDesk: SharedDesk + ViewedDesk + WatchedDesk {
    /// What it gives out.
    type Job: PlayedJob<Done = Self::Done>;

    /// Gives out a job, if there is work.
    fn claim<W: Wait>(&self, rt: &W) -> Result<Option<Self::Job>, Refusal>;
}

impl<J, X, R> PlayedDesk for Desk<J, X, R>
where
    J: Naming + StoreName + Send + Sync,
    X: BoardTexts<Edit = Edit, Fault = EditFault, Board = Board> + Send + Sync,
    X::Value: Send + Sync,
    X::Given: Send + Sync,
    X::Edit: Send + Sync,
    X::Prepared: Send + Sync,
    X::Fault: Send + Sync,
    X::Outcome: Send + Sync,
    X::Op: Send + Sync,
    X::Board: Send + Sync,
    R: Wait + Drop + Send + Sync,
{
    type Job = Job<J, X>;

    fn claim<W: Wait>(&self, rt: &W) -> Result<Option<Job<J, X>>, Refusal> {
        Desk::claim(self, rt)
    }
}
