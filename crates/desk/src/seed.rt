//! What a desk is made of.

ghost use Rattle.std.specs.Prelude.{◌≡◌, [], false, true, IfOk, IfErr, min};
ghost use Rattle.memo_core.specs.Run.{IsNewBench};
ghost use Rattle.desk.specs.Held.{held, IsSeedRefusedBy};

use crate::fault::DeskFault;
use crate::state::DeskState;
use cells::bench::Bench;
use desk_history::{Entry, Naming, OpenFault, Opened as OpenedBook, Opening, Plate, SEATS, open};
use desk_ledger::BoardTexts;
use left_right::Absorb;
use std::alloc::{AllocError, Global};
use std::marker::Model;
use std::sync::Wait;
use value_store::{MAX_VALUES, Opened as OpenedStore, Store, StoreName};

/// An empty history and an empty store, which have no name yet. The caller picks a name that stands
/// for both.
pub struct OpenedDesk<X: BoardTexts> {
    /// The history.
    pub book: OpenedBook<X::Op>,
    /// The store.
    pub values: OpenedStore<X::Value>,
}

impl<X: BoardTexts> OpenedDesk<X> {
    /// A new history and a new store of `MAX_VALUES` values at most. Errors: want of memory.
    pub fn new(alloc: Global) -> Result<OpenedDesk<X>, AllocError>
        ensures limit { IfOk result (λ opened. opened.values.limit ≡ MAX_VALUES) }
    {
        let values = Store::new(alloc)?;
        Ok(OpenedDesk {
            book: OpenedBook::new(),
            values,
        })
    }

    /// A new history and a new store of at most `limit` values, and never more than `MAX_VALUES`.
    /// Errors: want of memory.
    pub fn with_limit(alloc: Global, limit: usize) -> Result<OpenedDesk<X>, AllocError>
        ensures limit { IfOk result (λ opened. opened.values.limit ≡ min limit MAX_VALUES) }
    {
        let values = Store::with_limit(alloc, limit)?;
        Ok(OpenedDesk {
            book: OpenedBook::new(),
            values,
        })
    }
}

/// A bench without texts, the writer of its board and the 32 viewers, under the name that the
/// caller picked. Contracts see it as what will lie under the desk's lock.
pub struct DeskSeed<J: Naming + StoreName, X: BoardTexts, R: Wait + Drop>
where
    Plate<J, X>: Absorb<Entry<J, X>, State = [X::Op; 0]>,
{
    state: DeskState<J, X, R>,
}

impl<J: Naming + StoreName, X: BoardTexts, R: Wait + Drop> Model for DeskSeed<J, X, R>
where
    Plate<J, X>: Absorb<Entry<J, X>, State = [X::Op; 0]>,
{
    ghost use Rattle.desk.specs.Held.{Held};

    ghost Value = { Held X X.Value X.Op };

    ghost view = { λ s. s.state };
}

// A bench over a store, and what waits at the drop of its desk. Errors: want of memory.
fn parts<J: Naming + StoreName, X: BoardTexts, R: Wait + Drop>(
    alloc: Global,
    store: Store<J, X::Value>,
    held: R,
) -> Result<(Bench<J, X>, Box<R>), AllocError>
    ensures new { IfOk result (λ made. IsNewBench X.is_valid X.net made.0) }
    ensures after { IfOk result (λ made. X.are_after made.0.texts []) }
    ensures memos { IfOk result (λ made. made.0.memos ≡ []) }
    ensures claims { IfOk result (λ made. made.0.claims ≡ []) }
    ensures taken { IfOk result (λ made. made.0.taken ≡ 0) }
{
    let held = Box::new(alloc, held)?;
    let texts = X::start(alloc);
    Ok((Bench::over(alloc, texts, store)?, held))
}

fn fault_of<F>(fault: OpenFault) -> DeskFault<F>
    ensures { IsSeedRefusedBy result }
{
    match fault {
        OpenFault::OutOfMemory => DeskFault::OutOfMemory,
        OpenFault::NoSeat => DeskFault::NoSeat,
    }
}

impl<J: Naming + StoreName, X: BoardTexts, R: Wait + Drop> DeskSeed<J, X, R> {
    /// The seed of a desk: no test, no model, nothing appended, each viewer left to give. Errors:
    /// want of memory, and K2 where a reader cannot be made.
    pub fn new(
        rt: &R,
        alloc: Global,
        opened: OpenedDesk<X>,
    ) -> Result<DeskSeed<J, X, R>, DeskFault<X::Fault>>
    where
        R: Copy,
        requires book { opened.book.seen.book ≡ J.book }
        requires values { opened.values.values ≡ J.shelves }
        ensures new { IfOk result (λ seed. seed ≡ held seed.bench [] [] SEATS false true) }
        ensures texts { IfOk result (λ seed. X.are_after seed.bench.texts []) }
        ensures bench { IfOk result (λ seed.
            (seed.bench.memos ≡ []) × (seed.bench.claims ≡ []) × (seed.bench.taken ≡ 0)) }
        ensures fault { IfErr result IsSeedRefusedBy }
    {
        let OpenedDesk { book, values } = opened;
        let opening: Opening<J, X> = match open::<J, X, R>(rt, alloc, book) {
            Ok(opening) => opening,
            Err(fault) => return Err(fault_of(fault)),
        };
        match parts::<J, X, R>(alloc, values.named::<J>(), *rt) {
            Ok((bench, held)) => Ok(DeskSeed {
                state: DeskState::new(alloc, bench, opening, held),
            }),
            Err(_) => {
                let Opening { press, seats: _ } = opening;
                press.close(rt);
                Err(DeskFault::OutOfMemory)
            }
        }
    }

    /// What lies under the desk's lock.
    pub(crate) fn into_state(self) -> DeskState<J, X, R>
        ensures { result ≡ self }
    {
        let DeskSeed { state } = self;
        state
    }
}

impl<J: Naming + StoreName, X: BoardTexts, R: Wait + Drop> Drop for DeskSeed<J, X, R> {
    fn drop(self) {
        let DeskSeed { state: _ } = self;
    }
}
