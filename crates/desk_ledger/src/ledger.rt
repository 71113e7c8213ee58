//! The operations of a desk, as the bench tells them.

ghost use Rattle.std.specs.Prelude.{◌≡◌, ◌↔◌, ◌≤◌, IsTrue, MatchBool, fold, length};
ghost use mathlib.Core.List.{IsPrefix};
ghost use Rattle.memo_core.specs.Laws.{meaning};
ghost use Rattle.cells.specs.Cells.{cells as cells_of};
ghost use Rattle.desk_ledger.specs.Boards.{AreCellsKept, ArePosted, ArePostedFor, AreSettled};
ghost use Rattle.desk_ledger.specs.Edited.{IsEditOfPosted};
ghost use Rattle.desk_ledger.specs.Posts.{Posts};

use crate::posting::{is_settled, post_edited, post_settled};
use crate::texts::BoardTexts;
use cells::bench::Bench;
use desk_history::{Entry, Front, Naming, Plate, Press, Viewer};
use left_right::Absorb;
use memo_core::keys::Node;
use memo_engine::witness::Witness;
use std::alloc::Global;
use std::marker::Model;
use std::sync::Wait;
use value_store::StoreName;

/// The press of a desk. It is told of each edit, and appends its operation before the edit is put
/// in place.
pub struct Ledger<J: Naming, X: BoardTexts>
where
    Plate<J, X>: Absorb<Entry<J, X>, State = [X::Op; 0]>,
{
    /// The writer of the operations.
    pub press: Press<J, X>,
}

impl<J: Naming, X: BoardTexts> Model for Ledger<J, X>
where
    Plate<J, X>: Absorb<Entry<J, X>, State = [X::Op; 0]>,
{
    ghost use Rattle.desk_history.specs.Histories.{Pressed};

    ghost Value = { Pressed X.Op };

    ghost view = { λ l. l.press };
}

impl<J: Naming, X: BoardTexts> Ledger<J, X> {
    /// The operations that were appended.
    pub fn front(&self) -> &Front<J, X>
        ensures front { result.now ≡ self.now.all }
        ensures legal { X.is_legal self.now.all }
        ensures begins { IsPrefix self.now.published self.now.all }
    {
        self.press.front()
    }

    /// Shows readers all operations. False where memory is refused.
    #[tactic(auto, using(crate::proofs::Growing::grown_by))]
    pub fn publish<W: Wait>(&mut self, rt: &W) -> bool
        ensures all { self.new.all ≡ self.old.all }
        ensures published { MatchBool result (self.new.published ≡ self.old.all)
            (self.new.published ≡ self.old.published) }
        ensures grows { IsPrefix self.old.published self.new.published }
        ensures legal { X.is_legal self.new.all }
    {
        let _begins = self.press.front();
        self.press.publish(rt)
    }

    /// Appends the cells that are settled on the bench, as far as it can: those whose verdicts
    /// stand on a node, or all where none is given. True where none of these is left.
    pub fn post<K: StoreName>(
        &mut self,
        alloc: Global,
        bench: &Bench<K, X>,
        above: Option<Node>,
    ) -> bool
        requires valid { X.is_valid bench.now.texts }
        requires after { X.are_after bench.now.texts self.old.all }
        ensures posts { Posts X.is_settle X.are_after X.last_number
            (λ ops. length (X.cells (fold X.after X.none ops))) bench.now.texts self.old self.new }
        ensures posted { IsTrue result
            → ArePostedFor X.net (cells_of X.verdict_of X.outcome_in X.from_scratch X.reaches)
            bench.now above (X.cells (fold X.after X.none self.new.all)) }
        ensures stays { AreCellsKept (X.cells (fold X.after X.none self.old.all))
            (X.cells (fold X.after X.none self.new.all)) }
    {
        post_settled(alloc, bench, &mut self.press, above)
    }

    /// Appends the cells that an edit settled, where all were posted before it, as far as it can.
    /// True where none of these is left.
    pub fn post_edited<K: StoreName>(&mut self, alloc: Global, bench: &Bench<K, X>) -> bool
        requires valid { X.is_valid bench.now.texts }
        requires after { X.are_after bench.now.texts self.old.all }
        requires edited { IsEditOfPosted
            (meaning X.net X.is_valid X.since X.makes X.keeps X.edited X.last)
            (cells_of X.verdict_of X.outcome_in X.from_scratch X.reaches) X.are_after X.prepares
            X.announces X.commits (λ ops. X.cells (fold X.after X.none ops)) self.old.all
            bench.now }
        ensures posts { Posts X.is_settle X.are_after X.last_number
            (λ ops. length (X.cells (fold X.after X.none ops))) bench.now.texts self.old self.new }
        ensures posted { IsTrue result
            → ArePosted X.net (cells_of X.verdict_of X.outcome_in X.from_scratch X.reaches)
            bench.now (X.cells (fold X.after X.none self.new.all)) }
    {
        post_edited(alloc, bench, &mut self.press)
    }

    /// Whether each cell of the board after all operations is settled.
    pub fn is_settled(&self) -> bool
        ensures { IsTrue result → AreSettled (X.cells (fold X.after X.none self.now.all)) }
    {
        is_settled(&self.press)
    }

    /// Whether the operations begin with all that a viewer has seen or was told.
    pub fn begins_with(&self, me: &Viewer<J, X>) -> bool
        ensures length { IsTrue result ↔ (length me.now ≤ length self.now.all) }
        ensures begins { IsTrue result → IsPrefix me.now self.now.all }
    {
        me.is_behind(self.front())
    }

    /// Tells a viewer all operations, where they go on from what it knows.
    pub fn tell_all(&self, me: &mut Viewer<J, X>)
        ensures told { IsPrefix me.old self.now.all → me.new ≡ self.now.all }
        ensures legal { X.is_legal self.now.all }
    {
        me.tell(self.front());
    }

    /// Waits for the readers, and ends.
    pub fn close<W: Wait>(self, rt: &W) {
        let Ledger { press } = self;
        press.close(rt);
    }
}

impl<J: Naming, X: BoardTexts> Witness<X> for Ledger<J, X> {
    ghost use Rattle.std.specs.Prelude.{◌≡◌};
    ghost use Rattle.desk_ledger.specs.Told.{IsTellable, IsAppended};

    ghost may_tell = { λ old texts prepared number.
        IsTellable X.prepares X.announces X.may_follow old.all texts prepared number };

    ghost told = { λ old texts prepared number new.
        IsAppended X.announces old texts prepared number new };

    ghost held = { λ old new. new ≡ old };

    fn tell(&mut self, alloc: Global, texts: &X, prepared: &X::Prepared, number: u64) -> bool {
        match texts.announce(alloc, prepared, number) {
            Ok(op) => self.press.append(op).is_ok(),
            Err(_) => false,
        }
    }
}
