//! What lies under the lock. Each change of it is a method here.

ghost use Rattle.std.specs.Prelude.{◌≡◌, ◌≢◌, ◌↔◌, ◌+◌, ◌≤◌, ◌<◌, [], true, false, length, fold, not, IsTrue, IfOk, OnOk, OnErr, Ok, Err, IfErr, IfSome, IfNone, leb};
ghost use mathlib.Core.List.{IsPrefix};
ghost use Rattle.memo_core.specs.Laws.{meaning};
ghost use Rattle.memo_core.specs.Run.{Claim as Claimed, IsNewBench, NoClaim, Returned, Lose as Lost, Renew as Renewed, Refused, Step};
ghost use Rattle.cells.specs.Cells.{cells as cells_of};
ghost use Rattle.cells.specs.Views.{IsRightBench};
ghost use Rattle.desk_ledger.specs.Boards.{ArePosted, ArePostedBut, AreSettled};
ghost use Rattle.desk_ledger.specs.Edited.{IsEditOf, IsEditOfPosted};
ghost use Rattle.desk_ledger.specs.Posts.{Posts};
ghost use Rattle.desk.specs.Held.{IsEditAppended, IsRefusedBy, IsClaimRefusedBy, IsClosing, ShowsAllOrAsBefore};

use crate::answer::{Accepted, Posted, Settling};
use crate::fault::DeskFault;
use crate::taking::take;
use cells::bench::Bench;
use cells::job::{Done, Job};
use desk_history::{Entry, Naming, Opening, Plate, Seats, Viewer};
use desk_ledger::{BoardTexts, Ledger};
use left_right::Absorb;
use memo_core::claims::{ClaimFault, Finish};
use memo_core::keys::Node;
use memo_engine::graph::LAST;
use std::alloc::Global;
use std::marker::Model;
use std::sync::Wait;
use value_store::StoreName;

/// A bench, the operations of its board with those that readers see, and the viewers that are left
/// to give.
pub struct DeskState<J: Naming + StoreName, X: BoardTexts, R: Wait + Drop>
where
    Plate<J, X>: Absorb<Entry<J, X>, State = [X::Op; 0]>,
{
    bench: Bench<J, X>,
    ledger: Ledger<J, X>,
    seats: Seats<J, X>,
    closed: bool,
    // Whether a settled cell may be open on the board, or readers may not see all: the next call
    // tries again.
    owes: bool,
    alloc: Global,
    // Its drop waits for the viewers.
    rt: Box<R>,
}

impl<J: Naming + StoreName, X: BoardTexts, R: Wait + Drop> Model for DeskState<J, X, R>
where
    Plate<J, X>: Absorb<Entry<J, X>, State = [X::Op; 0]>,
{
    ghost use Rattle.std.specs.Prelude.{◌≡◌, ◌≤◌, false, fold};
    ghost use Rattle.memo_core.specs.Laws.{meaning};
    ghost use Rattle.cells.specs.Cells.{cells as cells_of};
    ghost use Rattle.desk_ledger.specs.Boards.{ArePosted};
    ghost use Rattle.desk.specs.Held.{Held, held};
    ghost use Rattle.desk.specs.Runs.{IsReachedByEvents};

    ghost Value = { Held X X.Value X.Op };

    ghost view = { λ s. held s.bench s.ledger.all s.ledger.published s.seats s.closed s.owes };

    ghost invariant = { λ s. X.is_valid s.bench.texts × X.are_after s.bench.texts s.ledger.all
        × (X.last_number s.ledger.all ≤ s.bench.taken)
        × (s.owes ≡ false
        → (s.ledger.published ≡ s.ledger.all)
        × ArePosted X.net (cells_of X.verdict_of X.outcome_in X.from_scratch X.reaches)
        s.bench (X.cells (fold X.after X.none s.ledger.all)))
        × IsReachedByEvents
        (meaning X.net X.is_valid X.since X.makes X.keeps X.edited X.last) s.bench };
}

// Makes an edit on the bench, and appends its operation before it is put in place.
fn make_edit<J: Naming + StoreName, X: BoardTexts>(
    alloc: Global,
    bench: &mut Bench<J, X>,
    ledger: &mut Ledger<J, X>,
    edit: X::Edit,
) -> Result<u64, DeskFault<X::Fault>>
    requires valid { X.is_valid bench.old.texts }
    requires after { X.are_after bench.old.texts ledger.old.all }
    requires last { X.last_number ledger.old.all ≤ bench.old.taken }
    ensures open { result ≢ Err DeskFault.Closed }
    ensures fault { IfErr result (λ fault. IsRefusedBy
        (X.refuses bench.old.texts edit (leb LAST bench.old.taken)) X.is_want_of_memory ⊥
        fault) }
    ensures valid { X.is_valid bench.new.texts }
    ensures after { X.are_after bench.new.texts ledger.new.all }
    ensures last { X.last_number ledger.new.all ≤ bench.new.taken }
    ensures published { ledger.new.published ≡ ledger.old.published }
    ensures made { IfOk result (λ number. IsEditAppended
        (meaning X.net X.is_valid X.since X.makes X.keeps X.edited X.last) X.is_edit edit
        bench.old bench.new ledger.old.all ledger.new.all number) }
    ensures edited { IfOk result (λ number. IsEditOf X.is_valid X.are_after X.prepares X.announces
        X.commits bench.old.texts edit number ledger.old.all ledger.new.all bench.new.texts) }
    ensures unspent { OnOk result (bench.old.taken < LAST) }
    ensures err { OnErr result (Step
        (meaning X.net X.is_valid X.since X.makes X.keeps X.edited X.last) bench.old Refused
        bench.new × (ledger.new ≡ ledger.old)) }
{
    match bench.edit_told(alloc, edit, ledger) {
        Ok(Some(number)) => Ok(number),
        Ok(None) => Err(DeskFault::OutOfMemory),
        Err(fault) => {
            if X::wants_memory(&fault) {
                Err(DeskFault::OutOfMemory)
            } else {
                Err(DeskFault::Edit(fault))
            }
        }
    }
}

// Appends the cells that are settled after an edit, as far as it can: all, where some may have been
// left before it, and otherwise those that it settled. True where none is left.
fn post_edit<J: Naming + StoreName, X: BoardTexts>(
    alloc: Global,
    bench: &Bench<J, X>,
    ledger: &mut Ledger<J, X>,
    owed: bool,
) -> bool
    requires valid { X.is_valid bench.now.texts }
    requires after { X.are_after bench.now.texts ledger.old.all }
    requires edited { owed ≡ false → IsEditOfPosted
        (meaning X.net X.is_valid X.since X.makes X.keeps X.edited X.last)
        (cells_of X.verdict_of X.outcome_in X.from_scratch X.reaches) X.are_after X.prepares
        X.announces X.commits (λ ops. X.cells (fold X.after X.none ops)) ledger.old.all bench.now }
    ensures posts { Posts X.is_settle X.are_after X.last_number
        (λ ops. length (X.cells (fold X.after X.none ops))) bench.now.texts ledger.old ledger.new }
    ensures posted { IsTrue result
        → ArePosted X.net (cells_of X.verdict_of X.outcome_in X.from_scratch X.reaches) bench.now
        (X.cells (fold X.after X.none ledger.new.all)) }
{
    if owed {
        return ledger.post(alloc, bench, None);
    }
    ledger.post_edited(alloc, bench)
}

impl<J: Naming + StoreName, X: BoardTexts, R: Wait + Drop> DeskState<J, X, R> {
    ghost use Rattle.desk.specs.Exchanges.{TakesAndClaims};
    ghost use Rattle.desk.specs.Runs.{IsReachedByEvents};
    ghost use Rattle.desk.specs.Held.{held, accepted_number, AppendsSettles, IsEditTurn, IsRefusedTurn, IsShownOrOwed, Publishes, PublishesOr, IsSettlingTurn, TellsEdit};

    /// A bench without texts, and a board that shows nothing.
    pub(crate) fn new(
        alloc: Global,
        bench: Bench<J, X>,
        opening: Opening<J, X>,
        rt: Box<R>,
    ) -> DeskState<J, X, R>
        requires new { IsNewBench X.is_valid X.net bench }
        requires after { X.are_after bench.texts [] }
        requires press { (opening.press.all ≡ []) × (opening.press.published ≡ []) }
        ensures { result ≡ held bench [] [] opening.seats false true }
    {
        let Opening { press, seats } = opening;
        DeskState {
            bench,
            ledger: Ledger { press },
            seats,
            closed: false,
            owes: true,
            alloc,
            rt,
        }
    }

    /// Whether it was closed. What it keeps at all times: its bench is right, so a settled cell
    /// carries what evaluating its texts from nothing gives; a list of events leads to it from a
    /// new bench, so that all holds of it which holds after any list; the published operations and
    /// then the pending ones are legal, and the texts of the bench are those after them. Where
    /// nothing is owed, all is published, and each cell that is settled on the bench is settled
    /// there.
    pub fn is_closed(&self) -> bool
        ensures closed { result ≡ self.now.closed }
        ensures right { IsRightBench
            (meaning X.net X.is_valid X.since X.makes X.keeps X.edited X.last) self.now.bench }
        ensures reached { IsReachedByEvents
            (meaning X.net X.is_valid X.since X.makes X.keeps X.edited X.last) self.now.bench }
        ensures legal { X.is_legal self.now.all }
        ensures begins { IsPrefix self.now.published self.now.all }
        ensures valid { X.is_valid self.now.bench.texts }
        ensures after { X.are_after self.now.bench.texts self.now.all }
        ensures last { X.last_number self.now.all ≤ self.now.bench.taken }
        ensures shown { IsShownOrOwed
            (λ bench ops. ArePosted X.net
            (cells_of X.verdict_of X.outcome_in X.from_scratch X.reaches) bench
            (X.cells (fold X.after X.none ops))) self.now }
    {
        let _legal = self.ledger.front();
        let _right = self.bench.taken();
        self.closed
    }

    /// Makes an edit, publishes it and tells this viewer. Errors: K1 if the desk is closed, K2 if
    /// the viewer has seen more than this desk has, the bench's refusals, want of memory; the
    /// viewer's list and the operations stay what they are then, and nothing more is owed.
    pub fn edit<W: Wait>(
        &mut self,
        rt: &W,
        me: &mut Viewer<J, X>,
        edit: X::Edit,
    ) -> Result<Accepted, DeskFault<X::Fault>>
        ensures closed { (result ≡ Err DeskFault.Closed) ↔ (self.old.closed ≡ true) }
        ensures no_seat { (result ≡ Err DeskFault.NoSeat)
            ↔ ((self.old.closed ≡ false) × (length self.old.all < length me.old)) }
        ensures fault { IfErr result (IsRefusedBy
            (λ fault. IsPrefix me.old self.old.all
            × X.refuses self.old.bench.texts edit (leb LAST self.old.bench.taken) fault)
            X.is_want_of_memory
            (length self.old.all < length me.old)) }
        ensures err { OnErr result (IsRefusedTurn
            (meaning X.net X.is_valid X.since X.makes X.keeps X.edited X.last) self.old
            self.new × (me.new ≡ me.old)) }
        ensures debt { OnErr result (self.new.owes ≡ self.old.owes) }
        ensures unspent { OnOk result (self.old.bench.taken < LAST) }
        ensures turn { IfOk result (λ a. IsEditTurn
            (meaning X.net X.is_valid X.since X.makes X.keeps X.edited X.last) X.is_edit
            X.is_settle edit self.old self.new (accepted_number a)) }
        ensures published { IfOk result (λ a. Publishes self.old self.new me.old me.new a) }
        ensures told { IfOk result (λ a.
            TellsEdit X.is_legal X.is_edit X.is_settle edit me.old me.new a) }
        ensures shown { OnOk result (IsShownOrOwed
            (λ bench ops. ArePosted X.net
            (cells_of X.verdict_of X.outcome_in X.from_scratch X.reaches) bench
            (X.cells (fold X.after X.none ops))) self.new) }
    {
        if self.closed {
            return Err(DeskFault::Closed);
        }
        if !self.ledger.begins_with(me) {
            return Err(DeskFault::NoSeat);
        }
        let number = make_edit(self.alloc, &mut self.bench, &mut self.ledger, edit)?;
        self.owes = !post_edit(self.alloc, &self.bench, &mut self.ledger, self.owes);
        if !self.ledger.publish(rt) {
            self.owes = true;
            return Ok(Accepted::Later(number));
        }
        self.ledger.tell_all(me);
        Ok(Accepted::Now(number))
    }

    // Appends the cells that are settled, and publishes. Where a node is given, all are posted but
    // those whose verdicts stand on it.
    #[tactic(auto, using(desk_ledger::proofs::Growing::prefix_same, desk_ledger::proofs::Growing::grown_from))]
    fn catch_up<W: Wait>(&mut self, rt: &W, above: Option<Node>) -> Posted
        requires rest { IfSome above (λ node. ArePostedBut X.net
            (cells_of X.verdict_of X.outcome_in X.from_scratch X.reaches) self.old.bench node
            (X.cells (fold X.after X.none self.old.all))) }
        ensures bench { self.new.bench ≡ self.old.bench }
        ensures appends { AppendsSettles X.is_settle self.old.all self.old self.new }
        ensures grows { IsPrefix self.old.published self.new.published }
        ensures posted { PublishesOr
            (λ bench ops. ArePosted X.net
            (cells_of X.verdict_of X.outcome_in X.from_scratch X.reaches) bench
            (X.cells (fold X.after X.none ops))) self.old self.new result }
    {
        self.owes = true;
        if !self.ledger.post(self.alloc, &self.bench, above) {
            return Posted::Later;
        }
        if !self.ledger.publish(rt) {
            return Posted::Later;
        }
        self.owes = false;
        Posted::Now
    }

    // Tries again what may be left.
    #[tactic(auto, using(desk_ledger::proofs::Growing::prefix_same))]
    fn try_again<W: Wait>(&mut self, rt: &W)
        ensures bench { self.new.bench ≡ self.old.bench }
        ensures appends { AppendsSettles X.is_settle self.old.all self.old self.new }
        ensures grows { IsPrefix self.old.published self.new.published }
        ensures whole { ShowsAllOrAsBefore self.old self.new }
        ensures shown { IsShownOrOwed
            (λ bench ops. ArePosted X.net
            (cells_of X.verdict_of X.outcome_in X.from_scratch X.reaches) bench
            (X.cells (fold X.after X.none ops))) self.new }
        ensures still { self.old.owes ≡ false → self.new ≡ self.old }
    {
        if self.owes {
            let _posted = self.catch_up(rt, None);
        }
    }

    // Tries again what may be left. True where nothing is: readers see all operations, and each
    // settled cell among them.
    fn show_all<W: Wait>(&mut self, rt: &W) -> bool
        ensures bench { self.new.bench ≡ self.old.bench }
        ensures appends { AppendsSettles X.is_settle self.old.all self.old self.new }
        ensures grows { IsPrefix self.old.published self.new.published }
        ensures whole { ShowsAllOrAsBefore self.old self.new }
        ensures owes { result ≡ not self.new.owes }
        ensures shown { IsShownOrOwed
            (λ bench ops. ArePosted X.net
            (cells_of X.verdict_of X.outcome_in X.from_scratch X.reaches) bench
            (X.cells (fold X.after X.none ops))) self.new }
    {
        self.try_again(rt);
        !self.owes
    }

    /// Gives out a job, if there is any work. Where nothing was owed, nothing but the bench
    /// changes. Errors: K1, B1, want of memory; nothing is appended then, and nothing more is owed.
    pub fn claim<W: Wait>(&mut self, rt: &W) -> Result<Option<Job<J, X>>, DeskFault<X::Fault>>
        ensures closed { (result ≡ Err DeskFault.Closed) ↔ (self.old.closed ≡ true) }
        ensures fault { IfErr result (IsClaimRefusedBy (LAST ≤ self.old.bench.taken)) }
        ensures spent { self.old.closed ≡ false → LAST ≤ self.old.bench.taken
            → result ≡ Err (DeskFault.Claim ClaimFault.Spent) }
        ensures err { OnErr result (IsRefusedTurn
            (meaning X.net X.is_valid X.since X.makes X.keeps X.edited X.last) self.old
            self.new) }
        ensures debt { OnErr result (self.new.owes ≡ self.old.owes) }
        ensures given { IfOk result (λ r. IfSome r (λ j. Step
            (meaning X.net X.is_valid X.since X.makes X.keeps X.edited X.last)
            self.old.bench (Claimed j.claim j.node j.given j.keys j.values)
            self.new.bench)) }
        ensures none { IfOk result (λ r. IfNone r (Step
            (meaning X.net X.is_valid X.since X.makes X.keeps X.edited X.last)
            self.old.bench NoClaim self.new.bench)) }
        ensures appends { OnOk result (AppendsSettles X.is_settle self.old.all self.old self.new) }
        ensures grows { OnOk result (IsPrefix self.old.published self.new.published) }
        ensures whole { OnOk result (ShowsAllOrAsBefore self.old self.new) }
        ensures shown { OnOk result (IsShownOrOwed
            (λ bench ops. ArePosted X.net
            (cells_of X.verdict_of X.outcome_in X.from_scratch X.reaches) bench
            (X.cells (fold X.after X.none ops))) self.new) }
        ensures still { OnOk result (self.old.owes ≡ false
            → self.new
            ≡ held self.new.bench self.old.all self.old.published self.old.spare
            self.old.closed false) }
    {
        if self.closed {
            return Err(DeskFault::Closed);
        }
        let job = match self.bench.claim(self.alloc) {
            Ok(job) => job,
            Err(ClaimFault::OutOfMemory) => return Err(DeskFault::OutOfMemory),
            Err(ClaimFault::Spent) => return Err(DeskFault::Claim(ClaimFault::Spent)),
        };
        self.try_again(rt);
        Ok(job)
    }

    /// Takes a return, and publishes the cells that are settled. What the return came to, and what
    /// becomes of these cells. Errors: K1.
    pub fn finish<W: Wait>(
        &mut self,
        rt: &W,
        done: Done<J, X>,
    ) -> Result<(Finish, Posted), DeskFault<X::Fault>>
        ensures closed { (result ≡ Err DeskFault.Closed) ↔ (self.old.closed ≡ true) }
        ensures only { OnErr result (self.old.closed ≡ true) }
        ensures err { OnErr result (self.new ≡ self.old) }
        ensures step { IfOk result (λ r. Step
            (meaning X.net X.is_valid X.since X.makes X.keeps X.edited X.last) self.old.bench
            (Returned done r.0) self.new.bench) }
        ensures appends { OnOk result (AppendsSettles X.is_settle self.old.all self.old self.new) }
        ensures grows { OnOk result (IsPrefix self.old.published self.new.published) }
        ensures posted { IfOk result (λ r. PublishesOr
            (λ bench ops. ArePosted X.net
            (cells_of X.verdict_of X.outcome_in X.from_scratch X.reaches) bench
            (X.cells (fold X.after X.none ops))) self.old self.new r.1) }
    {
        if self.closed {
            return Err(DeskFault::Closed);
        }
        let owed = self.owes;
        self.owes = true;
        let (finish, above) = take(&mut self.bench, &self.ledger, owed, done);
        let posted = self.catch_up(rt, above);
        Ok((finish, posted))
    }

    /// Takes a return as `finish` does, and then gives out a job as `claim` does. The return stays
    /// taken where the claim is refused. Errors: K1; then no job is given out either.
    pub fn exchange<W: Wait>(
        &mut self,
        rt: &W,
        done: Done<J, X>,
    ) -> Result<
        (
            Finish,
            Posted,
            Result<Option<Job<J, X>>, DeskFault<X::Fault>>,
        ),
        DeskFault<X::Fault>,
    >
        ensures closed { (result ≡ Err DeskFault.Closed) ↔ (self.old.closed ≡ true) }
        ensures only { OnErr result (self.old.closed ≡ true) }
        ensures err { OnErr result (self.new ≡ self.old) }
        ensures turns { IfOk result (λ r. TakesAndClaims
            (meaning X.net X.is_valid X.since X.makes X.keeps X.edited X.last) X.is_settle
            (λ bench ops. ArePosted X.net
            (cells_of X.verdict_of X.outcome_in X.from_scratch X.reaches) bench
            (X.cells (fold X.after X.none ops))) LAST done self.old r.0 r.1 r.2 self.new) }
    {
        let (finish, posted) = self.finish(rt, done)?;
        let next = self.claim(rt);
        Ok((finish, posted, next))
    }

    /// Closes a claim, and says whether it was out. Errors: K1.
    pub fn lose<W: Wait>(&mut self, rt: &W, claim: u64) -> Result<bool, DeskFault<X::Fault>>
        ensures closed { (result ≡ Err DeskFault.Closed) ↔ (self.old.closed ≡ true) }
        ensures only { OnErr result (self.old.closed ≡ true) }
        ensures err { OnErr result (self.new ≡ self.old) }
        ensures step { IfOk result (λ r. Step
            (meaning X.net X.is_valid X.since X.makes X.keeps X.edited X.last) self.old.bench
            (Lost claim r) self.new.bench) }
        ensures appends { OnOk result (AppendsSettles X.is_settle self.old.all self.old self.new) }
        ensures grows { OnOk result (IsPrefix self.old.published self.new.published) }
        ensures whole { OnOk result (ShowsAllOrAsBefore self.old self.new) }
        ensures shown { OnOk result (IsShownOrOwed
            (λ bench ops. ArePosted X.net
            (cells_of X.verdict_of X.outcome_in X.from_scratch X.reaches) bench
            (X.cells (fold X.after X.none ops))) self.new) }
    {
        if self.closed {
            return Err(DeskFault::Closed);
        }
        self.owes = true;
        let lost = self.bench.lose(claim);
        self.try_again(rt);
        Ok(lost)
    }

    /// Forgets all that was computed, and closes every claim. Errors: K1.
    pub fn renew<W: Wait>(&mut self, rt: &W) -> Result<(), DeskFault<X::Fault>>
        ensures closed { (result ≡ Err DeskFault.Closed) ↔ (self.old.closed ≡ true) }
        ensures only { OnErr result (self.old.closed ≡ true) }
        ensures err { OnErr result (self.new ≡ self.old) }
        ensures step { OnOk result (Step
            (meaning X.net X.is_valid X.since X.makes X.keeps X.edited X.last) self.old.bench
            Renewed self.new.bench) }
        ensures appends { OnOk result (AppendsSettles X.is_settle self.old.all self.old self.new) }
        ensures grows { OnOk result (IsPrefix self.old.published self.new.published) }
        ensures whole { OnOk result (ShowsAllOrAsBefore self.old self.new) }
        ensures shown { OnOk result (IsShownOrOwed
            (λ bench ops. ArePosted X.net
            (cells_of X.verdict_of X.outcome_in X.from_scratch X.reaches) bench
            (X.cells (fold X.after X.none ops))) self.new) }
    {
        if self.closed {
            return Err(DeskFault::Closed);
        }
        self.owes = true;
        self.bench.renew();
        self.try_again(rt);
        Ok(())
    }

    /// Publishes, and tells the viewer once each cell is settled. Where it waits, it says how many
    /// operations are published, and each cell that is settled on the bench is settled there.
    /// Errors: K1, and K2 if the viewer has seen more than this desk has.
    pub fn settle<W: Wait>(
        &mut self,
        rt: &W,
        me: &mut Viewer<J, X>,
    ) -> Result<Settling, DeskFault<X::Fault>>
        ensures closed { (result ≡ Err DeskFault.Closed) ↔ (self.old.closed ≡ true) }
        ensures no_seat { (result ≡ Err DeskFault.NoSeat)
            ↔ ((self.old.closed ≡ false) × (length self.old.all < length me.old)) }
        ensures only { OnErr result (self.old.closed ≡ false
            → length self.old.all < length me.old) }
        ensures err { OnErr result ((self.new ≡ self.old) × (me.new ≡ me.old)) }
        ensures bench { self.new.bench ≡ self.old.bench }
        ensures appends { OnOk result (AppendsSettles X.is_settle self.old.all self.old self.new) }
        ensures grows { OnOk result (IsPrefix self.old.published self.new.published) }
        ensures whole { OnOk result (ShowsAllOrAsBefore self.old self.new) }
        ensures settles { IfOk result (λ r. IsSettlingTurn X.is_legal
            (λ ops. AreSettled (X.cells (fold X.after X.none ops)))
            (λ bench ops. ArePosted X.net
            (cells_of X.verdict_of X.outcome_in X.from_scratch X.reaches) bench
            (X.cells (fold X.after X.none ops))) self.new me.old me.new r) }
    {
        if self.closed {
            return Err(DeskFault::Closed);
        }
        if !self.ledger.begins_with(me) {
            return Err(DeskFault::NoSeat);
        }
        if !self.show_all(rt) {
            return Ok(Settling::Refused);
        }
        if !self.ledger.is_settled() {
            return Ok(Settling::Waits(self.change_count()));
        }
        self.ledger.tell_all(me);
        Ok(Settling::Done)
    }

    /// One of the viewers, which is not given again. It has seen nothing. Errors: K1, and K2 where
    /// none is left.
    pub fn viewer(&mut self) -> Result<Viewer<J, X>, DeskFault<X::Fault>>
        ensures closed { (result ≡ Err DeskFault.Closed) ↔ (self.old.closed ≡ true) }
        ensures no_seat { (result ≡ Err DeskFault.NoSeat)
            ↔ ((self.old.closed ≡ false) × (self.old.spare ≡ 0)) }
        ensures only { OnErr result (self.old.closed ≡ false → self.old.spare ≡ 0) }
        ensures err { OnErr result (self.new ≡ self.old) }
        ensures given { IfOk result (λ v. (v ≡ []) × (self.new.spare + 1 ≡ self.old.spare)
            × (self.new
            ≡ held self.old.bench self.old.all self.old.published self.new.spare
            self.old.closed self.old.owes)) }
    {
        if self.closed {
            return Err(DeskFault::Closed);
        }
        match self.seats.give() {
            Some(viewer) => Ok(viewer),
            None => Err(DeskFault::NoSeat),
        }
    }

    /// From now on each call is refused. What was owed to the readers is tried once more before.
    /// Errors: K1, if it was closed.
    pub fn close<W: Wait>(&mut self, rt: &W) -> Result<(), DeskFault<X::Fault>>
        ensures closed { (result ≡ Err DeskFault.Closed) ↔ (self.old.closed ≡ true) }
        ensures only { OnErr result (self.old.closed ≡ true) }
        ensures err { OnErr result (self.new ≡ self.old) }
        ensures closes { OnOk result (IsClosing X.is_settle self.old self.new) }
        ensures grows { OnOk result (IsPrefix self.old.published self.new.published) }
        ensures whole { OnOk result (ShowsAllOrAsBefore self.old self.new) }
        ensures shown { OnOk result (IsShownOrOwed
            (λ bench ops. ArePosted X.net
            (cells_of X.verdict_of X.outcome_in X.from_scratch X.reaches) bench
            (X.cells (fold X.after X.none ops))) self.new) }
    {
        if self.closed {
            return Err(DeskFault::Closed);
        }
        self.try_again(rt);
        self.closed = true;
        Ok(())
    }

    /// How many changes of the board there were: operations that were appended.
    pub(crate) fn change_count(&self) -> u64
        ensures { result ≡ length self.now.all }
    {
        self.ledger.front().len()
    }

    /// Whether the board is as it was after so many changes, nothing has to be tried again, and the
    /// desk is open.
    pub(crate) fn is_unchanged(&self, changes: u64) -> bool {
        self.change_count() == changes && !self.owes && !self.closed
    }
}

impl<J: Naming + StoreName, X: BoardTexts, R: Wait + Drop> Drop for DeskState<J, X, R> {
    fn drop(self) {
        let DeskState {
            bench: _,
            ledger,
            seats: _,
            closed: _,
            owes: _,
            alloc: _,
            rt,
        } = self;
        ledger.close(&*rt);
    }
}
