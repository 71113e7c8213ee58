//! The calls of a bench of cells.

ghost use Rattle.std.specs.Prelude.{◌≡◌, ◌<◌, ◌≤◌, ◌+◌, leb, [], ℕ, List, IsTrue, IsFalse, IfOk, OnOk, OnErr, IfErr, IfSome, IfNone, Some, Err};
ghost use Rattle.memo_core.specs.Laws.{meaning};
ghost use Rattle.memo_core.specs.Run.{Edit as Edited, Claim as Claimed, NoClaim, Returned, Lose as Lost, Renew as Renewed, Refused, Step};
ghost use Rattle.memo_engine.specs.Told.{IsEditTold, OnNone};
ghost use Rattle.cells.specs.Cells.{cells, IsVerdict, IsCellShown, ShowsFromScratch, AllAreSettled};
ghost use Rattle.cells.specs.Views.{IsRightBench};

use crate::job::{Done, Job};
use crate::shown::Shown;
use crate::texts::CellTexts;
use memo_core::claims::{ClaimFault, Finish};
use memo_core::keys::Node;
use memo_core::table::output_token;
use memo_engine::graph::{Graph, LAST};
use memo_engine::witness::Witness;
use memo_marks::Marks;
use std::alloc::{AllocError, Global};
use std::marker::Model;
use std::sync::Arc;
use value_store::{Store, StoreName};

/// Tests and models, with the outcome of each test under each model as far as it is known.
pub struct Bench<K: StoreName, T: CellTexts> {
    graph: Graph<K, T>,
}

impl<K: StoreName, T: CellTexts> Drop for Bench<K, T> {
    fn drop(self) {
        let Bench { graph: _ } = self;
    }
}

impl<K: StoreName, T: CellTexts> Model for Bench<K, T> {
    ghost use Rattle.memo_core.specs.Laws.{meaning};
    ghost use Rattle.memo_core.specs.Run.{Bench as Plain};
    ghost use Rattle.cells.specs.Views.{plain_bench, IsSoundBench};

    ghost Value = { Plain T T.Value };

    ghost view = { λ b.
        plain_bench b.graph.texts b.graph.memos.entries b.graph.claims.entries b.graph.taken };

    ghost invariant = { λ b. IsSoundBench
        (meaning T.net T.is_valid T.since T.makes T.keeps T.edited T.last) b.graph.texts
        b.graph.memos.entries b.graph.claims.entries b.graph.taken };
}

impl<K: StoreName, T: CellTexts> Bench<K, T> {
    /// A bench without tests and models. It takes its store, so that no other bench has one of that
    /// name. Errors: want of memory.
    pub fn new(alloc: Global, store: Store<K, T::Value>) -> Result<Self, AllocError>
        ensures memos { IfOk result (λ bench. bench.memos ≡ []) }
        ensures claims { IfOk result (λ bench. bench.claims ≡ []) }
        ensures taken { IfOk result (λ bench. bench.taken ≡ 0) }
        ensures none { IfOk result (λ bench. T.is_empty bench.texts) }
        ensures valid { IfOk result (λ bench. T.is_valid bench.texts) }
        ensures parts { IfOk result (λ bench. (p q : ℕ) → (T.net bench.texts).part p q ≡ 0) }
    {
        Bench::over(alloc, T::empty(alloc), store)
    }

    /// A bench over texts without parts. Errors: want of memory.
    pub fn over(alloc: Global, texts: T, store: Store<K, T::Value>) -> Result<Self, AllocError>
        requires new { (p q : ℕ) → (T.net texts).part p q ≡ 0 }
        requires last { T.last texts ≡ 0 }
        requires valid { T.is_valid texts }
        ensures texts { IfOk result (λ bench. bench.texts ≡ texts) }
        ensures memos { IfOk result (λ bench. bench.memos ≡ []) }
        ensures claims { IfOk result (λ bench. bench.claims ≡ []) }
        ensures taken { IfOk result (λ bench. bench.taken ≡ 0) }
    {
        let store = Arc::new(alloc, store)?;
        Ok(Bench {
            graph: Graph::new(alloc, texts, store),
        })
    }

    /// The tests and models.
    pub fn texts(&self) -> &T
        ensures { result.now ≡ self.now.texts }
    {
        &self.graph.texts
    }

    /// The marks of its nodes, by which `memo_marks` says which are settled and which stand on
    /// another. The users of each node are listed for it. Errors: want of memory.
    pub fn marks(&self, alloc: Global) -> Result<Marks<'_, K, T>, AllocError>
        ensures texts { IfOk result (λ marks. marks.texts ≡ self.now.texts) }
        ensures memos { IfOk result (λ marks. marks.memos ≡ self.now.memos) }
    {
        Marks::of(alloc, &self.graph.texts, &self.graph.memos)
    }

    /// How many numbers are taken, by edits, claims and accepted returns. What holds of a bench at
    /// all times is said here.
    pub fn taken(&self) -> u64
        ensures count { result ≡ self.now.taken }
        ensures right { IsRightBench
            (meaning T.net T.is_valid T.since T.makes T.keeps T.edited T.last) self.now }
    {
        self.graph.taken
    }

    /// Makes an edit, and gives its number. A refusal, by a rule or for want of memory, leaves all
    /// as it was.
    pub fn edit(&mut self, alloc: Global, edit: T::Edit) -> Result<u64, T::Fault>
        ensures number { IfOk result (λ number. number ≡ self.old.taken + 1) }
        ensures edited { OnOk result (Step
            (meaning T.net T.is_valid T.since T.makes T.keeps T.edited T.last) self.old
            (Edited edit) self.new) }
        ensures unspent { OnOk result (self.old.taken < LAST) }
        ensures fault { IfErr result (λ fault.
            T.refuses self.old.texts edit (leb LAST self.old.taken) fault) }
        ensures last { OnErr result (T.last self.new.texts ≡ T.last self.old.texts) }
        ensures refused { OnErr result (Step
            (meaning T.net T.is_valid T.since T.makes T.keeps T.edited T.last) self.old Refused
            self.new) }
    {
        self.graph.edit(alloc, edit)
    }

    /// Makes an edit as `edit` does, where the witness, who is told of it before it is put in
    /// place, does not hold it back. None where the witness does: then all is as after a refusal.
    pub fn edit_told<W: Witness<T>>(
        &mut self,
        alloc: Global,
        edit: T::Edit,
        witness: &mut W,
    ) -> Result<Option<u64>, T::Fault>
        requires may_tell { (t : T) (p : T.Prepared) → T.prepares self.old.texts edit p t
            → W.may_tell witness.old t p (self.old.taken + 1) }
        ensures number { IfOk result (λ r. IfSome r (λ number. number ≡ self.old.taken + 1)) }
        ensures edited { IfOk result (λ r. IfSome r (λ _. Step
            (meaning T.net T.is_valid T.since T.makes T.keeps T.edited T.last) self.old
            (Edited edit) self.new)) }
        ensures told { IfOk result (λ r. IfSome r (λ number. IsEditTold T.prepares T.commits W.told
            self.old.texts edit number self.new.texts witness.old witness.new)) }
        ensures unspent { OnOk result (self.old.taken < LAST) }
        ensures held { IfOk result (λ r. IfNone r (W.held witness.old witness.new)) }
        ensures fault { IfErr result (λ fault.
            T.refuses self.old.texts edit (leb LAST self.old.taken) fault) }
        ensures unseen { OnErr result (witness.new ≡ witness.old) }
        ensures last { OnNone result (T.last self.new.texts ≡ T.last self.old.texts) }
        ensures refused { OnNone result (Step
            (meaning T.net T.is_valid T.since T.makes T.keeps T.edited T.last) self.old Refused
            self.new) }
    {
        self.graph.edit_told(alloc, edit, witness)
    }

    /// Gives out a job, if there is any work: a node that some cell needs, whose inputs are
    /// settled, which is not up to date and not out with the present inputs. It makes the room for
    /// all that its return keeps. Errors: B1 where the numbers are spent, want of memory.
    pub fn claim(&mut self, alloc: Global) -> Result<Option<Job<K, T>>, ClaimFault>
        ensures texts { self.new.texts ≡ self.old.texts }
        ensures given { IfOk result (λ r. IfSome r (λ j. Step
            (meaning T.net T.is_valid T.since T.makes T.keeps T.edited T.last) self.old
            (Claimed j.claim j.node j.given j.keys j.values) self.new)) }
        ensures none { IfOk result (λ r. IfNone r (Step
            (meaning T.net T.is_valid T.since T.makes T.keeps T.edited T.last) self.old
            NoClaim self.new)) }
        ensures spent { LAST ≤ self.old.taken → result ≡ Err ClaimFault.Spent }
        ensures spent_only { result ≡ Err ClaimFault.Spent → LAST ≤ self.old.taken }
        ensures unspent { OnOk result (self.old.taken < LAST) }
        ensures refused { OnErr result (Step
            (meaning T.net T.is_valid T.since T.makes T.keeps T.edited T.last) self.old Refused
            self.new) }
    {
        match self.graph.claim(alloc) {
            Ok(Some(job)) => Ok(Some(Job { job })),
            Ok(None) => Ok(None),
            Err(fault) => Err(fault),
        }
    }

    /// Takes a return, by the first case that holds. It takes no memory.
    pub fn finish(&mut self, done: Done<K, T>) -> Finish
        ensures { Step (meaning T.net T.is_valid T.since T.makes T.keeps T.edited T.last) self.old
            (Returned done result) self.new }
    {
        self.graph.finish(done.into_done())
    }

    /// Closes a claim, and says whether it was out. It takes no memory.
    pub fn lose(&mut self, claim: u64) -> bool
        ensures { Step (meaning T.net T.is_valid T.since T.makes T.keeps T.edited T.last) self.old
            (Lost claim result) self.new }
    {
        self.graph.lose(claim)
    }

    /// Forgets all that was computed, and closes every claim. It takes no memory.
    pub fn renew(&mut self)
        ensures { Step (meaning T.net T.is_valid T.since T.makes T.keeps T.edited T.last) self.old
            Renewed self.new }
    {
        self.graph.renew();
    }

    /// What is shown of a test under a model. It takes no memory.
    pub fn shown(&self, test: &[u8], model: &[u8]) -> Shown<'_, T::Outcome>
        ensures shown { IsCellShown T.net (cells T.verdict_of T.outcome_in T.from_scratch T.reaches)
            self.now test.now model.now result }
        ensures from_scratch { ShowsFromScratch
            (cells T.verdict_of T.outcome_in T.from_scratch T.reaches) self.now.texts test.now
            model.now result }
    {
        match self.graph.texts.verdict_of(test, model) {
            Some(verdict) => self.shown_at(verdict),
            None => Shown::NoCell,
        }
    }

    /// What is shown of the cell of a verdict. It takes no memory.
    pub fn shown_at(&self, verdict: Node) -> Shown<'_, T::Outcome>
        requires { IsVerdict (T.verdict_of self.now.texts) verdict }
        ensures shown { (test model : List ℕ)
            → T.verdict_of self.now.texts test model ≡ Some verdict
            → IsCellShown T.net (cells T.verdict_of T.outcome_in T.from_scratch T.reaches)
            self.now test model result }
        ensures from_scratch { (test model : List ℕ)
            → T.verdict_of self.now.texts test model ≡ Some verdict
            → ShowsFromScratch (cells T.verdict_of T.outcome_in T.from_scratch T.reaches)
            self.now.texts test model result }
    {
        let outputs = match self.graph.shown(verdict) {
            Some(outputs) => outputs,
            None => return Shown::Open,
        };
        let token = match output_token(outputs, 0) {
            Some(token) => token,
            None => unreachable!(),
        };
        match T::outcome_in(self.graph.see(token)) {
            Some(outcome) => Shown::Settled(outcome),
            None => unreachable!(),
        }
    }

    /// Whether every used node is settled, and so every cell. It takes no memory.
    pub fn all_settled(&self) -> bool
        ensures yes { IsTrue result → AllAreSettled T.net self.now }
        ensures no { IsFalse result → AllAreSettled T.net self.now → ⊥ }
    {
        self.graph.all_settled()
    }
}
