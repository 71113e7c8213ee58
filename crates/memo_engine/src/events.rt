//! The calls that change a graph, returns aside, and what it shows.

ghost use Rattle.std.specs.Prelude.{[], List, filter, false, ◌≡◌, ◌+◌, ◌<◌, ◌≤◌, leb, ℕ, IsTrue, IsFalse, IfOk, OnOk, OnErr, IfErr, IfSome, IfNone, Err, Some};
ghost use Rattle.indexmap.specs.IndexMap.{spare};
ghost use Rattle.memo_core.specs.declared.claims.Claim.{Claim as OutClaim};
ghost use Rattle.memo_core.specs.declared.keys.Node.{Node};
ghost use Rattle.memo_core.specs.Laws.{TouchesOnly};
ghost use Rattle.memo_core.specs.Marks.{IsMarkedTo};
ghost use Rattle.memo_core.specs.Views.{as_memos, output_tokens};
ghost use Rattle.memo_core.specs.Step.{Has, Loses, Renews, Edits, IsWork};
ghost use Rattle.memo_engine.specs.Clauses.{state_of, HasRightMemos, HasFreshClaims, IsMarked, GivesJob, IsSettledIn, IsRefused, ShowsStored, ShowsSolved};
ghost use Rattle.memo_engine.specs.Kept.{AreKept};
ghost use Rattle.memo_engine.specs.Matched.{AreMatched};
ghost use Rattle.memo_engine.specs.Told.{IsEditTold, OnNone};
ghost use Rattle.memo_engine.specs.Waiting.{IsWholeTo};

use crate::graph::{Graph, LAST};
use crate::job::{Job, job_of};
use crate::marks::{are_used_marked, is_marked, settle_touched};
use crate::stores::{drop_left, open_claim};
use crate::waiting::Waiting;
use crate::witness::{Nobody, Witness};
use crate::work::{current_inputs, find_node};
use indexmap::IndexMap;
use memo_core::claims::{Claim, ClaimFault};
use memo_core::keys::{Node, Output};
use memo_core::table::{Memos, stored_outputs};
use memo_core::texts::Texts;
use std::alloc::Global;
use std::collections::BTreeMap;
use std::sync::Arc;
use value_store::{Store, StoreName, Token};

/// Puts a prepared edit in place, drops what is kept of nodes that the texts don't keep, and marks
/// what is settled. It takes no memory.
fn put_in_place<K: StoreName, T: Texts>(
    texts: &mut T,
    memos: &mut Memos<Token<K, T::Value>>,
    waiting: &mut Waiting,
    prepared: T::Prepared,
    number: u64,
)
    requires ready { T.is_ready texts.old prepared }
    requires later { T.last texts.old < number }
    requires kept { T.may_drop prepared ≡ false → (t : T) → T.commits texts.old prepared number t
        → AreKept (T.keeps t) memos.old.entries }
    ensures commits { T.commits texts.old prepared number texts.new }
    ensures last { T.last texts.new ≤ number }
    ensures memos { as_memos memos.new.entries
        ≡ filter (λ m. T.keeps texts.new m.node) (as_memos memos.old.entries) }
    ensures matched { T.is_valid texts.old → T.is_valid texts.new
        → TouchesOnly (T.net texts.old) (T.net texts.new) (T.touched texts.new)
        → AreMatched (T.net texts.old) memos.old.entries
        → IsMarkedTo (T.net texts.old) memos.old.entries []
        → AreMatched (T.net texts.new) memos.new.entries }
    ensures marks { T.is_valid texts.old → T.is_valid texts.new
        → TouchesOnly (T.net texts.old) (T.net texts.new) (T.touched texts.new)
        → AreMatched (T.net texts.old) memos.old.entries
        → IsMarkedTo (T.net texts.old) memos.old.entries []
        → IsMarkedTo (T.net texts.new) memos.new.entries [] }
    ensures whole { T.is_valid texts.old → T.is_valid texts.new
        → TouchesOnly (T.net texts.old) (T.net texts.new) (T.touched texts.new)
        → AreMatched (T.net texts.old) memos.old.entries
        → (claims : List (ℕ × OutClaim)) → IsMarkedTo (T.net texts.old) memos.old.entries []
        → IsWholeTo (T.net texts.old) memos.old.entries claims waiting.old []
        → IsWholeTo (T.net texts.new) memos.new.entries claims waiting.new [] }
    ensures room { spare memos.old ≤ spare memos.new }
{
    let drops = T::may_drop(&prepared);
    texts.commit(prepared, number);
    drop_left(texts, memos, drops);
    waiting.shorten(texts.used_count());
    settle_touched(texts, memos, waiting);
}

impl<K: StoreName, T: Texts> Graph<K, T> {
    /// Nothing is kept and nothing is out yet.
    pub fn new(alloc: Global, texts: T, store: Arc<Store<K, T::Value>, Global>) -> Self
        requires new { (p q : ℕ) → (T.net texts).part p q ≡ 0 }
        requires last { T.last texts ≡ 0 }
        requires valid { T.is_valid texts }
        ensures texts { result.texts ≡ texts }
        ensures memos { result.memos.entries ≡ [] }
        ensures claims { result.claims.entries ≡ [] }
        ensures taken { result.taken ≡ 0 }
        ensures right { HasRightMemos result }
        ensures fresh { HasFreshClaims result }
        ensures marks { IsMarked result }
    {
        Graph {
            texts,
            memos: IndexMap::new(alloc),
            claims: BTreeMap::new(alloc),
            taken: 0,
            waiting: Waiting::new(alloc),
            next: 0,
            store,
        }
    }

    /// Makes an edit, which gets the next number. A refusal, by the texts or because the numbers
    /// are spent, leaves what the texts say, their last edit, the memos, the claims and the numbers
    /// as they were.
    pub fn edit(&mut self, alloc: Global, edit: T::Edit) -> Result<u64, T::Fault>
        requires right { HasRightMemos self.old }
        requires fresh { HasFreshClaims self.old }
        requires marks { IsMarked self.old }
        ensures right { HasRightMemos self.new }
        ensures fresh { HasFreshClaims self.new }
        ensures marks { IsMarked self.new }
        ensures number { IfOk result (λ number. number ≡ self.new.taken) }
        ensures edited { IfOk result (λ number.
            T.edited self.old.texts edit number self.new.texts) }
        ensures unspent { OnOk result (self.old.taken < LAST) }
        ensures step { OnOk result (Edits (T.keeps self.new.texts) (state_of self.old)
            (state_of self.new)) }
        ensures fault { IfErr result (λ fault.
            T.refuses self.old.texts edit (leb LAST self.old.taken) fault) }
        ensures err { OnErr result (state_of self.new ≡ state_of self.old) }
        ensures no_edit { OnErr result (T.last self.new.texts ≡ T.last self.old.texts) }
        ensures since { OnErr result (T.since self.old.texts self.new.texts) }
        ensures refused { OnErr result (IsRefused self.old self.new) }
    {
        match self.edit_told(alloc, edit, &mut Nobody) {
            Ok(Some(number)) => Ok(number),
            Ok(None) => unreachable!(),
            Err(fault) => Err(fault),
        }
    }

    /// Makes an edit as `edit` does, where the witness, who is told of it before it is put in
    /// place, does not hold it back. None where the witness does: then all is as after a refusal.
    /// It takes no memory after the witness is told.
    pub fn edit_told<W: Witness<T>>(
        &mut self,
        alloc: Global,
        edit: T::Edit,
        witness: &mut W,
    ) -> Result<Option<u64>, T::Fault>
        requires right { HasRightMemos self.old }
        requires fresh { HasFreshClaims self.old }
        requires marks { IsMarked self.old }
        requires may_tell { (t : T) (p : T.Prepared) → T.prepares self.old.texts edit p t
            → W.may_tell witness.old t p (self.old.taken + 1) }
        ensures right { HasRightMemos self.new }
        ensures fresh { HasFreshClaims self.new }
        ensures marks { IsMarked self.new }
        ensures number { IfOk result (λ r. IfSome r (λ number. number ≡ self.new.taken)) }
        ensures edited { IfOk result (λ r.
            IfSome r (λ number. T.edited self.old.texts edit number self.new.texts)) }
        ensures unspent { OnOk result (self.old.taken < LAST) }
        ensures step { IfOk result (λ r. IfSome r (λ _.
            Edits (T.keeps self.new.texts) (state_of self.old) (state_of self.new))) }
        ensures told { IfOk result (λ r. IfSome r (λ number. IsEditTold T.prepares T.commits W.told
            self.old.texts edit number self.new.texts witness.old witness.new)) }
        ensures held { IfOk result (λ r. IfNone r (W.held witness.old witness.new)) }
        ensures fault { IfErr result (λ fault.
            T.refuses self.old.texts edit (leb LAST self.old.taken) fault) }
        ensures unseen { OnErr result (witness.new ≡ witness.old) }
        ensures err { OnNone result (state_of self.new ≡ state_of self.old) }
        ensures no_edit { OnNone result (T.last self.new.texts ≡ T.last self.old.texts) }
        ensures since { OnNone result (T.since self.old.texts self.new.texts) }
        ensures refused { OnNone result (IsRefused self.old self.new) }
    {
        let spent = self.taken >= LAST;
        let prepared = match self.texts.prepare(alloc, edit, spent) {
            Ok(prepared) => prepared,
            Err(fault) => return Err(fault),
        };
        if let Err(error) = self.waiting.reserve(T::used_after(&prepared)) {
            return Err(T::refused_memory(&prepared, error));
        }
        let number = self.taken + 1;
        if !witness.tell(alloc, &self.texts, &prepared, number) {
            return Ok(None);
        }
        put_in_place::<K, T>(
            &mut self.texts,
            &mut self.memos,
            &mut self.waiting,
            prepared,
            number,
        );
        self.taken = number;
        Ok(Some(number))
    }

    /// Hands out a node that has work, if any has. It makes the room for all that its return keeps.
    /// Errors: B1 where the numbers are spent, want of memory.
    pub fn claim(&mut self, alloc: Global) -> Result<Option<Job<K, T>>, ClaimFault>
        requires right { HasRightMemos self.old }
        requires fresh { HasFreshClaims self.old }
        requires marks { IsMarked self.old }
        ensures texts { self.new.texts ≡ self.old.texts }
        ensures right { HasRightMemos self.new }
        ensures fresh { HasFreshClaims self.new }
        ensures marks { IsMarked self.new }
        ensures given { IfOk result (λ r. IfSome r (λ job. GivesJob self.old job self.new)) }
        ensures earlier { IfOk result (λ r.
            IfSome r (λ job. job.before.items ≡ output_tokens job.node self.old.memos.entries)) }
        ensures none { IfOk result (λ r. IfNone r ((n : Node) → IsWork (state_of self.old) n → ⊥)) }
        ensures none_same { IfOk result (λ r. IfNone r (state_of self.new ≡ state_of self.old)) }
        ensures spent { LAST ≤ self.old.taken → result ≡ Err ClaimFault.Spent }
        ensures spent_only { result ≡ Err ClaimFault.Spent → LAST ≤ self.old.taken }
        ensures err { OnErr result (state_of self.new ≡ state_of self.old) }
        ensures refused { OnErr result (IsRefused self.old self.new) }
    {
        if self.taken >= LAST {
            return Err(ClaimFault::Spent);
        }
        let node = match find_node(
            &self.texts,
            &self.memos,
            &self.claims,
            &mut self.waiting,
            &mut self.next,
        ) {
            None => return Ok(None),
            Some(node) => node,
        };
        let number = self.taken + 1;
        let inputs = current_inputs(alloc, &self.texts, &self.memos, node)?;
        let job = job_of(alloc, &self.texts, &self.memos, &self.store, node, number)?;
        let claim = Claim { node, inputs };
        open_claim(&mut self.memos, &mut self.claims, number, claim)?;
        self.taken = number;
        Ok(Some(job))
    }

    /// Closes a claim.
    pub fn lose(&mut self, claim: u64) -> bool
        requires right { HasRightMemos self.old }
        requires fresh { HasFreshClaims self.old }
        requires marks { IsMarked self.old }
        ensures right { HasRightMemos self.new }
        ensures fresh { HasFreshClaims self.new }
        ensures marks { IsMarked self.new }
        ensures texts { self.new.texts ≡ self.old.texts }
        ensures memos { self.new.memos.entries ≡ self.old.memos.entries }
        ensures taken { self.new.taken ≡ self.old.taken }
        ensures step { Loses (state_of self.old) claim result (state_of self.new) }
    {
        match self.claims.remove(&claim) {
            Some(closed) => {
                self.waiting.note(closed.node);
                true
            }
            None => false,
        }
    }

    /// Empties every memo and closes every claim.
    pub fn renew(&mut self)
        requires right { HasRightMemos self.old }
        requires fresh { HasFreshClaims self.old }
        requires marks { IsMarked self.old }
        ensures right { HasRightMemos self.new }
        ensures fresh { HasFreshClaims self.new }
        ensures marks { IsMarked self.new }
        ensures texts { self.new.texts ≡ self.old.texts }
        ensures step { Renews (state_of self.old) (state_of self.new) }
    {
        self.waiting.forget();
        self.claims.clear();
        self.memos.clear();
    }

    /// What a settled node holds.
    pub fn shown(&self, node: Node) -> Option<&[Output<Token<K, T::Value>>]>
        requires right { HasRightMemos self.now }
        requires marks { IsMarked self.now }
        requires used { Has ((T.net self.now.texts).used) node }
        ensures open { IfNone result (IsSettledIn self.now node → ⊥) }
        ensures settled { IfSome result (λ _. IsSettledIn self.now node) }
        ensures stored { IfSome result (λ outputs. ShowsStored self.now node outputs.now) }
        ensures solved { IfSome result (λ outputs. ShowsSolved self.now node outputs.now) }
    {
        let memos = &self.memos;
        if !is_marked(memos, node) {
            return None;
        }
        match stored_outputs(memos, node) {
            Some(outputs) => Some(outputs),
            None => unreachable!(),
        }
    }

    /// Whether every used node is settled.
    pub fn all_settled(&self) -> bool
        requires right { HasRightMemos self.now }
        requires marks { IsMarked self.now }
        ensures yes { IsTrue result → (n : Node) → Has ((T.net self.now.texts).used) n
            → IsSettledIn self.now n }
        ensures no { IsFalse result
            → (n : Node) × Has ((T.net self.now.texts).used) n × (IsSettledIn self.now n → ⊥) }
    {
        are_used_marked(&self.texts, &self.memos)
    }

    /// The value that an output's token shows.
    pub fn see(&self, token: &Token<K, T::Value>) -> &T::Value
        ensures { result.now ≡ token.now.value }
    {
        self.store.see(token)
    }
}
