//! What becomes of a return.

ghost use Rattle.std.specs.Prelude.{◌≡◌, ◌≤◌, length, vec_len, vec_capacity};
ghost use Rattle.memo_core.specs.Step.{IsJudgementOf, FinishesReturn};
ghost use Rattle.memo_engine.specs.Clauses.{state_of, return_from, IsComputed, HasRightMemos, HasFreshClaims, IsMarked, IsReturnTaken, TellsChangedNames};

use crate::finds::{first_stale, keys_are, values_are};
use crate::graph::Graph;
use crate::job::Done;
use crate::marks::settle;
use crate::matched::doubt_users;
use crate::stores::{restamp_all, store_memo};
use memo_core::claims::{Claim, Finish, Judgement, StoredOutputs};
use memo_core::keys::{Node, is_same_node};
use memo_core::table::{Kept, are_present};
use memo_core::texts::Texts;
use value_store::StoreName;

/// What an accepted return of a node comes to, by the names of its outputs that are new or changed.
fn finish_of(node: Node, names: Vec<u64>) -> Finish
    ensures { TellsChangedNames node names.items result }
{
    if names.is_empty() {
        Finish::Same
    } else {
        Finish::Stored(StoredOutputs { node, names })
    }
}

impl<K: StoreName, T: Texts> Graph<K, T> {
    /// What a return is, before anything is done.
    fn judge(&self, done: &Done<K, T>) -> Judgement
        requires { HasRightMemos self.now }
        ensures { IsJudgementOf (state_of self.now) (return_from done.now) result }
    {
        let claim = match self.claims.get(&done.claim) {
            Some(claim) => claim,
            None => return Judgement::Undue,
        };
        if !is_same_node(claim.node, done.node) {
            return Judgement::Undue;
        }
        if !self.texts.is_used(done.node) {
            return Judgement::Late(None);
        }
        let memos = &self.memos;
        if !are_present(&self.texts, memos, done.node, claim.inputs.as_slice()) {
            let stamp = first_stale(&self.texts, memos, done.node, claim.inputs.as_slice());
            return Judgement::Late(Some(stamp));
        }
        if !keys_are(claim.inputs.as_slice(), done.keys.as_slice()) {
            return Judgement::Undue;
        }
        if !self.texts.is_given(done.node, &done.given) {
            return Judgement::Undue;
        }
        let values = done.values.as_slice();
        if !values_are::<K, T>(&self.store, memos, done.keys.as_slice(), values) {
            return Judgement::Undue;
        }
        Judgement::Due
    }

    /// Takes a return that is due.
    fn accept(&mut self, done: Done<K, T>) -> Finish
        requires right { HasRightMemos self.old }
        requires fresh { HasFreshClaims self.old }
        requires marks { IsMarked self.old }
        requires computed { IsComputed T.makes done }
        requires empty { vec_len done.names ≡ 0 }
        requires room { length done.outputs.items ≤ vec_capacity done.names }
        requires due { IsJudgementOf (state_of self.old) (return_from done) Judgement.Due }
        ensures texts { self.new.texts ≡ self.old.texts }
        ensures taken { IsReturnTaken self.old done result self.new }
    {
        let claim = match self.claims.remove(&done.claim) {
            Some(claim) => claim,
            None => unreachable!(),
        };
        self.taken += 1;
        let node = done.node;
        let (mut outputs, mut names) = done.into_results();
        let Claim { node: _, inputs } = claim;
        let memos = &self.memos;
        restamp_all::<K, T>(
            &self.store,
            memos,
            node,
            self.taken,
            &mut outputs,
            &mut names,
        );
        let kept = Kept {
            inputs,
            outputs,
            settled: false,
            matched: true,
        };
        store_memo(&mut self.memos, node, kept);
        doubt_users(&self.texts, &mut self.memos, node, names.as_slice());
        settle(&self.texts, &mut self.memos, &mut self.waiting, node);
        finish_of(node, names)
    }

    /// Takes a return, by the first case that holds. It takes no memory.
    pub fn finish(&mut self, done: Done<K, T>) -> Finish
        requires right { HasRightMemos self.old }
        requires fresh { HasFreshClaims self.old }
        requires marks { IsMarked self.old }
        requires computed { IsComputed T.makes done }
        requires empty { vec_len done.names ≡ 0 }
        requires room { length done.outputs.items ≤ vec_capacity done.names }
        ensures texts { self.new.texts ≡ self.old.texts }
        ensures right { HasRightMemos self.new }
        ensures fresh { HasFreshClaims self.new }
        ensures marks { IsMarked self.new }
        ensures step { FinishesReturn (state_of self.old) (return_from done) result
            (state_of self.new) }
    {
        match self.judge(&done) {
            Judgement::Undue => Finish::Unknown,
            Judgement::Late(stamp) => {
                let _ = self.claims.remove(&done.claim);
                Finish::Stale(stamp)
            }
            Judgement::Due => self.accept(done),
        }
    }
}
