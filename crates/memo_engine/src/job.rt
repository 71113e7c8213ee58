//! What is handed out to be computed, and what comes back.

ghost use Rattle.std.specs.Prelude.{◌≡◌, ◌≢◌, ◌≤◌, true, Some, None, IfOk, IfErr, length, vec_len, vec_capacity};
ghost use Rattle.std.specs.List.{AllByRecursion as Each};
ghost use Rattle.memo_core.specs.Graph.{at, named_values};
ghost use Rattle.memo_core.specs.Tests.{values_at};
ghost use Rattle.memo_core.specs.Views.{as_memos, shown_values, shown_outputs, output_tokens, KeepsToken};
ghost use Rattle.memo_engine.specs.Clauses.{IsComputed, IsOfJob, return_from};

use crate::work::{
    copy_keys, copy_outputs, copy_values, earlier_tokens, present_keys, present_values, put_all,
    run_node,
};
use memo_core::keys::{Key, Node, Output};
use memo_core::table::Memos;
use memo_core::texts::Texts;
use std::alloc::{AllocError, Global};
use std::sync::{Arc, Wait};
use value_store::{Store, StoreFault, StoreName, Token};

/// What is to be computed: a node, with its inputs and their values. It can be run by any thread.
pub struct Job<K: StoreName, T: Texts> {
    /// The number of its claim.
    pub claim: u64,
    /// The node.
    pub node: Node,
    /// What its node's texts gave.
    pub given: T::Given,
    /// The inputs of the node.
    pub keys: Vec<Key>,
    /// The values of the outputs among them, in order.
    pub values: Vec<Token<K, T::Value>>,
    /// What the node had, so that an equal value is not stored again.
    pub before: Vec<Output<Token<K, T::Value>>>,
    pub(crate) store: Arc<Store<K, T::Value>, Global>,
}

impl<K: StoreName, T: Texts> Drop for Job<K, T> {
    fn drop(self) {
        let Job {
            claim: _,
            node: _,
            given: _,
            keys: _,
            values: _,
            before: _,
            store: _,
        } = self;
    }
}

/// A return: what was computed, from which inputs with which values.
pub struct Done<K: StoreName, T: Texts> {
    /// The number of its claim.
    pub claim: u64,
    /// The node.
    pub node: Node,
    /// What its node's texts gave.
    pub given: T::Given,
    /// The inputs of the node.
    pub keys: Vec<Key>,
    /// The values of the outputs among them, in order.
    pub values: Vec<Token<K, T::Value>>,
    /// What was computed.
    pub outputs: Vec<Output<Token<K, T::Value>>>,
    /// Empty, with room for the name of each output.
    pub names: Vec<u64>,
}

impl<K: StoreName, T: Texts> Drop for Done<K, T> {
    fn drop(self) {
        let Done {
            claim: _,
            node: _,
            given: _,
            keys: _,
            values: _,
            outputs: _,
            names: _,
        } = self;
    }
}

// A node's inputs, and what shows the values of the outputs among them.
type Held<K, V> = (Vec<Key>, Vec<Token<K, V>>);

/// The inputs of a node with their present values. Errors: want of memory.
fn inputs_of<K: StoreName, T: Texts>(
    alloc: Global,
    texts: &T,
    memos: &Memos<Token<K, T::Value>>,
    node: Node,
) -> Result<Held<K, T::Value>, AllocError>
    requires { values_at (at (as_memos memos.now.entries)) ((T.net texts.now).inputs node) ≢ None }
    ensures keys { IfOk result (λ r. r.0.items ≡ (T.net texts.now).inputs node) }
    ensures values { IfOk result (λ r. Some (shown_values r.1.items)
        ≡ values_at (at (as_memos memos.now.entries)) ((T.net texts.now).inputs node)) }
{
    let keys = present_keys(alloc, texts, node)?;
    let values = present_values(alloc, texts, memos, node)?;
    Ok((keys, values))
}

/// The job of a node under a number, with what it is given now and the present values of its
/// inputs. Errors: want of memory.
pub(crate) fn job_of<K: StoreName, T: Texts>(
    alloc: Global,
    texts: &T,
    memos: &Memos<Token<K, T::Value>>,
    store: &Arc<Store<K, T::Value>, Global>,
    node: Node,
    claim: u64,
) -> Result<Job<K, T>, AllocError>
    requires there { T.is_there texts.now node }
    requires values { values_at (at (as_memos memos.now.entries)) ((T.net texts.now).inputs node)
        ≢ None }
    ensures claim { IfOk result (λ job. (job.claim ≡ claim) × (job.node ≡ node)) }
    ensures given { IfOk result (λ job. (T.net texts.now).gives node job.given ≡ true) }
    ensures keys { IfOk result (λ job. job.keys.items ≡ (T.net texts.now).inputs node) }
    ensures values { IfOk result (λ job. Some (shown_values job.values.items)
        ≡ values_at (at (as_memos memos.now.entries)) ((T.net texts.now).inputs node)) }
    ensures earlier { IfOk result (λ job. job.before.items ≡ output_tokens node memos.now.entries) }
{
    let given = texts.give(alloc, node)?;
    let store = Arc::try_clone(store)?;
    let before = earlier_tokens(alloc, memos, node)?;
    let (keys, values) = inputs_of(alloc, texts, memos, node)?;
    Ok(Job {
        claim,
        node,
        given,
        keys,
        values,
        before,
        store,
    })
}

// Outputs, and an empty list with room for their names.
pub(crate) type Results<K, V> = (Vec<Output<Token<K, V>>>, Vec<u64>);

impl<K: StoreName, T: Texts> Job<K, T> {
    // The node's outputs in the store, with room for their names. Errors: want of memory, a full
    // store.
    fn results<R: Wait>(&self, rt: &R, alloc: Global) -> Result<Results<K, T::Value>, StoreFault>
        ensures computed { IfOk result (λ r. T.makes self.now.node self.now.given
            self.now.keys.items (shown_values self.now.values.items)
            (named_values (shown_outputs r.0.items))) }
        ensures kept { IfOk result (λ r.
            Each (λ o. KeepsToken self.now.before.items o.name o.value) r.0.items) }
        ensures empty { IfOk result (λ r. vec_len r.1 ≡ 0) }
        ensures room { IfOk result (λ r. length r.0.items ≤ vec_capacity r.1) }
    {
        let Ok(made) = run_node::<K, T>(
            alloc,
            &self.store,
            self.node,
            &self.given,
            self.keys.as_slice(),
            self.values.as_slice(),
        ) else {
            return Err(StoreFault::OutOfMemory);
        };
        let outputs = put_all::<R, K, T>(rt, alloc, &self.store, self.before.as_slice(), made)?;
        match Vec::with_capacity(alloc, outputs.len()) {
            Ok(names) => Ok((outputs, names)),
            Err(_) => Err(StoreFault::OutOfMemory),
        }
    }

    /// Computes the node's outputs and puts those that are new or changed into the store, with room
    /// for their names. Where memory is refused or the store is full, the job comes back as it was;
    /// what was already put stays in the store. It may wait while another thread grows the store.
    pub fn run<R: Wait>(self, rt: &R, alloc: Global) -> Result<Done<K, T>, (Job<K, T>, StoreFault)>
        ensures same { IfOk result (IsOfJob self) }
        ensures computed { IfOk result (λ done. IsComputed T.makes done) }
        ensures kept { IfOk result (λ done.
            Each (λ o. KeepsToken self.before.items o.name o.value) done.outputs.items) }
        ensures empty { IfOk result (λ done. vec_len done.names ≡ 0) }
        ensures room { IfOk result (λ done. length done.outputs.items ≤ vec_capacity done.names) }
        ensures err { IfErr result (λ refusal. refusal.0 ≡ self) }
    {
        let (outputs, names) = match self.results(rt, alloc) {
            Ok(results) => results,
            Err(fault) => return Err((self, fault)),
        };
        let Job {
            claim,
            node,
            given,
            keys,
            values,
            before: _,
            store: _,
        } = self;
        Ok(Done {
            claim,
            node,
            given,
            keys,
            values,
            outputs,
            names,
        })
    }
}

impl<K: StoreName, T: Texts> Done<K, T> {
    /// The number of the claim that it answers.
    pub fn claim_number(&self) -> u64
        ensures { result ≡ self.now.claim }
    {
        self.claim
    }

    /// What was computed, and the room for its names.
    pub(crate) fn into_results(self) -> Results<K, T::Value>
        ensures outputs { result.0 ≡ self.outputs }
        ensures names { result.1 ≡ self.names }
    {
        let Done {
            claim: _,
            node: _,
            given: _,
            keys: _,
            values: _,
            outputs,
            names,
        } = self;
        (outputs, names)
    }

    /// The same return once more.
    pub fn copy(&self, alloc: Global) -> Result<Done<K, T>, AllocError>
        ensures same { IfOk result (λ copy. return_from copy ≡ return_from self.now) }
        ensures computed { IfOk result (λ copy. IsComputed T.makes self.now
            → IsComputed T.makes copy) }
        ensures empty { IfOk result (λ copy. vec_len copy.names ≡ 0) }
        ensures room { IfOk result (λ copy. length copy.outputs.items ≤ vec_capacity copy.names) }
    {
        let keys = copy_keys(alloc, self.keys.as_slice())?;
        let given = T::give_again(alloc, &self.given)?;
        let values = copy_values(alloc, self.values.as_slice())?;
        let outputs = copy_outputs(alloc, self.outputs.as_slice())?;
        let names = Vec::with_capacity(alloc, outputs.len())?;
        Ok(Done {
            claim: self.claim,
            node: self.node,
            given,
            keys,
            values,
            outputs,
            names,
        })
    }
}
