//! Which node has work, what its job holds, and how it runs.

ghost use Rattle.std.specs.Prelude.{◌≡◌, ◌≢◌, ◌≤◌, [], true, Some, None, length, IfOk, IfSome, IfNone, option_map};
ghost use Rattle.memo_core.specs.Graph.{at, named_values, memo_of, present_inputs};
ghost use Rattle.memo_core.specs.Views.{as_memos, shown_outputs, shown_values, output_tokens, KeepsToken};
ghost use Rattle.std.specs.List.{AllByRecursion as Each};
ghost use Rattle.memo_core.specs.Tests.{has_node, is_out, values_at, outputs_of};
ghost use Rattle.memo_core.specs.Step.{Has};
ghost use Rattle.memo_core.specs.Marks.{can_work, IsMarkedTo, IsWorkAt, IsIdle};
ghost use Rattle.memo_engine.specs.Waiting.{IsWholeTo};

use crate::marks::{inputs_marked, is_marked};
use crate::waiting::Waiting;
use memo_core::claims::OpenClaims;
use memo_core::keys::{Input, Key, Node, Output, is_same_node};
use memo_core::table::{
    Memos, are_present, matches, output_token, stamp_at, stored_outputs, stored_token,
};
use memo_core::texts::Texts;
use std::alloc::{AllocError, Global};
use std::sync::Wait;
use value_store::{Store, StoreFault, StoreName, Token};

/// Whether a node is out with its present inputs and stamps.
fn is_open<K: StoreName, T: Texts>(
    texts: &T,
    memos: &Memos<Token<K, T::Value>>,
    claims: &OpenClaims,
    node: Node,
) -> bool
    ensures { result
        ≡ is_out node
        (present_inputs (T.net texts.now) (as_memos memos.now.entries)
        ((T.net texts.now).inputs node)) claims.now.entries }
{
    for (_, claim) in claims.iter() {
        if is_same_node(node, claim.node) {
            if are_present(texts, memos, node, claim.inputs.as_slice()) {
                return true;
            }
        }
    }
    false
}

/// Whether there is work at a node. A marked node has none.
fn has_work<K: StoreName, T: Texts>(
    texts: &T,
    memos: &Memos<Token<K, T::Value>>,
    claims: &OpenClaims,
    node: Node,
) -> bool
    requires { IsMarkedTo (T.net texts.now) memos.now.entries [] }
    ensures { result ≡ can_work (T.net texts.now) memos.now.entries claims.now.entries node }
{
    if is_marked(memos, node) {
        return false;
    }
    if matches(texts, memos, node) {
        return false;
    }
    if !inputs_marked(texts, memos, node) {
        return false;
    }
    !is_open(texts, memos, claims, node)
}

/// The index of the first used node that has work, among those from one index up to another.
fn work_between<K: StoreName, T: Texts>(
    texts: &T,
    memos: &Memos<Token<K, T::Value>>,
    claims: &OpenClaims,
    first: usize,
    end: usize,
) -> Option<usize>
    requires marks { IsMarkedTo (T.net texts.now) memos.now.entries [] }
    requires within { end ≤ length (T.net texts.now).used }
    requires order { first ≤ end }
    ensures found { IfSome result (IsWorkAt (T.net texts.now) memos.now.entries
        claims.now.entries) }
    ensures none { IfNone result (IsIdle (T.net texts.now) memos.now.entries claims.now.entries
        first end) }
{
    for i in first..end {
        if has_work(texts, memos, claims, texts.used_at(i)) {
            return Some(i);
        }
    }
    None
}

/// The index of a used node that has work. The search begins at an index and goes round.
fn find_work<K: StoreName, T: Texts>(
    texts: &T,
    memos: &Memos<Token<K, T::Value>>,
    claims: &OpenClaims,
    next: usize,
) -> Option<usize>
    requires marks { IsMarkedTo (T.net texts.now) memos.now.entries [] }
    ensures found { IfSome result (IsWorkAt (T.net texts.now) memos.now.entries
        claims.now.entries) }
    ensures none { IfNone result (IsIdle (T.net texts.now) memos.now.entries claims.now.entries 0
        (length (T.net texts.now).used)) }
{
    let count = texts.used_count();
    let start = next.min(count);
    match work_between(texts, memos, claims, start, count) {
        Some(at) => Some(at),
        None => work_between(texts, memos, claims, 0, start),
    }
}

/// The last of the nodes that may have work which has some, and stays noted. Those behind it are
/// taken away.
fn find_waiting<K: StoreName, T: Texts>(
    texts: &T,
    memos: &Memos<Token<K, T::Value>>,
    claims: &OpenClaims,
    waiting: &mut Waiting,
) -> Option<Node>
    requires { IsMarkedTo (T.net texts.now) memos.now.entries [] }
    ensures used { IfSome result (λ n. has_node n (T.net texts.now).used ≡ true) }
    ensures work { IfSome result (λ n. can_work (T.net texts.now) memos.now.entries
        claims.now.entries n ≡ true) }
    ensures none { IfNone result (waiting.new.nodes.items ≡ []) }
    ensures whole { IsWholeTo (T.net texts.now) memos.now.entries claims.now.entries waiting.old []
        → IsWholeTo (T.net texts.now) memos.now.entries claims.now.entries waiting.new [] }
{
    while let Some(node) = waiting.nodes.pop() {
        if texts.is_used(node) && has_work(texts, memos, claims, node) {
            waiting.note(node);
            return Some(node);
        }
    }
    None
}

/// A node that has work, if any has: the last of those that may have some, else the first of the
/// used ones from an index on, where the next search goes on. Where the waiting nodes are whole,
/// none is searched for. A search that nothing follows finds the same node again.
pub fn find_node<K: StoreName, T: Texts>(
    texts: &T,
    memos: &Memos<Token<K, T::Value>>,
    claims: &OpenClaims,
    waiting: &mut Waiting,
    next: &mut usize,
) -> Option<Node>
    requires marks { IsMarkedTo (T.net texts.now) memos.now.entries [] }
    requires whole { IsWholeTo (T.net texts.now) memos.now.entries claims.now.entries waiting.old
        [] }
    ensures used { IfSome result (λ n. Has (T.net texts.now).used n) }
    ensures work { IfSome result (λ n. can_work (T.net texts.now) memos.now.entries
        claims.now.entries n ≡ true) }
    ensures none { IfNone result (IsIdle (T.net texts.now) memos.now.entries claims.now.entries 0
        (length (T.net texts.now).used)) }
    ensures whole { IsWholeTo (T.net texts.now) memos.now.entries claims.now.entries waiting.new
        [] }
{
    if let Some(node) = find_waiting(texts, memos, claims, waiting) {
        return Some(node);
    }
    if waiting.is_whole {
        return None;
    }
    match find_work(texts, memos, claims, *next) {
        Some(at) => {
            *next = at;
            Some(texts.used_at(at))
        }
        None => {
            waiting.is_whole = true;
            None
        }
    }
}

/// A node's present inputs, without stamps.
pub fn present_keys<T: Texts>(alloc: Global, texts: &T, node: Node) -> Result<Vec<Key>, AllocError>
    ensures { IfOk result (λ keys. keys.items ≡ (T.net texts.now).inputs node) }
{
    let mut keys = Vec::new(alloc);
    let count = texts.input_count(node);
    for i in 0..count {
        keys.push(texts.input_at(node, i))?;
    }
    Ok(keys)
}

/// A node's present inputs.
pub fn current_inputs<K: StoreName, T: Texts>(
    alloc: Global,
    texts: &T,
    memos: &Memos<Token<K, T::Value>>,
    node: Node,
) -> Result<Vec<Input>, AllocError>
    ensures { IfOk result (λ inputs. inputs.items
        ≡ present_inputs (T.net texts.now) (as_memos memos.now.entries)
        ((T.net texts.now).inputs node)) }
{
    let mut inputs = Vec::new(alloc);
    let count = texts.input_count(node);
    for i in 0..count {
        let key = texts.input_at(node, i);
        let stamp = stamp_at(texts, memos, key);
        inputs.push(Input { key, stamp })?;
    }
    Ok(inputs)
}

/// What shows the values of the outputs among a node's inputs, if all have values.
fn hold_all<K: StoreName, T: Texts>(
    alloc: Global,
    texts: &T,
    memos: &Memos<Token<K, T::Value>>,
    node: Node,
) -> Result<Option<Vec<Token<K, T::Value>>>, AllocError>
    ensures { IfOk result (λ r. option_map (λ ts. shown_values ts.items) r
        ≡ values_at (at (as_memos memos.now.entries)) ((T.net texts.now).inputs node)) }
{
    let mut values = Vec::new(alloc);
    let count = texts.input_count(node);
    for i in 0..count {
        match texts.input_at(node, i) {
            Key::Part(_, _) => {}
            Key::Output(from, name) => match stored_token(memos, from, name) {
                None => return Ok(None),
                Some(token) => values.push(token.again())?,
            },
        }
    }
    Ok(Some(values))
}

/// What shows the values of the outputs among a node's inputs, which all have values.
pub fn present_values<K: StoreName, T: Texts>(
    alloc: Global,
    texts: &T,
    memos: &Memos<Token<K, T::Value>>,
    node: Node,
) -> Result<Vec<Token<K, T::Value>>, AllocError>
    requires { values_at (at (as_memos memos.now.entries)) ((T.net texts.now).inputs node) ≢ None }
    ensures { IfOk result (λ values. Some (shown_values values.items)
        ≡ values_at (at (as_memos memos.now.entries)) ((T.net texts.now).inputs node)) }
{
    match hold_all(alloc, texts, memos, node)? {
        Some(values) => Ok(values),
        None => unreachable!(),
    }
}

/// What is kept of a node's outputs.
pub fn outputs_in<K: StoreName, V>(memos: &Memos<Token<K, V>>, node: Node) -> &[Output<Token<K, V>>]
    ensures shown { shown_outputs result.now
        ≡ outputs_of (memo_of node (as_memos memos.now.entries)) }
    ensures tokens { result.now ≡ output_tokens node memos.now.entries }
{
    match stored_outputs(memos, node) {
        Some(outputs) => outputs,
        None => &[],
    }
}

/// The node's outputs as they are kept, so that a value that did not change is not stored again.
pub fn earlier_tokens<K: StoreName, V>(
    alloc: Global,
    memos: &Memos<Token<K, V>>,
    node: Node,
) -> Result<Vec<Output<Token<K, V>>>, AllocError>
    ensures { IfOk result (λ kept. kept.items ≡ output_tokens node memos.now.entries) }
{
    copy_outputs(alloc, outputs_in(memos, node))
}

/// What a node's run makes of what a job was given and holds.
pub fn run_node<K: StoreName, T: Texts>(
    alloc: Global,
    store: &Store<K, T::Value>,
    node: Node,
    given: &T::Given,
    keys: &[Key],
    values: &[Token<K, T::Value>],
) -> Result<Vec<Output<T::Value>>, AllocError>
    ensures { IfOk result (λ outputs. T.makes node given.now keys.now (shown_values values.now)
        (named_values outputs.items)) }
{
    let mut all = Vec::new(alloc);
    for value in values {
        all.push(store.see(value))?;
    }
    T::run(alloc, node, given, keys, all.as_slice())
}

/// Puts a value into the store.
fn put_new<R: Wait, K: StoreName, T: Texts>(
    rt: &R,
    store: &Store<K, T::Value>,
    value: T::Value,
) -> Result<Token<K, T::Value>, StoreFault>
    ensures { IfOk result (λ t. t.value ≡ value) }
{
    match store.put(rt, value) {
        Ok(token) => Ok(token),
        Err((_, fault)) => Err(fault),
    }
}

/// What shows a value: the earlier token of the name where that shows the same, else a new one.
fn token_for<R: Wait, K: StoreName, T: Texts>(
    rt: &R,
    store: &Store<K, T::Value>,
    before: &[Output<Token<K, T::Value>>],
    name: u64,
    value: T::Value,
) -> Result<Token<K, T::Value>, StoreFault>
    ensures value { IfOk result (λ t. t.value ≡ value) }
    ensures kept { IfOk result (KeepsToken before.now name) }
{
    match output_token(before, name) {
        Some(token) => {
            if T::is_same(store.see(token), &value) {
                return Ok(token.again());
            }
            put_new::<R, K, T>(rt, store, value)
        }
        None => put_new::<R, K, T>(rt, store, value),
    }
}

/// Puts an output into the store, where its earlier token does not show it.
fn put_one<R: Wait, K: StoreName, T: Texts>(
    rt: &R,
    store: &Store<K, T::Value>,
    before: &[Output<Token<K, T::Value>>],
    output: Output<T::Value>,
) -> Result<Output<Token<K, T::Value>>, StoreFault>
    ensures name { IfOk result (λ o. o.name ≡ output.name) }
    ensures value { IfOk result (λ o. o.value.value ≡ output.value) }
    ensures kept { IfOk result (λ o. KeepsToken before.now o.name o.value) }
{
    let name = output.name;
    match token_for::<R, K, T>(rt, store, before, name, output.value) {
        Ok(value) => Ok(Output {
            name,
            stamp: 0,
            value,
        }),
        Err(fault) => Err(fault),
    }
}

/// Puts outputs into the store, where their earlier tokens do not show them. Errors: the store is
/// full, want of memory.
pub fn put_all<R: Wait, K: StoreName, T: Texts>(
    rt: &R,
    alloc: Global,
    store: &Store<K, T::Value>,
    before: &[Output<Token<K, T::Value>>],
    outputs: Vec<Output<T::Value>>,
) -> Result<Vec<Output<Token<K, T::Value>>>, StoreFault>
    ensures values { IfOk result (λ all. named_values (shown_outputs all.items)
        ≡ named_values outputs.items) }
    ensures kept { IfOk result (λ all. Each (λ o. KeepsToken before.now o.name o.value) all.items) }
{
    let mut all = match Vec::with_capacity(alloc, outputs.len()) {
        Ok(all) => all,
        Err(_) => return Err(StoreFault::OutOfMemory),
    };
    for output in outputs {
        let kept = match put_one::<R, K, T>(rt, store, before, output) {
            Ok(kept) => kept,
            Err(fault) => return Err(fault),
        };
        match all.push(kept) {
            Ok(()) => {}
            Err(_) => return Err(StoreFault::OutOfMemory),
        }
    }
    Ok(all)
}

/// Copies of keys.
pub fn copy_keys(alloc: Global, keys: &[Key]) -> Result<Vec<Key>, AllocError>
    ensures { IfOk result (λ copy. copy.items ≡ keys.now) }
{
    let mut copy = Vec::new(alloc);
    copy.extend_from_slice(keys)?;
    Ok(copy)
}

/// Tokens once more.
pub fn copy_values<K: StoreName, V>(
    alloc: Global,
    values: &[Token<K, V>],
) -> Result<Vec<Token<K, V>>, AllocError>
    ensures { IfOk result (λ copies. copies.items ≡ values.now) }
{
    let mut copies = Vec::new(alloc);
    for value in values {
        copies.push(value.again())?;
    }
    Ok(copies)
}

/// Outputs once more, by the same tokens.
pub fn copy_outputs<K: StoreName, V>(
    alloc: Global,
    outputs: &[Output<Token<K, V>>],
) -> Result<Vec<Output<Token<K, V>>>, AllocError>
    ensures { IfOk result (λ copies. copies.items ≡ outputs.now) }
{
    let mut copies = Vec::new(alloc);
    for output in outputs {
        copies.push(Output {
            name: output.name,
            stamp: output.stamp,
            value: output.value.again(),
        })?;
    }
    Ok(copies)
}
