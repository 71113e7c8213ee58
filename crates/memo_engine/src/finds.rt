//! A claim's inputs, and a return's values, against the present ones.

ghost use Rattle.std.specs.Prelude.{◌≡◌, map};
ghost use Rattle.memo_core.specs.Graph.{at, present_inputs};
ghost use Rattle.memo_core.specs.Views.{as_memos, shown_values};
ghost use Rattle.memo_core.specs.Tests.{all_hold, same_keys};
ghost use Rattle.memo_core.specs.Step.{stale_stamp};

use memo_core::keys::{Input, Key, Node, is_same_key};
use memo_core::table::{Memos, stamp_at, stored_is};
use memo_core::texts::Texts;
use value_store::{Store, StoreName, Token};

/// Whether these are the keys of some inputs.
pub fn keys_are(inputs: &[Input], keys: &[Key]) -> bool
    ensures { result ≡ same_keys keys.now (map (λ i. i.key) inputs.now) }
{
    let count = inputs.len();
    if keys.len() != count {
        return false;
    }
    for i in 0..count {
        if !is_same_key(keys[i], inputs[i].key) {
            return false;
        }
    }
    true
}

/// The present stamp at the first index where the present inputs and these are unlike.
pub fn first_stale<K: StoreName, T: Texts>(
    texts: &T,
    memos: &Memos<Token<K, T::Value>>,
    node: Node,
    inputs: &[Input],
) -> u64
    ensures { result
        ≡ stale_stamp 0
        (present_inputs (T.net texts.now) (as_memos memos.now.entries)
        ((T.net texts.now).inputs node)) inputs.now }
{
    let mut last = 0;
    let count = texts.input_count(node);
    for i in 0..count {
        let key = texts.input_at(node, i);
        let stamp = stamp_at(texts, memos, key);
        if i >= inputs.len() {
            return stamp;
        }
        let input = inputs[i];
        let same = is_same_key(key, input.key);
        if !same || stamp != input.stamp {
            return stamp;
        }
        last = stamp;
    }
    last
}

/// Whether these are the present values of the outputs among these keys.
pub fn values_are<K: StoreName, T: Texts>(
    store: &Store<K, T::Value>,
    memos: &Memos<Token<K, T::Value>>,
    keys: &[Key],
    values: &[Token<K, T::Value>],
) -> bool
    ensures { result
        ≡ all_hold T.same (at (as_memos memos.now.entries)) keys.now (shown_values values.now) }
{
    let mut j = 0;
    for key in keys {
        if let Key::Output(node, name) = *key {
            if j >= values.len() {
                return false;
            }
            if !stored_is::<K, T>(store, memos, node, name, &values[j]) {
                return false;
            }
            j += 1;
        }
    }
    j == values.len()
}
