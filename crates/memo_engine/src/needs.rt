//! What a node needs now, by one look at its memo and one at each of its inputs.

ghost use Rattle.std.specs.Prelude.{◌≡◌, ◌+◌, ◌∷◌, ◌&&◌, List, drop, map, option_map, true};
ghost use Rattle.std.specs.Map.{lookup};
ghost use Rattle.memo_core.specs.declared.keys.Input.{Input as InputRecord};
ghost use Rattle.memo_core.specs.Names.{same_node};
ghost use Rattle.memo_core.specs.Graph.{present_inputs};
ghost use Rattle.memo_core.specs.Views.{as_memos};
ghost use Rattle.memo_core.specs.Tests.{all_nodes, same_inputs};
ghost use Rattle.memo_core.specs.Marks.{mark_of};
ghost use Rattle.memo_engine.specs.Matched.{AreMatched};
ghost use Rattle.memo_engine.specs.Needs.{IsMemoIndex, IsNodeNeed, IsMarkPlace, marked_stamp, need_by};

use crate::marks::{inputs_marked, is_marked};
use memo_core::keys::{Input, Key, Node, is_same_key};
use memo_core::table::{Kept, Memos, find, output_stamp};
use memo_core::texts::Texts;
use value_store::{StoreName, Token};

/// What a node needs now.
pub(crate) enum Need {
    /// Nothing: it is marked, or something that it stands on is not.
    Nothing,
    /// To be computed.
    Work,
    /// To be marked. The index of its memo.
    Mark(usize),
}

/// What is kept of a node, with its index.
fn find_at<K: StoreName, V>(
    memos: &Memos<Token<K, V>>,
    node: Node,
) -> Option<(usize, &Kept<Token<K, V>>)>
    ensures found { option_map (λ p. p.1.now) result ≡ lookup (same_node node) memos.now.entries }
    ensures at { IsMemoIndex node (option_map (λ p. p.0) result) memos.now.entries }
{
    match memos.get_full(&node) {
        Some((index, _, kept)) => Some((index, kept)),
        None => None,
    }
}

/// The present stamp of a key, where it is a part or of a marked node.
fn marked_stamp<K: StoreName, T: Texts>(
    texts: &T,
    memos: &Memos<Token<K, T::Value>>,
    key: Key,
) -> Option<u64>
    ensures { result ≡ marked_stamp (T.net texts.now) memos.now.entries key }
{
    match key {
        Key::Part(part, of) => Some(texts.part_stamp(part, of)),
        Key::Output(from, name) => match find(memos, from) {
            Some(kept) if kept.settled => Some(output_stamp(kept.outputs.as_slice(), name)),
            _ => None,
        },
    }
}

/// Whether the input at an index has this key and this stamp.
fn is_input(inputs: &[Input], i: usize, key: Key, stamp: u64) -> bool
    ensures { (rest : List InputRecord)
        → same_inputs (drop i inputs.now) (record { key = key; stamp = stamp } ∷ rest)
        ≡ (result && same_inputs (drop (i + 1) inputs.now) rest) }
{
    match inputs.get(i) {
        Some(input) => is_same_key(input.key, key) && input.stamp == stamp,
        None => false,
    }
}

/// Whether the nodes among the keys of some inputs are all marked.
fn are_marked<K: StoreName, V>(memos: &Memos<Token<K, V>>, inputs: &[Input]) -> bool
    ensures { result ≡ all_nodes (mark_of memos.now.entries) (map (λ i. i.key) inputs.now) }
{
    for input in inputs {
        if let Key::Output(from, _) = input.key {
            if !is_marked(memos, from) {
                return false;
            }
        }
    }
    true
}

/// What a node without a mark needs, whose memo has this index, is known to match, and has these
/// inputs.
fn matched_need<K: StoreName, V>(memos: &Memos<Token<K, V>>, index: usize, inputs: &[Input]) -> Need
    ensures { result
        ≡ need_by index (all_nodes (mark_of memos.now.entries) (map (λ i. i.key) inputs.now))
        true }
{
    if are_marked(memos, inputs) {
        Need::Mark(index)
    } else {
        Need::Nothing
    }
}

/// What a node without a mark needs, whose memo has this index and these inputs. It looks no
/// further than the first input without a mark.
fn found_need<K: StoreName, T: Texts>(
    texts: &T,
    memos: &Memos<Token<K, T::Value>>,
    node: Node,
    index: usize,
    inputs: &[Input],
) -> Need
    ensures { result
        ≡ need_by index (all_nodes (mark_of memos.now.entries) ((T.net texts.now).inputs node))
        (same_inputs inputs.now (present_inputs (T.net texts.now) (as_memos memos.now.entries)
        ((T.net texts.now).inputs node))) }
{
    let mut same = true;
    let count = texts.input_count(node);
    for i in 0..count {
        let key = texts.input_at(node, i);
        match marked_stamp(texts, memos, key) {
            None => return Need::Nothing,
            Some(stamp) => {
                if !is_input(inputs, i, key, stamp) {
                    same = false;
                }
            }
        }
    }
    if same && inputs.len() <= count {
        Need::Mark(index)
    } else {
        Need::Work
    }
}

/// What a node needs. Where its memo is known to match, only marks are asked for.
pub(crate) fn node_need<K: StoreName, T: Texts>(
    texts: &T,
    memos: &Memos<Token<K, T::Value>>,
    node: Node,
) -> Need
    ensures need { AreMatched (T.net texts.now) memos.now.entries
        → IsNodeNeed (T.net texts.now) memos.now.entries node result }
    ensures place { IsMarkPlace memos.now.entries node result }
{
    match find_at(memos, node) {
        Some((index, kept)) => {
            if kept.settled {
                return Need::Nothing;
            }
            let inputs = kept.inputs.as_slice();
            if kept.matched {
                return matched_need(memos, index, inputs);
            }
            found_need(texts, memos, node, index, inputs)
        }
        None => {
            if inputs_marked(texts, memos, node) {
                Need::Work
            } else {
                Need::Nothing
            }
        }
    }
}
