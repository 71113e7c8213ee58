//! Marks: which nodes are settled, kept up by following users. It takes no memory.

ghost use Rattle.std.specs.Prelude.{◌≡◌, IsTrue, IsFalse, IsSome, IsNone, IfSome, is_some, length, ◌≤◌, ◌∷◌, [], List, true, false, ℕ};
ghost use Rattle.indexmap.specs.IndexMap.{spare};
ghost use Rattle.memo_core.specs.declared.claims.Claim.{Claim};
ghost use Rattle.memo_core.specs.declared.keys.Node.{Node as NodeRecord};
ghost use Rattle.memo_core.specs.Views.{as_memos};
ghost use Rattle.memo_core.specs.Tests.{all_nodes};
ghost use Rattle.memo_core.specs.Marks.{mark_of, with_mark_at, unmarked_count, is_ready, IsMarkedTo, AreMarked, HasUnmarked};
ghost use Rattle.memo_core.specs.Step.{Has};
ghost use Rattle.memo_engine.specs.Matched.{AreMatched, AreMatchedTo, HasNoNewMatch};
ghost use Rattle.memo_engine.specs.Needs.{IsMemoAt};
ghost use Rattle.memo_engine.specs.Unmarked.{without_mark_at, marked_count, IsClosedTo, IsMarkedBut, HasNoNewMark, LosesMarks};
ghost use Rattle.memo_engine.specs.Waiting.{IsWholeTo};

use crate::matched::doubt;
use crate::needs::{Need, node_need};
use crate::waiting::Waiting;
use memo_core::keys::{Key, Node};
use memo_core::table::{Memos, find};
use memo_core::texts::Texts;
use value_store::{StoreName, Token};

/// Whether a node is marked.
pub fn is_marked<K: StoreName, V>(memos: &Memos<Token<K, V>>, node: Node) -> bool
    ensures { result ≡ mark_of memos.now.entries node }
{
    match find(memos, node) {
        Some(kept) => kept.settled,
        None => false,
    }
}

/// Whether all that a node stands on is marked.
pub fn inputs_marked<K: StoreName, T: Texts>(
    texts: &T,
    memos: &Memos<Token<K, T::Value>>,
    node: Node,
) -> bool
    ensures { result ≡ all_nodes (mark_of memos.now.entries) ((T.net texts.now).inputs node) }
{
    let count = texts.input_count(node);
    for i in 0..count {
        match texts.input_at(node, i) {
            Key::Part(_, _) => {}
            Key::Output(from, _) => {
                if !is_marked(memos, from) {
                    return false;
                }
            }
        }
    }
    true
}

/// The index of the memo of a node that is to be marked now. A node that has to be computed first,
/// and can be, is noted.
fn can_mark<K: StoreName, T: Texts>(
    texts: &T,
    memos: &Memos<Token<K, T::Value>>,
    waiting: &mut Waiting,
    node: Node,
) -> Option<usize>
    ensures ready { AreMatched (T.net texts.now) memos.now.entries
        → is_some result ≡ is_ready (T.net texts.now) memos.now.entries node }
    ensures index { IfSome result (λ index. IsMemoAt node index memos.now.entries
        × (mark_of memos.now.entries node ≡ false)) }
    ensures whole { (claims : List (ℕ × Claim)) (rest : List NodeRecord) → IsNone result
        → AreMatched (T.net texts.now) memos.now.entries
        → IsMarkedTo (T.net texts.now) memos.now.entries (node ∷ rest)
        → IsWholeTo (T.net texts.now) memos.now.entries claims waiting.old (node ∷ rest)
        → IsWholeTo (T.net texts.now) memos.now.entries claims waiting.new rest }
    ensures same { IsSome result → waiting.new ≡ waiting.old }
{
    match node_need(texts, memos, node) {
        Need::Nothing => None,
        Need::Work => {
            waiting.note(node);
            None
        }
        Need::Mark(index) => Some(index),
    }
}

/// Marks the memo of an index, which is known to match from now on.
fn mark<K: StoreName, V: Drop>(memos: &mut Memos<Token<K, V>>, index: usize)
    ensures marks { (n : NodeRecord) → IsMemoAt n index memos.old.entries
        → memos.new.entries ≡ with_mark_at n memos.old.entries }
    ensures room { spare memos.new ≡ spare memos.old }
{
    if let Some(kept) = memos.get_index_mut(index) {
        kept.settled = true;
        kept.matched = true;
    }
}

/// Marks a node where it is to be marked, and then what stands on it; notes what has to be computed
/// next. It takes no memory.
pub(crate) fn settle<K: StoreName, T: Texts>(
    texts: &T,
    memos: &mut Memos<Token<K, T::Value>>,
    waiting: &mut Waiting,
    node: Node,
)
    ensures memos { as_memos memos.new.entries ≡ as_memos memos.old.entries }
    ensures fewer { unmarked_count memos.new.entries ≤ unmarked_count memos.old.entries }
    ensures matched { T.is_valid texts.now → Has (T.net texts.now).used node
        → AreMatched (T.net texts.now) memos.old.entries
        → AreMatched (T.net texts.now) memos.new.entries }
    ensures marks { T.is_valid texts.now → Has (T.net texts.now).used node
        → AreMatched (T.net texts.now) memos.old.entries → (rest : List NodeRecord)
        → IsMarkedTo (T.net texts.now) memos.old.entries (node ∷ rest)
        → IsMarkedTo (T.net texts.now) memos.new.entries rest }
    ensures whole { T.is_valid texts.now → Has (T.net texts.now).used node
        → AreMatched (T.net texts.now) memos.old.entries
        → (claims : List (ℕ × Claim)) (rest : List NodeRecord)
        → IsMarkedTo (T.net texts.now) memos.old.entries (node ∷ rest)
        → IsWholeTo (T.net texts.now) memos.old.entries claims waiting.old (node ∷ rest)
        → IsWholeTo (T.net texts.now) memos.new.entries claims waiting.new rest }
    ensures room { spare memos.new ≡ spare memos.old }
{
    let index = match can_mark(texts, memos, waiting, node) {
        Some(index) => index,
        None => return,
    };
    mark(memos, index);
    let count = texts.user_count(node);
    for i in 0..count {
        settle(texts, memos, waiting, texts.user_at(node, i));
    }
}

/// Takes the mark of a node's memo away. Answers whether it had one.
fn unmark<K: StoreName, V: Drop>(memos: &mut Memos<Token<K, V>>, node: Node) -> bool
    ensures had { result ≡ mark_of memos.old.entries node }
    ensures marks { memos.new.entries ≡ without_mark_at node memos.old.entries }
    ensures room { spare memos.new ≡ spare memos.old }
{
    match memos.get_mut(&node) {
        Some(kept) => {
            let had = kept.settled;
            kept.settled = false;
            had
        }
        None => false,
    }
}

/// Takes the mark of a node away, and of all that stands on it. It ends where there is no mark, and
/// takes no memory.
pub fn unsettle<K: StoreName, T: Texts>(
    texts: &T,
    memos: &mut Memos<Token<K, T::Value>>,
    node: Node,
)
    ensures memos { as_memos memos.new.entries ≡ as_memos memos.old.entries }
    ensures fewer { marked_count memos.new.entries ≤ marked_count memos.old.entries }
    ensures unmarked { mark_of memos.new.entries node ≡ false }
    ensures matched { HasNoNewMatch memos.old.entries memos.new.entries }
    ensures old { HasNoNewMark memos.old.entries memos.new.entries }
    ensures closed { T.is_valid texts.now → (rest : List NodeRecord)
        → IsClosedTo (T.net texts.now) memos.old.entries (node ∷ rest)
        → IsClosedTo (T.net texts.now) memos.new.entries rest }
    ensures lost { T.is_valid texts.now
        → LosesMarks (T.net texts.now) memos.old.entries memos.new.entries (node ∷ []) }
    ensures room { spare memos.new ≡ spare memos.old }
{
    if !unmark(memos, node) {
        return;
    }
    let count = texts.user_count(node);
    for i in 0..count {
        unsettle(texts, memos, texts.user_at(node, i));
    }
}

/// Takes the marks of what the last edit touched away, and of all that stands on it. The touched
/// memos are no longer known to match. It takes no memory.
fn unsettle_touched<K: StoreName, T: Texts>(texts: &T, memos: &mut Memos<Token<K, T::Value>>)
    ensures memos { as_memos memos.new.entries ≡ as_memos memos.old.entries }
    ensures old { HasNoNewMark memos.old.entries memos.new.entries }
    ensures matched { AreMatchedTo (T.net texts.now) memos.old.entries (T.touched texts.now)
        → AreMatched (T.net texts.now) memos.new.entries }
    ensures marks { T.is_valid texts.now
        → IsMarkedBut (T.net texts.now) memos.old.entries (T.touched texts.now)
        → IsMarkedTo (T.net texts.now) memos.new.entries (T.touched texts.now) }
    ensures room { spare memos.new ≡ spare memos.old }
{
    let count = texts.touched_count();
    for i in 0..count {
        let node = texts.touched_at(i);
        doubt(memos, node);
        unsettle(texts, memos, node);
    }
}

/// Marks what is settled of the nodes that the last edit touched, and then what stands on them;
/// notes what has to be computed next. It takes no memory.
fn mark_touched<K: StoreName, T: Texts>(
    texts: &T,
    memos: &mut Memos<Token<K, T::Value>>,
    waiting: &mut Waiting,
)
    ensures memos { as_memos memos.new.entries ≡ as_memos memos.old.entries }
    ensures matched { T.is_valid texts.now → AreMatched (T.net texts.now) memos.old.entries
        → AreMatched (T.net texts.now) memos.new.entries }
    ensures marks { T.is_valid texts.now → AreMatched (T.net texts.now) memos.old.entries
        → IsMarkedTo (T.net texts.now) memos.old.entries (T.touched texts.now)
        → IsMarkedTo (T.net texts.now) memos.new.entries [] }
    ensures whole { T.is_valid texts.now → AreMatched (T.net texts.now) memos.old.entries
        → (claims : List (ℕ × Claim))
        → IsMarkedTo (T.net texts.now) memos.old.entries (T.touched texts.now)
        → IsWholeTo (T.net texts.now) memos.old.entries claims waiting.old (T.touched texts.now)
        → IsWholeTo (T.net texts.now) memos.new.entries claims waiting.new [] }
    ensures room { spare memos.new ≡ spare memos.old }
{
    let count = texts.touched_count();
    for i in 0..count {
        let node = texts.touched_at(i);
        if texts.is_used(node) {
            settle(texts, memos, waiting, node);
        }
    }
}

/// After an edit: takes away the marks that it made wrong, marks what is settled, and notes what
/// has to be computed next. It takes no memory.
pub(crate) fn settle_touched<K: StoreName, T: Texts>(
    texts: &T,
    memos: &mut Memos<Token<K, T::Value>>,
    waiting: &mut Waiting,
)
    ensures memos { as_memos memos.new.entries ≡ as_memos memos.old.entries }
    ensures matched { T.is_valid texts.now
        → AreMatchedTo (T.net texts.now) memos.old.entries (T.touched texts.now)
        → AreMatched (T.net texts.now) memos.new.entries }
    ensures marks { T.is_valid texts.now
        → AreMatchedTo (T.net texts.now) memos.old.entries (T.touched texts.now)
        → IsMarkedBut (T.net texts.now) memos.old.entries (T.touched texts.now)
        → IsMarkedTo (T.net texts.now) memos.new.entries [] }
    ensures whole { T.is_valid texts.now
        → AreMatchedTo (T.net texts.now) memos.old.entries (T.touched texts.now)
        → (claims : List (ℕ × Claim))
        → IsMarkedBut (T.net texts.now) memos.old.entries (T.touched texts.now)
        → IsWholeTo (T.net texts.now) memos.old.entries claims waiting.old (T.touched texts.now)
        → IsWholeTo (T.net texts.now) memos.new.entries claims waiting.new [] }
    ensures room { spare memos.new ≡ spare memos.old }
{
    unsettle_touched(texts, memos);
    mark_touched(texts, memos, waiting);
}

/// Whether every used node is marked.
pub fn are_used_marked<K: StoreName, T: Texts>(texts: &T, memos: &Memos<Token<K, T::Value>>) -> bool
    ensures yes { IsTrue result
        → AreMarked (T.net texts.now) memos.now.entries (length (T.net texts.now).used) }
    ensures no { IsFalse result → HasUnmarked (T.net texts.now) memos.now.entries }
{
    let count = texts.used_count();
    for i in 0..count {
        if !is_marked(memos, texts.used_at(i)) {
            return false;
        }
    }
    true
}
