//! Memos that are no longer known to match.

ghost use Rattle.std.specs.Prelude.{◌≡◌, true, false, if◌then◌else◌};
ghost use Rattle.indexmap.specs.IndexMap.{spare};
ghost use Rattle.memo_core.specs.declared.keys.Node.{Node as NodeRecord};
ghost use Rattle.memo_core.specs.Names.{same_node};
ghost use Rattle.memo_core.specs.Views.{as_memos};
ghost use Rattle.memo_core.specs.Marks.{mark_of, matched_of};
ghost use Rattle.memo_engine.specs.Matched.{AreDoubted, HasNoNewMatch};

use memo_core::keys::Node;
use memo_core::table::Memos;
use memo_core::texts::Texts;
use value_store::{StoreName, Token};

/// A node's memo is no longer known to match.
pub(crate) fn doubt<K: StoreName, V: Drop>(memos: &mut Memos<Token<K, V>>, node: Node)
    ensures memos { as_memos memos.new.entries ≡ as_memos memos.old.entries }
    ensures marks { (n : NodeRecord) → mark_of memos.new.entries n ≡ mark_of memos.old.entries n }
    ensures doubted { matched_of memos.new.entries node ≡ false }
    ensures old { HasNoNewMatch memos.old.entries memos.new.entries }
    ensures room { spare memos.new ≡ spare memos.old }
{
    if let Some(kept) = memos.get_mut(&node) {
        kept.matched = false;
    }
}

/// Doubts the memos of a node's users, where outputs of the node, those with these names, have new
/// stamps.
pub(crate) fn doubt_users<K: StoreName, T: Texts>(
    texts: &T,
    memos: &mut Memos<Token<K, T::Value>>,
    node: Node,
    names: &[u64],
)
    ensures memos { as_memos memos.new.entries ≡ as_memos memos.old.entries }
    ensures marks { (n : NodeRecord) → mark_of memos.new.entries n ≡ mark_of memos.old.entries n }
    ensures doubted { AreDoubted names.now (T.users texts.now node) memos.new.entries }
    ensures old { HasNoNewMatch memos.old.entries memos.new.entries }
    ensures room { spare memos.new ≡ spare memos.old }
{
    if names.is_empty() {
        return;
    }
    let count = texts.user_count(node);
    for i in 0..count {
        doubt(memos, texts.user_at(node, i));
    }
}
