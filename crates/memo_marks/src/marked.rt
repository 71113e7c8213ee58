//! Texts with what is kept of computations on them, whose marks are true, and the users of nodes.

ghost use Rattle.std.specs.Prelude.{◌≡◌, IsTrue, IsFalse, IfOk, []};
ghost use Rattle.memo_core.specs.Graph.{IsSettled};
ghost use Rattle.memo_core.specs.Marks.{IsMarkedTo};
ghost use Rattle.memo_core.specs.Views.{as_memos};
ghost use Rattle.memo_marks.specs.Users.{AreUsersOf};

use crate::table::{UserTable, user_table};
use memo_core::keys::Node;
use memo_core::table::{Memos, settled as is_settled};
use memo_core::texts::Texts;
use memo_engine::marks::is_marked;
use std::alloc::{AllocError, Global};
use std::marker::Model;
use value_store::{StoreName, Token};

/// The marks of the nodes of texts, which say what is settled, and the users of each node.
pub struct Marks<'a, K: StoreName, T: Texts> {
    texts: &'a T,
    memos: &'a Memos<Token<K, T::Value>>,
    users: UserTable,
}

impl<'a, K: StoreName, T: Texts> Drop for Marks<'a, K, T> {
    fn drop(self) {
        let Marks {
            texts: _,
            memos: _,
            users: _,
        } = self;
    }
}

impl<'a, K: StoreName, T: Texts> Model for Marks<'a, K, T> {
    ghost use Rattle.std.specs.Prelude.{[]};
    ghost use Rattle.memo_core.specs.Marks.{IsMarkedTo};
    ghost use Rattle.memo_marks.specs.Marked.{Marked, marked};
    ghost use Rattle.memo_marks.specs.Users.{HoldsUsers};

    ghost Value = { Marked T T.Value };

    ghost view = { λ m. marked m.texts.now m.memos.now.entries };

    ghost invariant = { λ m. T.is_valid m.texts.now
        × IsMarkedTo (T.net m.texts.now) m.memos.now.entries []
        × HoldsUsers (T.net m.texts.now) m.users.entries [] };
}

impl<'a, K: StoreName, T: Texts> Marks<'a, K, T> {
    /// The marks of these memos, with the users of each node. Errors: want of memory.
    pub fn of(
        alloc: Global,
        texts: &'a T,
        memos: &'a Memos<Token<K, T::Value>>,
    ) -> Result<Self, AllocError>
        requires valid { T.is_valid texts.now }
        requires marks { IsMarkedTo (T.net texts.now) memos.now.entries [] }
        ensures texts { IfOk result (λ marks. marks.texts ≡ texts.now) }
        ensures memos { IfOk result (λ marks. marks.memos ≡ as_memos memos.now.entries) }
    {
        Ok(Marks {
            texts,
            memos,
            users: user_table(alloc, texts)?,
        })
    }

    /// The texts.
    pub fn texts(&self) -> &T
        ensures texts { result.now ≡ self.now.texts }
        ensures valid { T.is_valid result.now }
    {
        self.texts
    }

    /// What is kept of computations on them.
    pub fn memos(&self) -> &Memos<Token<K, T::Value>>
        ensures { as_memos result.now.entries ≡ self.now.memos }
    {
        self.memos
    }
}

/// Whether a node is settled: where cells use the node by a look-up, else by the recursion. It
/// takes no memory.
pub fn settled<K: StoreName, T: Texts>(marks: &Marks<'_, K, T>, node: Node) -> bool
    ensures yes { IsTrue result → IsSettled (T.net marks.now.texts) marks.now.memos node }
    ensures no { IsFalse result → IsSettled (T.net marks.now.texts) marks.now.memos node → ⊥ }
{
    let texts = marks.texts;
    if texts.is_used(node) {
        is_marked(marks.memos, node)
    } else {
        is_settled(texts, marks.memos, node)
    }
}

/// The users of a node: the used nodes that have an output of it among their present inputs, each
/// once. It takes no memory.
pub fn users<'m, K: StoreName, T: Texts>(marks: &'m Marks<'_, K, T>, node: Node) -> &'m [Node]
    ensures { AreUsersOf (T.net marks.now.texts) node result.now }
{
    match marks.users.get(&node) {
        Some(users) => users.as_slice(),
        None => &[],
    }
}
