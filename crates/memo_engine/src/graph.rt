//! Texts with what is kept of computations on them.

ghost use Rattle.std.specs.Prelude.{[], ◌+◌, ◌<◌, ◌≤◌, ◌^◌, length};
ghost use Rattle.indexmap.specs.IndexMap.{spare};
ghost use Rattle.memo_engine.specs.Kept.{AreKept};
ghost use Rattle.memo_engine.specs.Matched.{AreMatched};
ghost use Rattle.memo_engine.specs.Waiting.{IsWholeTo};

use crate::waiting::Waiting;
use memo_core::claims::OpenClaims;
use memo_core::table::Memos;
use memo_core::texts::Texts;
use std::alloc::Global;
use std::sync::Arc;
use value_store::{Store, StoreName, Token};

/// No edit and no claim is given a number above this, so that returns always have one.
pub const LAST: u64 = 0x8000_0000_0000_0000;

/// Texts, what is kept of computations on them, and what is handed out. Each accepted edit, each
/// claim and each accepted return takes the next number.
pub struct Graph<K: StoreName, T: Texts> {
    /// The texts.
    pub texts: T,
    /// What is kept of each node that was computed.
    pub memos: Memos<Token<K, T::Value>>,
    /// The claims that are out.
    pub claims: OpenClaims,
    /// How many numbers are taken.
    pub taken: u64,
    /// Nodes that may have work. An edit adds those that it reaches.
    pub(crate) waiting: Waiting,
    /// Where among the used nodes the search for work goes on, once no waiting node has any.
    pub(crate) next: usize,
    pub(crate) store: Arc<Store<K, T::Value>, Global>,
    ghost room: { length claims.entries ≤ spare memos },
    ghost small: { length claims.entries < 2 ^ 63 },
    ghost few: { taken + length claims.entries < 2 ^ 64 },
    ghost last: { T.last texts ≤ taken },
    ghost kept: { AreKept (T.keeps texts) memos.entries },
    ghost matched: { AreMatched (T.net texts) memos.entries },
    ghost whole: { IsWholeTo (T.net texts) memos.entries claims.entries waiting [] },
}

impl<K: StoreName, T: Texts> Drop for Graph<K, T> {
    fn drop(self) {
        let Graph {
            texts: _,
            memos: _,
            claims: _,
            taken: _,
            waiting: _,
            next: _,
            store: _,
        } = self;
    }
}
