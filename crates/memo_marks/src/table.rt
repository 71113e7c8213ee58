//! The users of each node, as a table.

ghost use Rattle.std.specs.Prelude.{◌≡◌, [], IfOk};
ghost use Rattle.memo_core.specs.Graph.{input_nodes};
ghost use Rattle.memo_core.specs.Tests.{has_node};
ghost use Rattle.memo_marks.specs.Users.{AreUsersOf, HoldsUsers, is_new_user};

use indexmap::IndexMap;
use memo_core::keys::{Key, Node, is_same_node};
use memo_core::texts::Texts;
use std::alloc::{AllocError, Global};

/// The users of each used node.
pub(crate) type UserTable = IndexMap<Node, Vec<Node>>;

/// Whether a node has an output of another among its inputs.
fn reads<T: Texts>(texts: &T, user: Node, node: Node) -> bool
    ensures { result ≡ has_node node (input_nodes ((T.net texts.now).inputs user)) }
{
    let count = texts.input_count(user);
    for i in 0..count {
        match texts.input_at(user, i) {
            Key::Part(_, _) => {}
            Key::Output(from, _) => {
                if is_same_node(node, from) {
                    return true;
                }
            }
        }
    }
    false
}

/// Whether a node is one of these.
fn has_node(nodes: &[Node], node: Node) -> bool
    ensures { result ≡ has_node node nodes.now }
{
    for other in nodes {
        if is_same_node(node, *other) {
            return true;
        }
    }
    false
}

/// Whether a node is a user of another, and none of these.
fn is_new_user<T: Texts>(texts: &T, node: Node, there: &[Node], user: Node) -> bool
    ensures { result ≡ is_new_user (T.net texts.now) node there.now user }
{
    texts.is_used(user) && reads(texts, user, node) && !has_node(there, user)
}

/// The users of a node. Errors: want of memory.
fn users_of<T: Texts>(alloc: Global, texts: &T, node: Node) -> Result<Vec<Node>, AllocError>
    requires { T.is_valid texts.now }
    ensures { IfOk result (λ users. AreUsersOf (T.net texts.now) node users.items) }
{
    let mut users = Vec::new(alloc);
    let count = texts.user_count(node);
    for i in 0..count {
        let user = texts.user_at(node, i);
        if is_new_user(texts, node, users.as_slice(), user) {
            users.push(user)?;
        }
    }
    Ok(users)
}

/// The users of each used node. Errors: want of memory.
pub(crate) fn user_table<T: Texts>(alloc: Global, texts: &T) -> Result<UserTable, AllocError>
    requires { T.is_valid texts.now }
    ensures { IfOk result (λ table. HoldsUsers (T.net texts.now) table.entries []) }
{
    let mut table = IndexMap::new(alloc);
    let count = texts.used_count();
    for i in 0..count {
        let node = texts.used_at(i);
        let users = users_of(alloc, texts, node)?;
        let _ = table.insert(node, users)?;
    }
    Ok(table)
}
