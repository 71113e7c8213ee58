//! Memos are stored and dropped, and outputs get their stamps.

ghost use Rattle.std.specs.Prelude.{◌≡◌, ◌+◌, ◌<◌, ◌≤◌, ◌^◌, OnOk, OnErr, IfErr, ◌++◌, ◌&&◌, false, filter, if◌then◌else◌, length, vec_len, vec_capacity};
ghost use Rattle.indexmap.specs.IndexMap.{spare};
ghost use Rattle.std.specs.BTreeMap.{insert_entry};
ghost use Rattle.std.specs.Ordering.{nat_cmp};
ghost use Rattle.memo_core.specs.declared.keys.Node.{Node as NodeRecord};
ghost use Rattle.memo_core.specs.Names.{same_node};
ghost use Rattle.memo_core.specs.Marks.{mark_of, matched_of};
ghost use Rattle.memo_core.specs.Graph.{put_memo, memo_of, output_at};
ghost use Rattle.memo_core.specs.Views.{as_memo, as_memos, shown_outputs, shown_output};
ghost use Rattle.memo_core.specs.Tests.{holds_value, stamped_output, name_if_changed, stamped_outputs, changed_names, outputs_of};
ghost use Rattle.memo_engine.specs.Kept.{AreKept};
ghost use Rattle.memo_engine.specs.Matched.{HasNoNewMatch};

use crate::work::outputs_in;
use memo_core::claims::{Claim, ClaimFault, OpenClaims};
use memo_core::keys::{Node, Output};
use memo_core::table::{Kept, Memos, is_equal, output_stamp, output_token};
use memo_core::texts::Texts;
use value_store::{Store, StoreName, Token};

/// Whether the token shows what is there at the name.
fn output_is<K: StoreName, T: Texts>(
    store: &Store<K, T::Value>,
    outputs: &[Output<Token<K, T::Value>>],
    name: u64,
    token: &Token<K, T::Value>,
) -> bool
    ensures { result
        ≡ holds_value T.same (output_at name (shown_outputs outputs.now)) token.now.value }
{
    match output_token(outputs, name) {
        None => false,
        Some(there) => is_equal::<K, T>(store, there, token),
    }
}

/// Stamps one output, and notes its name if it is new or changed.
fn restamp_one<K: StoreName, T: Texts>(
    store: &Store<K, T::Value>,
    old: &[Output<Token<K, T::Value>>],
    number: u64,
    output: &mut Output<Token<K, T::Value>>,
    names: &mut Vec<u64>,
)
    requires { vec_len names.old < vec_capacity names.old }
    ensures output { shown_output output.new
        ≡ stamped_output T.same (shown_outputs old.now) number (shown_output output.old) }
    ensures names { names.new.items
        ≡ names.old.items
        ++ name_if_changed T.same (shown_outputs old.now) (shown_output output.old) }
    ensures len { vec_len names.new ≤ vec_len names.old + 1 }
    ensures capacity { vec_capacity names.old ≤ vec_capacity names.new }
{
    if output_is::<K, T>(store, old, output.name, &output.value) {
        output.stamp = output_stamp(old, output.name);
    } else {
        output.stamp = number;
        match names.push(output.name) {
            Ok(()) => {}
            Err(_) => unreachable!(),
        }
    }
}

/// Stamps the outputs of a return: one that was there with this value keeps its stamp, any other
/// gets the number, and its name is noted.
fn restamp<K: StoreName, T: Texts>(
    store: &Store<K, T::Value>,
    old: &[Output<Token<K, T::Value>>],
    number: u64,
    outputs: &mut [Output<Token<K, T::Value>>],
    names: &mut Vec<u64>,
)
    requires empty { vec_len names.old ≡ 0 }
    requires room { length outputs.old ≤ vec_capacity names.old }
    ensures outputs { shown_outputs outputs.new
        ≡ stamped_outputs T.same (shown_outputs old.now) number (shown_outputs outputs.old) }
    ensures names { names.new.items
        ≡ changed_names T.same (shown_outputs old.now) (shown_outputs outputs.old) }
{
    for i in 0..outputs.len() {
        restamp_one::<K, T>(store, old, number, &mut outputs[i], names);
    }
}

/// Stamps a vector of outputs over what is kept of a node: one that was there with this value keeps
/// its stamp, any other gets the number, and its name is noted.
pub fn restamp_all<K: StoreName, T: Texts>(
    store: &Store<K, T::Value>,
    memos: &Memos<Token<K, T::Value>>,
    node: Node,
    number: u64,
    outputs: &mut Vec<Output<Token<K, T::Value>>>,
    names: &mut Vec<u64>,
)
    requires empty { vec_len names.old ≡ 0 }
    requires room { length outputs.old.items ≤ vec_capacity names.old }
    ensures outputs { shown_outputs outputs.new.items
        ≡ stamped_outputs T.same (outputs_of (memo_of node (as_memos memos.now.entries))) number
        (shown_outputs outputs.old.items) }
    ensures names { names.new.items
        ≡ changed_names T.same (outputs_of (memo_of node (as_memos memos.now.entries)))
        (shown_outputs outputs.old.items) }
{
    let old = outputs_in(memos, node);
    restamp::<K, T>(store, old, number, outputs.as_mut_slice(), names);
}

/// Puts a memo in the place of the node's earlier one, or adds it, for which there is room.
pub fn store_memo<K: StoreName, V: Drop>(
    memos: &mut Memos<Token<K, V>>,
    node: Node,
    kept: Kept<Token<K, V>>,
)
    requires { 0 < spare memos.old }
    ensures memos { as_memos memos.new.entries
        ≡ put_memo (as_memo (node, kept)) (as_memos memos.old.entries) }
    ensures flags { (n : NodeRecord)
        → mark_of memos.new.entries n
        ≡ (if same_node n node then kept.settled else mark_of memos.old.entries n) }
    ensures matched { (n : NodeRecord)
        → matched_of memos.new.entries n
        ≡ (if same_node n node then kept.matched else matched_of memos.old.entries n) }
    ensures room { spare memos.old ≤ spare memos.new + 1 }
{
    match memos.insert(node, kept) {
        Ok(_) => {}
        Err(_) => unreachable!(),
    }
}

/// Opens a claim under a number, and makes room for what its return keeps. Errors: want of memory,
/// and then nothing is opened.
pub fn open_claim<K: StoreName, V: Drop>(
    memos: &mut Memos<Token<K, V>>,
    claims: &mut OpenClaims,
    number: u64,
    claim: Claim,
) -> Result<(), ClaimFault>
    requires small { length claims.old.entries < 2 ^ 63 }
    requires room { length claims.old.entries ≤ spare memos.old }
    ensures memos { memos.new.entries ≡ memos.old.entries }
    ensures opened { OnOk result (claims.new.entries
        ≡ insert_entry nat_cmp claims.old.entries number claim) }
    ensures room { length claims.new.entries ≤ spare memos.new }
    ensures small { length claims.new.entries < 2 ^ 63 }
    ensures fault { IfErr result (λ fault. fault ≡ ClaimFault.OutOfMemory) }
    ensures err { OnErr result (claims.new.entries ≡ claims.old.entries) }
{
    memos.reserve(claims.len() + 1)?;
    let _ = claims.insert(number, claim)?;
    let open = claims.len();
    prove!(open < 0x8000_0000_0000_0000);
    Ok(())
}

/// Drops the memos of nodes that the texts don't keep, and their marks.
fn drop_gone<K: StoreName, T: Texts>(texts: &T, memos: &mut Memos<Token<K, T::Value>>)
    ensures memos { as_memos memos.new.entries
        ≡ filter (λ m. T.keeps texts.now m.node) (as_memos memos.old.entries) }
    ensures marks { (n : NodeRecord)
        → mark_of memos.new.entries n ≡ (T.keeps texts.now n && mark_of memos.old.entries n) }
    ensures matched { HasNoNewMatch memos.old.entries memos.new.entries }
    ensures room { spare memos.old ≤ spare memos.new }
{
    memos.retain(
        |node: &Node, kept: &mut Kept<Token<K, T::Value>>| -> bool
            ensures keeps { result ≡ T.keeps texts.entry.now node.now }
            ensures kept { kept.new ≡ kept.old }
            ensures same { texts.exit ≡ texts.entry }
        { texts.keeps(*node) },
    );
}

/// Drops the memos of nodes that the texts don't keep, and their marks. Where none may have to go
/// nothing is done.
#[tactic(auto, using(crate::proofs::KeepLemmas::all_kept, crate::proofs::KeepLemmas::kept_marks))]
pub fn drop_left<K: StoreName, T: Texts>(
    texts: &T,
    memos: &mut Memos<Token<K, T::Value>>,
    may_drop: bool,
)
    requires kept { may_drop ≡ false → AreKept (T.keeps texts.now) memos.old.entries }
    ensures memos { as_memos memos.new.entries
        ≡ filter (λ m. T.keeps texts.now m.node) (as_memos memos.old.entries) }
    ensures marks { (n : NodeRecord)
        → mark_of memos.new.entries n ≡ (T.keeps texts.now n && mark_of memos.old.entries n) }
    ensures matched { HasNoNewMatch memos.old.entries memos.new.entries }
    ensures room { spare memos.old ≤ spare memos.new }
{
    if !may_drop {
        return;
    }
    drop_gone(texts, memos);
}
