//! What jobs are given, and which nodes may keep what they hold.

ghost use Rattle.std.specs.Prelude.{◌≡◌, ◌↔◌, IsTrue, IfOk, Some, true};
ghost use Rattle.bench_parts.specs.Contents.{parts_state};
ghost use Rattle.bench_parts.specs.States.{given_to_node as given_in, is_given, has_own, keeps, IsUsedNode};
ghost use Rattle.bench_parts.specs.Views.{given_of};

use crate::find::{has_kind, has_model};
use crate::flags::{copied_flags, has_flags};
use crate::nodes::{NodeParts, node_parts};
use crate::parts::Parts;
use bench_values::Given;
use memo_core::keys::{Kind, Node};
use std::alloc::{AllocError, Global};
use text_values::Test;

fn given_from(
    alloc: Global,
    parts: &Parts,
    tests: &[Test],
    test: u64,
    found: NodeParts<'_>,
) -> Result<Given, AllocError>
    ensures { IfOk result (λ g. g ≡ given_of (parts_state parts.now tests.now) test found.entry) }
{
    match found {
        NodeParts::Space {
            init,
            threads,
            locations,
        } => Given::of_space(alloc, init, threads, locations),
        NodeParts::Item(item) => Given::of_item(alloc, item),
        NodeParts::Verdict {
            condition,
            observed,
            keys,
        } => {
            let flags = copied_flags(alloc, parts, tests, test, keys)?;
            Given::of_verdict(alloc, condition, observed, flags)
        }
        NodeParts::Fault { condition, fault } => Given::of_fault(alloc, condition, fault),
    }
}

fn is_given_from(
    parts: &Parts,
    tests: &[Test],
    test: u64,
    found: NodeParts<'_>,
    given: &Given,
) -> bool
    ensures { IsTrue result
        ↔ (given_of (parts_state parts.now tests.now) test found.entry ≡ given.now) }
{
    match found {
        NodeParts::Space {
            init,
            threads,
            locations,
        } => given.is_space(init, threads, locations),
        NodeParts::Item(item) => given.is_item(item),
        NodeParts::Verdict {
            condition,
            observed,
            keys,
        } => {
            let flags = given.flags();
            has_flags(parts, tests, test, keys, flags)
                && given.is_verdict(condition, observed, flags)
        }
        NodeParts::Fault { condition, fault } => given.is_fault(condition, fault),
    }
}

fn has_own(parts: &Parts, kind: Kind, of: u64) -> bool
    ensures { result ≡ has_own parts.now kind of }
{
    let items = &parts.table.items;
    let guesses = &parts.table.item_guesses;
    match kind {
        Kind::Space => true,
        Kind::Group => has_kind(guesses, items, &parts.kinds, Kind::Group, of),
        Kind::Check => has_kind(guesses, items, &parts.kinds, Kind::Check, of),
        Kind::Verdict => has_model(&parts.table.models, of),
    }
}

impl Parts {
    /// What a job of the node is given of these tests. Errors: out of memory.
    pub fn give(&self, alloc: Global, tests: &[Test], node: Node) -> Result<Given, AllocError>
        requires { IsUsedNode (parts_state self.now tests.now) node }
        ensures given { IfOk result (λ g. given_in (parts_state self.now tests.now) node ≡ Some g) }
        ensures gives { IfOk result
            (λ g. is_given (given_in (parts_state self.now tests.now) node) g
            ≡ true) }
    {
        match node_parts(self, tests, node) {
            Some(found) => given_from(alloc, self, tests, node.test, found),
            None => unreachable!(),
        }
    }

    /// Whether a job of the node would be given this now, exactly. It takes no memory.
    pub fn is_given(&self, tests: &[Test], node: Node, given: &Given) -> bool
        ensures { result ≡ is_given (given_in (parts_state self.now tests.now) node) given.now }
    {
        match node_parts(self, tests, node) {
            Some(found) => is_given_from(self, tests, node.test, found, given),
            None => false,
        }
    }

    /// Whether what the node holds may stay after an edit: its test is there, and its item, by the
    /// text of the same kind, or its model.
    pub fn keeps(&self, node: Node) -> bool
        ensures { result ≡ keeps self.now node }
    {
        self.table.has_test(node.test) && has_own(self, node.kind, node.of)
    }
}
