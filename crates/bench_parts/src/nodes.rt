//! What a job of a node is given, where it lies.

ghost use Rattle.std.specs.Prelude.{◌≡◌, option_map};
ghost use Rattle.text_values.specs.TestValue.{formula_of};
ghost use Rattle.bench_nodes.specs.Nodes.{keys_at, space_keys};
ghost use Rattle.bench_parts.specs.Contents.{parts_state};
ghost use Rattle.bench_parts.specs.States.{contents, flags_read, given_space, given_item, given_verdict, verdict_given, given_to_node};
ghost use Rattle.bench_parts.specs.Views.{first_view, part_before, first_part, contents_from, given_of};

use crate::content::{Content, content_at};
use crate::find::test_at;
use crate::parts::Parts;
use bench_items::SharedItem;
use bench_nodes::{FAULT, ITEM, SlotKey};
use binding_graph::ModelFault;
use memo_core::keys::{Kind, Node};
use text_values::{Condition, InitEntry, Name, Place, Test, Thread};

/// What a job is given, by the kind of its node.
#[derive(Clone, Copy)]
pub(crate) enum NodeParts<'p> {
    Space {
        init: &'p [InitEntry],
        threads: &'p [Thread],
        locations: &'p [Name],
    },
    Item(&'p SharedItem),
    /// Which checks are flags is among all the inputs of the node.
    Verdict {
        condition: &'p Condition,
        observed: &'p [Place],
        keys: &'p [SlotKey],
    },
    Fault {
        condition: &'p Condition,
        fault: ModelFault,
    },
}

/// A part among some inputs, and the inputs behind it.
#[derive(Clone, Copy)]
struct FirstPart<'p> {
    part: u64,
    of: u64,
    rest: &'p [SlotKey],
}

/// What the first part among some inputs holds, and the inputs behind it.
#[derive(Clone, Copy)]
struct FirstContent<'p> {
    held: Option<Content<'p>>,
    rest: &'p [SlotKey],
}

// The part that an input is, before others, of a node of that test.
fn part_before<'p>(test: u64, key: SlotKey, rest: &'p [SlotKey]) -> Option<FirstPart<'p>>
    ensures { option_map first_view result ≡ part_before test key rest.now }
{
    match key {
        SlotKey::Test(part) => {
            let of = test;
            Some(FirstPart { part, of, rest })
        }
        SlotKey::Item(of) => {
            let part = ITEM;
            Some(FirstPart { part, of, rest })
        }
        SlotKey::Fault(of) => {
            let part = FAULT;
            Some(FirstPart { part, of, rest })
        }
        SlotKey::Value(_, _, _) => None,
    }
}

// The first part among some inputs of a node of that test.
fn first_part(test: u64, keys: &[SlotKey]) -> Option<FirstPart<'_>>
    ensures { option_map first_view result ≡ first_part test keys.now }
{
    for (index, key) in keys.iter().enumerate() {
        let rest = &keys[index + 1..];
        match part_before(test, *key, rest) {
            Some(first) => return Some(first),
            None => {}
        }
    }
    None
}

// What the first part among some inputs holds.
fn first_content<'p>(
    parts: &'p Parts,
    tests: &'p [Test],
    test: u64,
    keys: &'p [SlotKey],
) -> Option<FirstContent<'p>>
    ensures { let s = parts_state parts.now tests.now in
        contents_from s test result ≡ contents s (keys_at test keys.now) }
{
    match first_part(test, keys) {
        Some(first) => Some(FirstContent {
            held: content_at(parts, tests, first.part, first.of),
            rest: first.rest,
        }),
        None => None,
    }
}

fn space_parts<'p>(parts: &'p Parts, tests: &'p [Test], test: u64) -> Option<NodeParts<'p>>
    ensures { let s = parts_state parts.now tests.now in
        option_map (given_of s test) result
        ≡ given_space (contents s (space_keys parts.now.table.tests.items test)) }
{
    let index = parts.test_index(test);
    match test_at(&parts.table.tests, tests, &parts.locations, test, index) {
        Some(found) => {
            let count = found.row.threads.len();
            if count <= found.test.threads.len() {
                Some(NodeParts::Space {
                    init: &found.test.init,
                    threads: &found.test.threads[..count],
                    locations: found.locations,
                })
            } else {
                None
            }
        }
        None => None,
    }
}

fn item_parts<'p>(
    parts: &'p Parts,
    tests: &'p [Test],
    test: u64,
    keys: &'p [SlotKey],
) -> Option<NodeParts<'p>>
    ensures { let s = parts_state parts.now tests.now in
        option_map (given_of s test) result ≡ given_item (contents s (keys_at test keys.now)) }
{
    match first_content(parts, tests, test, keys) {
        Some(first) => match first.held {
            Some(Content::Role(item)) => Some(NodeParts::Item(item)),
            Some(Content::Fault(_)) => None,
            Some(Content::Condition(_)) => None,
            Some(Content::Observed(_)) => None,
            Some(Content::Locations(_)) => None,
            Some(Content::Init(_)) => None,
            Some(Content::Thread(_)) => None,
            None => None,
        },
        None => None,
    }
}

// What a verdict of this condition is given by the inputs behind it, and by which checks are flags
// among all of its inputs.
fn parts_behind<'p>(
    parts: &'p Parts,
    tests: &'p [Test],
    test: u64,
    condition: &'p Condition,
    rest: &'p [SlotKey],
    keys: &'p [SlotKey],
) -> Option<NodeParts<'p>>
    ensures { let s = parts_state parts.now tests.now in
        let all = keys_at test keys.now in
        option_map (given_of s test) result
        ≡ verdict_given condition.now.quantifier (formula_of condition.now.proposition)
        (contents s (keys_at test rest.now)) (flags_read s all all) }
{
    match first_content(parts, tests, test, rest) {
        Some(second) => match second.held {
            Some(Content::Role(_)) => None,
            Some(Content::Fault(fault)) => Some(NodeParts::Fault { condition, fault }),
            Some(Content::Condition(_)) => None,
            Some(Content::Observed(observed)) => Some(NodeParts::Verdict {
                condition,
                observed,
                keys,
            }),
            Some(Content::Locations(_)) => None,
            Some(Content::Init(_)) => None,
            Some(Content::Thread(_)) => None,
            None => None,
        },
        None => None,
    }
}

fn verdict_parts<'p>(
    parts: &'p Parts,
    tests: &'p [Test],
    test: u64,
    keys: &'p [SlotKey],
) -> Option<NodeParts<'p>>
    ensures { let s = parts_state parts.now tests.now in
        let all = keys_at test keys.now in
        option_map (given_of s test) result
        ≡ given_verdict (contents s all) (flags_read s all all) }
{
    match first_content(parts, tests, test, keys) {
        Some(first) => match first.held {
            Some(Content::Role(_)) => None,
            Some(Content::Fault(_)) => None,
            Some(Content::Condition(condition)) => {
                parts_behind(parts, tests, test, condition, first.rest, keys)
            }
            Some(Content::Observed(_)) => None,
            Some(Content::Locations(_)) => None,
            Some(Content::Init(_)) => None,
            Some(Content::Thread(_)) => None,
            None => None,
        },
        None => None,
    }
}

/// What a job of the node is given.
pub(crate) fn node_parts<'p>(
    parts: &'p Parts,
    tests: &'p [Test],
    node: Node,
) -> Option<NodeParts<'p>>
    ensures { let s = parts_state parts.now tests.now in
        option_map (given_of s node.test) result ≡ given_to_node s node }
{
    let table = &parts.table;
    match node.kind {
        Kind::Space => space_parts(parts, tests, node.test),
        Kind::Group => {
            let keys = table.slot_keys(Kind::Group, node.of);
            item_parts(parts, tests, node.test, keys)
        }
        Kind::Check => {
            let keys = table.slot_keys(Kind::Check, node.of);
            item_parts(parts, tests, node.test, keys)
        }
        Kind::Verdict => {
            let keys = table.slot_keys(Kind::Verdict, node.of);
            verdict_parts(parts, tests, node.test, keys)
        }
    }
}
