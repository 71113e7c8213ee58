//! Which of the checks among some inputs are flags, by their names.

ghost use Rattle.std.specs.Prelude.{◌≡◌, ◌↔◌, List, ◌∷◌, [], IsTrue, IfOk, Some, option_map};
ghost use Rattle.std.specs.Option.{option_to_list};
ghost use Rattle.bench_nodes.specs.Nodes.{key_at, keys_at};
ghost use Rattle.bench_items.specs.Items.{role_content};
ghost use Rattle.bench_items.specs.Naming.{SeenName};
ghost use Rattle.bench_parts.specs.Contents.{OfRole, content, parts_state};
ghost use Rattle.bench_parts.specs.States.{is_read, flag_name, flag_read, flags_read};
ghost use Rattle.bench_parts.specs.Views.{flag_at, flags_from};

use crate::content::{Content, content_at};
use crate::parts::Parts;
use bench_nodes::{ITEM, SlotKey};
use binding_graph::Role;
use memo_core::keys::Kind;
use std::alloc::{AllocError, Global};
use text_values::{Name, Test};

/// A check or a flag, with its name where it is a flag, and the inputs behind it.
#[derive(Clone, Copy)]
pub(crate) struct FirstFlag<'p> {
    pub(crate) name: Option<&'p Name>,
    pub(crate) rest: &'p [SlotKey],
}

// Whether an input of a node of that test is the text of that item.
fn is_text(test: u64, key: SlotKey, item: u64) -> bool
    ensures { result ≡ is_read (key_at test key ∷ []) item }
{
    match key {
        SlotKey::Test(part) => part == ITEM && test == item,
        SlotKey::Item(number) => number == item,
        SlotKey::Fault(_) => false,
        SlotKey::Value(_, _, _) => false,
    }
}

// Whether the text of that item is among some inputs of a node of that test.
fn is_read(test: u64, keys: &[SlotKey], item: u64) -> bool
    ensures { result ≡ is_read (keys_at test keys.now) item }
{
    for key in keys {
        if is_text(test, *key, item) {
            return true;
        }
    }
    false
}

fn role_flag(role: &Role) -> Option<&Name>
    ensures { (history : List SeenName)
        → option_map (λ n. n.now) result
        ≡ flag_name (Some (OfRole (role_content role.now) history)) }
{
    match role {
        Role::Group { .. } => None,
        Role::Check(check) => match &check.flag {
            Some(name) => Some(name),
            None => None,
        },
        Role::Silent => None,
    }
}

// The name of the item of that number, where it is a flag.
fn item_flag<'p>(parts: &'p Parts, tests: &'p [Test], item: u64) -> Option<&'p Name>
    ensures { option_map (λ n. n.now) result
        ≡ flag_name (content (parts_state parts.now tests.now) 0 item) }
{
    match content_at(parts, tests, ITEM, item) {
        Some(Content::Role(held)) => role_flag(&held.item().role),
        Some(Content::Fault(_)) => None,
        Some(Content::Condition(_)) => None,
        Some(Content::Observed(_)) => None,
        Some(Content::Locations(_)) => None,
        Some(Content::Init(_)) => None,
        Some(Content::Thread(_)) => None,
        None => None,
    }
}

// The same, where its text is among some inputs.
fn flag_read<'p>(
    parts: &'p Parts,
    tests: &'p [Test],
    test: u64,
    keys: &[SlotKey],
    item: u64,
) -> Option<&'p Name>
    ensures { option_map (λ n. n.now) result
        ≡ flag_read (parts_state parts.now tests.now) (keys_at test keys.now) item }
{
    if is_read(test, keys, item) {
        item_flag(parts, tests, item)
    } else {
        None
    }
}

// What an input among these is, where it is the answers of a check or a flag: the name of the flag.
fn flag_at<'p>(
    parts: &'p Parts,
    tests: &'p [Test],
    test: u64,
    keys: &[SlotKey],
    key: SlotKey,
) -> Option<Option<&'p Name>>
    ensures { option_to_list (option_map (option_map (λ n. n.now)) result)
        ≡ flag_at (parts_state parts.now tests.now) (keys_at test keys.now) (key_at test key) }
{
    match key {
        SlotKey::Test(_) => None,
        SlotKey::Item(_) => None,
        SlotKey::Fault(_) => None,
        SlotKey::Value(Kind::Space, _, _) => None,
        SlotKey::Value(Kind::Group, _, _) => None,
        SlotKey::Value(Kind::Check, of, _) => Some(flag_read(parts, tests, test, keys, of)),
        SlotKey::Value(Kind::Verdict, _, _) => None,
    }
}

fn copied_name(alloc: Global, name: Option<&Name>) -> Result<Option<Name>, AllocError>
    ensures { IfOk result (λ n. n ≡ option_map (λ m. m.now) name.entry) }
{
    match name {
        Some(found) => Ok(Some(found.copied(alloc)?)),
        None => Ok(None),
    }
}

/// For each check and flag among some inputs, in order, a copy of the name of the flag. Errors: out
/// of memory.
pub(crate) fn copied_flags(
    alloc: Global,
    parts: &Parts,
    tests: &[Test],
    test: u64,
    keys: &[SlotKey],
) -> Result<Vec<Option<Name>>, AllocError>
    ensures { let all = keys_at test keys.now in
        IfOk result (λ v. v.items ≡ flags_read (parts_state parts.now tests.now) all all) }
{
    let mut flags = Vec::new(alloc);
    for key in keys {
        match flag_at(parts, tests, test, keys, *key) {
            Some(name) => flags.push(copied_name(alloc, name)?)?,
            None => {}
        }
    }
    Ok(flags)
}

// The first check or flag among the last of some inputs.
fn first_flag<'p>(
    parts: &'p Parts,
    tests: &'p [Test],
    test: u64,
    keys: &[SlotKey],
    rest: &'p [SlotKey],
) -> Option<FirstFlag<'p>>
    ensures { let s = parts_state parts.now tests.now in
        let all = keys_at test keys.now in
        flags_from s test all result ≡ flags_read s all (keys_at test rest.now) }
{
    for (index, key) in rest.iter().enumerate() {
        match flag_at(parts, tests, test, keys, *key) {
            Some(name) => {
                return Some(FirstFlag {
                    name,
                    rest: &rest[index + 1..],
                });
            }
            None => {}
        }
    }
    None
}

fn is_named(name: Option<&Name>, flag: &Option<Name>) -> bool
    ensures { IsTrue result ↔ (option_map (λ n. n.now) name.entry ≡ flag.now) }
{
    match name {
        Some(found) => match flag {
            Some(other) => found.is_same(other),
            None => false,
        },
        None => match flag {
            Some(_) => false,
            None => true,
        },
    }
}

/// Whether these are the names of the flags, for each check and flag among some inputs, in order.
pub(crate) fn has_flags(
    parts: &Parts,
    tests: &[Test],
    test: u64,
    keys: &[SlotKey],
    flags: &[Option<Name>],
) -> bool
    ensures { let all = keys_at test keys.now in
        IsTrue result ↔ (flags_read (parts_state parts.now tests.now) all all ≡ flags.now) }
{
    let mut rest = keys;
    for flag in flags {
        match first_flag(parts, tests, test, keys, rest) {
            Some(first) => {
                if !is_named(first.name, flag) {
                    return false;
                }
                rest = first.rest;
            }
            None => return false,
        }
    }
    first_flag(parts, tests, test, keys, rest).is_none()
}
