//! The predefined names of `base_env` in a candidate.

use crate::semantics::put_item;
use base_env::BaseEnv;
use bit_relations::{EventSet, Rel};
use std::alloc::AllocError;
use text_values::put_bytes;

/// Appends the events of a set.
fn put_set(answer: &mut Vec<u8>, set: &EventSet) -> Result<(), AllocError> {
    let mut index = 0usize;
    for event in 0..set.count() {
        if set.contains(event) {
            put_item(answer, index, event)?;
            index = index.saturating_add(1);
        }
    }
    Ok(())
}

/// Appends the pairs of a relation from one event, with how many pairs stand before.
fn put_row(
    answer: &mut Vec<u8>,
    relation: &Rel,
    from: usize,
    before: usize,
) -> Result<usize, AllocError> {
    let mut index = before;
    for to in 0..relation.count() {
        if from < relation.count() && relation.contains(from, to) {
            put_item(answer, index, from)?;
            put_bytes(answer, b"-")?;
            put_item(answer, 0, to)?;
            index = index.saturating_add(1);
        }
    }
    Ok(index)
}

/// Appends the pairs of a relation, or `none`.
fn put_relation(answer: &mut Vec<u8>, relation: &Rel) -> Result<(), AllocError> {
    let mut index = 0;
    for from in 0..relation.count() {
        index = put_row(answer, relation, from, index)?;
    }
    if index == 0 {
        put_bytes(answer, b"none")?;
    }
    Ok(())
}

/// The relation that a name means.
fn relation_of<'a>(env: &'a BaseEnv, name: &str) -> Option<&'a Rel> {
    match name {
        "id" => Some(&env.id_rel),
        "po" => Some(&env.po_rel),
        "loc" => Some(&env.loc_rel),
        "po-loc" => Some(&env.po_loc_rel),
        "int" => Some(&env.int_rel),
        "ext" => Some(&env.ext_rel),
        "co" => Some(&env.co_rel),
        "fr" => Some(&env.fr_rel),
        "rfe" => Some(&env.rfe_rel),
        "rfi" => Some(&env.rfi_rel),
        "coe" => Some(&env.coe_rel),
        "fri" => Some(&env.fri_rel),
        "com" => Some(&env.com_rel),
        "sync" => Some(&env.sync_rel),
        "lwsync" => Some(&env.lwsync_rel),
        _ => None,
    }
}

/// The set that a name means.
fn set_of(env: &BaseEnv, name: &str) -> Option<EventSet> {
    match name {
        "_" => Some(env.all_set),
        "W" => Some(env.w_set),
        "F" => Some(env.f_set),
        "IW" => Some(env.iw_set),
        "LWSYNC" => Some(env.lwsync_set),
        _ => None,
    }
}

/// Appends what a name means.
pub fn put_name(answer: &mut Vec<u8>, env: &BaseEnv, name: &str) -> Result<(), AllocError> {
    if let Some(relation) = relation_of(env, name) {
        return put_relation(answer, relation);
    }
    match set_of(env, name) {
        Some(set) => put_set(answer, &set),
        None => put_bytes(answer, b"no such name"),
    }
}
