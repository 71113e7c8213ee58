//! Whether a value comes out of thin air.

ghost use Rattle.std.specs.Prelude.{◌≡◌, ◌↔◌, ◌⊎◌, ◌∷◌, ◌<◌, length, map, zip, Contains, IfOk, IsTrue, OnOk};
ghost use Rattle.meaning.specs.Sets.{IsOnce, IsAcyclic};
ghost use Rattle.meaning.specs.Executions.{loads_in};
ghost use Rattle.meaning_plain.specs.Lists.{HasPairs, Grows};
ghost use Rattle.plain_runs.specs.Runs.{run_as};
ghost use Rattle.plain_events.specs.Events.{event_as};
ghost use Rattle.plain_executions.specs.Executions.{AreRelated, IsAmong, NeedOrReadsOf};

use crate::dependent::{Kind, is_dependent};
use meaning_plain::checks::is_acyclic;
use meaning_plain::relations::add_pair;
use plain_events::event::{Event, is_same_event};
use plain_runs::run::Run;
use std::alloc::{AllocError, Global};

fn either(first: bool, second: bool) -> bool
    ensures { IsTrue result ↔ (IsTrue first ⊎ IsTrue second) }
{
    first || second
}

fn both(first: bool, second: bool) -> bool
    ensures { IsTrue result ↔ (IsTrue first × IsTrue second) }
{
    first && second
}

// Whether the load and the store that it reads are these.
fn is_pair(from: &Event, read: &Event, store: &Event, load: &Event) -> bool
    ensures { IsTrue result ↔ ((event_as from.now ≡ event_as store.now)
        × (event_as read.now ≡ event_as load.now)) }
{
    let first = is_same_event(from, store);
    let second = is_same_event(read, load);
    both(first, second)
}

// Whether the load reads the store, where the first load reads the first store and so on.
#[cycle(reads)]
fn is_read_behind(
    from: &Event,
    reads_from: &[Event],
    loads: &[Event],
    store: &Event,
    load: &Event,
) -> bool
    ensures { IsTrue result ↔ Contains (zip (event_as from.now ∷ map event_as reads_from.now)
        (map event_as loads.now)) (event_as store.now, event_as load.now) }
{
    match loads.split_first() {
        Some((read, rest)) => {
            let first = is_pair(from, read, store, load);
            let later = is_read_from(reads_from, rest, store, load);
            either(first, later)
        }
        None => false,
    }
}

/// Whether the load reads the store, where each of the loads reads the store at its index.
#[cycle(reads)]
pub fn is_read_from(reads_from: &[Event], loads: &[Event], store: &Event, load: &Event) -> bool
    ensures { IsTrue result ↔ Contains (zip (map event_as reads_from.now)
        (map event_as loads.now)) (event_as store.now, event_as load.now) }
{
    match reads_from.split_first() {
        Some((from, rest)) => is_read_behind(from, rest, loads, store, load),
        None => false,
    }
}

// Whether two events are related by need or by reads-from.
fn is_related(
    alloc: Global,
    runs: &[Run],
    loads: &[Event],
    reads_from: &[Event],
    first: &Event,
    second: &Event,
) -> Result<bool, AllocError>
    requires { map event_as loads.now ≡ loads_in 0 (map run_as runs.now) }
    ensures { IfOk result (λ b. IsTrue b ↔ NeedOrReadsOf (map run_as runs.now)
        (map event_as reads_from.now) (event_as first.now) (event_as second.now)) }
{
    let needs = is_dependent(alloc, Kind::Need, runs, first, second)?;
    let reads = is_read_from(reads_from, loads, first, second);
    let is = either(needs, reads);
    Ok(is)
}

// Adds the pair of these indexes, if what stands there is related.
fn put_pair(
    alloc: Global,
    nodes: &[Event],
    runs: &[Run],
    loads: &[Event],
    reads_from: &[Event],
    pair: (usize, usize),
    pairs: &mut Vec<(usize, usize)>,
) -> Result<(), AllocError>
    requires loads { map event_as loads.now ≡ loads_in 0 (map run_as runs.now) }
    requires from { pair.0 < length nodes.now }
    requires to { pair.1 < length nodes.now }
    ensures { OnOk result (Grows (λ p. (p ≡ pair) × AreRelated
        (NeedOrReadsOf (map run_as runs.now) (map event_as reads_from.now))
        (map event_as nodes.now) pair.0 pair.1) pairs.old.items pairs.new.items) }
{
    let from = pair.0;
    let to = pair.1;
    let is = is_related(alloc, runs, loads, reads_from, &nodes[from], &nodes[to])?;
    if !is {
        return Ok(());
    }
    add_pair(pairs, pair)?;
    Ok(())
}

// Adds the pairs from an index.
fn put_pairs(
    alloc: Global,
    nodes: &[Event],
    runs: &[Run],
    loads: &[Event],
    reads_from: &[Event],
    from: usize,
    pairs: &mut Vec<(usize, usize)>,
) -> Result<(), AllocError>
    requires loads { map event_as loads.now ≡ loads_in 0 (map run_as runs.now) }
    requires from { from < length nodes.now }
    ensures { OnOk result (Grows (λ p. (p.0 ≡ from) × AreRelated
        (NeedOrReadsOf (map run_as runs.now) (map event_as reads_from.now))
        (map event_as nodes.now) from p.1) pairs.old.items pairs.new.items) }
{
    for to in 0..nodes.len() {
        put_pair(alloc, nodes, runs, loads, reads_from, (from, to), pairs)?;
    }
    Ok(())
}

// The pairs of the indexes of events that are related by need or by reads-from.
fn all_pairs(
    alloc: Global,
    nodes: &[Event],
    runs: &[Run],
    loads: &[Event],
    reads_from: &[Event],
) -> Result<Vec<(usize, usize)>, AllocError>
    requires { map event_as loads.now ≡ loads_in 0 (map run_as runs.now) }
    ensures { IfOk result (λ v. HasPairs (AreRelated
        (NeedOrReadsOf (map run_as runs.now) (map event_as reads_from.now))
        (map event_as nodes.now)) v.items) }
{
    let mut pairs = Vec::new(alloc);
    for from in 0..nodes.len() {
        put_pairs(alloc, nodes, runs, loads, reads_from, from, &mut pairs)?;
    }
    Ok(pairs)
}

/// Whether no value comes out of thin air. Errors: want of memory.
pub fn is_from_somewhere(
    alloc: Global,
    nodes: &[Event],
    runs: &[Run],
    loads: &[Event],
    reads_from: &[Event],
) -> Result<bool, AllocError>
    requires once { IsOnce (map event_as nodes.now) }
    requires loads { map event_as loads.now ≡ loads_in 0 (map run_as runs.now) }
    requires among { IsAmong (map event_as nodes.now)
        (NeedOrReadsOf (map run_as runs.now) (map event_as reads_from.now)) }
    ensures { IfOk result (λ b. IsTrue b ↔ IsAcyclic
        (NeedOrReadsOf (map run_as runs.now) (map event_as reads_from.now))) }
{
    let pairs = all_pairs(alloc, nodes, runs, loads, reads_from)?;
    let is = is_acyclic(alloc, &pairs)?;
    Ok(is)
}
