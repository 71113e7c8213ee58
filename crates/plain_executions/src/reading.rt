//! Which stores the loads of runs may read.

ghost use Rattle.std.specs.Prelude.{◌≡◌, map, All, Contains, IfOk, OnOk};
ghost use Rattle.std.specs.List.{AllZip};
ghost use Rattle.text_values.specs.TestValue.{content_of};
ghost use Rattle.meaning.specs.Sets.{IsOnce, IsListOf, IsAcyclic};
ghost use Rattle.meaning.specs.Names as names;
ghost use Rattle.meaning.specs.Executions.{MayRead, loads_in};
ghost use Rattle.plain_runs.specs.Keeping.{PutsIf};
ghost use Rattle.plain_runs.specs.Runs.{run_as};
ghost use Rattle.plain_runs.specs.Locations.{names_as};
ghost use Rattle.plain_events.specs.Events.{event_as, of_runs};
ghost use Rattle.plain_executions.specs.Executions.{event_lists_as, IsAmong, IsReadsFromOf, NeedOrReadsOf};

use crate::cycle::is_from_somewhere;
use crate::picked::products;
use plain_events::event::Event;
use plain_events::node::{loads, nodes, sources};
use plain_runs::run::Run;
use std::alloc::{AllocError, Global};
use text_values::Test;

// The stores that each load may read.
fn source_lists<'a>(
    alloc: Global,
    test: &'a Test,
    locations: &[&'a [u8]],
    runs: &[Run<'a>],
    loads: &[Event<'a>],
) -> Result<Vec<Vec<Event<'a>>>, AllocError>
    requires once { IsOnce (names_as locations.now) }
    requires locations { names_as locations.now ≡ names.locations (content_of test.now) }
    ensures { IfOk result (λ v. AllZip (λ load es. IsListOf (MayRead (content_of test.now)
        (of_runs (map run_as runs.now)) load) es) (map event_as loads.now)
        (event_lists_as v.items)) }
{
    let mut lists = Vec::new(alloc);
    for load in loads {
        let stores = sources(alloc, test, locations, runs, load)?;
        lists.push(stores)?;
    }
    Ok(lists)
}

// Puts a reads-from in which no value comes out of thin air.
fn put_if_sound<'a>(
    alloc: Global,
    nodes: &[Event],
    runs: &[Run],
    loads: &[Event],
    reads_from: &[Event<'a>],
    kept: &mut Vec<Vec<Event<'a>>>,
) -> Result<(), AllocError>
    requires once { IsOnce (map event_as nodes.now) }
    requires loads { map event_as loads.now ≡ loads_in 0 (map run_as runs.now) }
    requires among { IsAmong (map event_as nodes.now)
        (NeedOrReadsOf (map run_as runs.now) (map event_as reads_from.now)) }
    ensures { OnOk result (PutsIf (IsAcyclic (NeedOrReadsOf (map run_as runs.now)
        (map event_as reads_from.now))) (map event_as reads_from.now)
        (event_lists_as kept.old.items) (event_lists_as kept.new.items)) }
{
    let is = is_from_somewhere(alloc, nodes, runs, loads, reads_from)?;
    if is {
        let copy = Vec::from_slice(alloc, reads_from)?;
        kept.push(copy)?;
        return Ok(());
    }
    Ok(())
}

// Those of the lists in which no value comes out of thin air.
fn sound_among<'a>(
    alloc: Global,
    nodes: &[Event],
    runs: &[Run],
    loads: &[Event],
    all: &[Vec<Event<'a>>],
) -> Result<Vec<Vec<Event<'a>>>, AllocError>
    requires once { IsOnce (map event_as nodes.now) }
    requires loads { map event_as loads.now ≡ loads_in 0 (map run_as runs.now) }
    requires distinct { IsOnce (event_lists_as all.now) }
    requires among { All (λ es. IsAmong (map event_as nodes.now)
        (NeedOrReadsOf (map run_as runs.now) es)) (event_lists_as all.now) }
    ensures { IfOk result (λ v. IsListOf (λ es. Contains (event_lists_as all.now) es
        × IsAcyclic (NeedOrReadsOf (map run_as runs.now) es)) (event_lists_as v.items)) }
{
    let mut kept = Vec::new(alloc);
    for reads_from in all {
        put_if_sound(alloc, nodes, runs, loads, reads_from, &mut kept)?;
    }
    Ok(kept)
}

/// The reads-from of runs: for each load a store that it may read, so that no value comes out of
/// thin air. Errors: want of memory.
pub fn all_reads_from<'a>(
    alloc: Global,
    test: &'a Test,
    locations: &[&'a [u8]],
    runs: &[Run<'a>],
) -> Result<Vec<Vec<Event<'a>>>, AllocError>
    requires once { IsOnce (names_as locations.now) }
    requires locations { names_as locations.now ≡ names.locations (content_of test.now) }
    ensures { IfOk result (λ v. IsListOf (IsReadsFromOf (content_of test.now)
        (map run_as runs.now)) (event_lists_as v.items)) }
{
    let events = nodes(alloc, locations, runs)?;
    let reading = loads(alloc, runs)?;
    let lists = source_lists(alloc, test, locations, runs, &reading)?;
    let all = products(alloc, &lists)?;
    let kept = sound_among(alloc, &events, runs, &reading, &all)?;
    Ok(kept)
}
